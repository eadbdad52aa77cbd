// One Am9519A: its record, what each command of Figure 4 does to it, and what else happens inside a single chip.
// The records stand here, and what is done with them in a module for each page of specs/. A method that asks for a sound chip, a row of
// Figure 4 or an index in range is for the chain's events, which have checked that; the chain's public calls ask for nothing.
#![tactic(auto)]

mod acknowledge;
mod commands;
mod data;
mod fields;
mod line;
mod reset;
mod sound;
mod status;

// Where data writes go: nowhere, IMR, ACR, or a response level with the next place of it.
#[derive(Clone, Copy)]
pub enum Destination {
    Nowhere,
    Imr,
    Acr,
    Level(u8, u8),
}

// The registers of a chip (the rules paper, "A chip"). The response memory is flat: level * 4 + place.
#[derive(Clone, Copy)]
pub struct Chip {
    pub irr: u8,
    pub isr: u8,
    pub imr: u8,
    pub acr: u8,
    pub mode: u8,
    pub command: u8,
    pub memory: [u8; 32],
    // Byte count codes: 0 to 3 mean 1 to 4 bytes.
    pub counts: [u8; 8],
    // A bit for each IREQ line, set while the line is high.
    pub lines: u8,
    // The channel answered last.
    pub pointer: u8,
    pub destination: Destination,
}
