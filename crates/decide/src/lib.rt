// What an event does, worked out once from what it looks at: which refusal meets it, or what it answers and changes. Whoever holds the chain, in whatever form,
// shows an event what it looks at and applies what is decided.
#![tactic(auto)]

mod changes;
mod looks;
mod pulse;
pub mod tests;

use chip::Chip;
use refusal::Answer;
use response::Response;

// Where an event looks, beside the chain's own fields.
#[derive(Clone, Copy)]
pub enum Look {
    // At no chip.
    Nowhere,
    // At a chip: the one that it names, or that responds.
    At(u8),
    // At a chip and its Enable In.
    AtEi(u8),
    // At the chip that answers a first pulse.
    Answering,
}

// What an event looks at: the chain's own fields, and a chip with its number; the count where there is no such chip.
// That number and no Option: "chip not below the count" is a test of the table, and it reads the number as it is (`no_such_chip`).
#[derive(Clone, Copy)]
pub struct Seen {
    pub count: u8,
    pub enable: bool,
    pub iack: bool,
    pub response: Response,
    pub at: u8,
    pub chip: Chip,
    // The chip's Enable In, for an event that looks at it.
    pub ei: bool,
}

// A chip that is replaced: its number, and by what.
#[derive(Clone, Copy)]
pub struct Replaced {
    pub at: u8,
    pub chip: Chip,
}

// The chain's own fields.
#[derive(Clone, Copy)]
pub struct Own {
    pub enable: bool,
    pub iack: bool,
    pub response: Response,
}

// What an accepted event does: its answer; the chip that it replaces, if it replaces one; and the chain's own fields, if it sets them.
#[derive(Clone, Copy)]
pub struct Change {
    pub answer: Answer,
    pub replaced: Option<Replaced>,
    pub own: Option<Own>,
}
