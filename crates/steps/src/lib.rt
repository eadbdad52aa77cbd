// What a line of an event list says: the start, one of the eight events, nothing, or what it should have said.
// A step is named by its kind, a number: 0 is the start, 1 to 8 are the events, by the kinds that they have in a list of numbers.
// The records stand here; line.rt reads a line, kinds.rt has the steps' names and the arguments that each takes, spelled.rt writes a step.
#![tactic(auto)]

pub mod kinds;
pub mod line;
pub mod spelled;

use event::Event;

// What stands behind a step's name.
#[derive(Clone, Copy)]
pub enum Argument {
    Count,
    Fill,
    Chip,
    Code,
    Byte,
    Channel,
    Level,
    // No word, and so the end of the line or a comment.
    End,
}

// The arguments that a step takes, in their order: for its chip, its channel and its value. `End` stands for what it does not take.
#[derive(Clone, Copy)]
pub struct Form {
    pub chip: Argument,
    pub channel: Argument,
    pub value: Argument,
}

// What should have stood where a line is malformed.
#[derive(Clone, Copy)]
pub enum Expected {
    // A line that is not too long.
    Shorter,
    // The start, with which a list begins.
    TheStart,
    // One of the eight events, since the list has begun.
    AnEvent,
    // An argument of a step of a kind.
    Wanted(u8, Argument),
}

// What a line says.
#[derive(Clone, Copy)]
pub enum Step {
    Nothing,
    // Count and fill.
    Start(u8, u8),
    Happens(Event),
    // What should have stood there, and which word of the line that is, counted from 0.
    Malformed(Expected, u8),
}
