// One to eight chained Am9519A chips: the chain's record, and the eight events, each of which takes the chain and hands back a new one by value.
// The records stand here. The public calls are in start.rt, calls.rt (the eight events) and sound.rt; they take every input. apply.rt shows an event what it looks at
// and applies what is decided; levels.rt has the pins.
#![tactic(auto)]

mod apply;
mod calls;
mod fields;
mod levels;
mod sound;
mod start;

use chip::Chip;
use refusal::Answer;
use response::Response;

// The chain: chip 0 first; records past the count are never changed. A level is true where it is high.
#[derive(Clone, Copy)]
pub struct Chain {
    pub count: u8,
    pub chips: [Chip; 8],
    pub enable: bool,
    pub iack: bool,
    pub response: Response,
    pub event: u16,
}

// The answer, and the chain handed back.
#[derive(Clone, Copy)]
pub struct Outcome {
    pub answer: Answer,
    pub chain: Chain,
}
