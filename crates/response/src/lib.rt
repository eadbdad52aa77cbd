// The response under way: what is held of it from its first pulse on, when its record is sound, and what ends it; and the walk along the chain that finds who
// responds.
#![tactic(auto)]

pub mod along;
pub mod held;
pub mod sound;

// A response that is under way, and how many of its bytes the chip has driven.
#[derive(Clone, Copy)]
pub struct Reply {
    pub chip: u8,
    pub channel: u8,
    pub level: u8,
    pub length: u8,
    pub delivered: u8,
}

// The response that is under way, if one is: there is one at most.
pub type Response = Option<Reply>;

// The walk along the chain, from chip 0 on: the next chip, its Enable In, and the first chip so far that answers; the next chip itself if none does.
// That number and no Option: a walk to the end then has the count, which is how the paper's first pulse finds nobody (`answering_chip`).
#[derive(Clone, Copy)]
pub struct Walk {
    pub at: u8,
    pub ei: bool,
    pub answering: u8,
}
