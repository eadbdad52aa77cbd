// Text in lent buffers: written, as quoted words, decimal numbers, bytes in hex and words that were found; and read, as lines, words and the numbers that words say.
// Every call is answered for every input: what there is no room for is not written, and what is no number is told to be none.
#![tactic(auto)]

pub mod cast;
pub mod numbers;
pub mod put;
pub mod tables;
pub mod words;

// Another form of a byte: one that can be shown to people, or in small letters.
#[derive(Clone, Copy)]
pub enum Way {
    Shown,
    Small,
}
