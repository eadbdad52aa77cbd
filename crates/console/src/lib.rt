// What the programs share: an input line by line, in memory that its program has from the beginning; what fails when they read and write; and what is told on standard error.
// These are steps of programs, over std's readers and printers, which `main` hands them: they are proved to be safe and to end, and no more.
#![tactic(auto)]

use std::fmt::Display;
use std::io::{Cursor, Error, Read, Write};
use text::put::put;
use text::words::{first, line_end};

// A line of an input, without its line feed: one with a line feed behind it, or the last one, behind which the input ends.
#[derive(Clone, Copy)]
pub enum Line<'a> {
    Whole(&'a [u8]),
    Last(&'a [u8]),
}

// How far an input has been read: of the piece that was read last, which bytes are still to be handed out, from a place up to another.
// The piece is lent, and no reader of the library's: that one takes its memory from the heap, and a program that has come to its input could still run out of it.
#[derive(Clone, Copy)]
pub struct Input {
    pub at: usize,
    pub end: usize,
}

impl Input {
    // Before the first byte.
    pub fn new() -> Input {
        Input { at: 0, end: 0 }
    }

    // The next line that `from` reads, by pieces, put into `room`. A line that fills its room is taken for a whole one: it is longer than a line may be, and has room for one byte more
    // than that. Each turn but the last puts a byte at least.
    pub fn next_line<'a>(
        &mut self,
        from: &mut impl Read,
        piece: &mut [u8],
        room: &'a mut [u8],
    ) -> Result<Line<'a>, Failure> {
        let mut filled = 0;
        for _ in 0..room.len() {
            if self.at >= self.end {
                self.at = 0;
                self.end = from.read(piece).map_err(Failure::Input)?;
                if self.end == 0 {
                    return Ok(Line::Last(first(room, filled)));
                }
            }
            let left = first(piece, self.end).get(self.at..).unwrap_or(&[]);
            let n = line_end(left);
            filled = put(room, filled, &left[..n]);
            self.at = self.at.saturating_add(n).saturating_add(1);
            if n < left.len() {
                return Ok(Line::Whole(first(room, filled)));
            }
            if filled >= room.len() {
                break;
            }
        }
        Ok(Line::Whole(first(room, filled)))
    }
}

// Hands on what has been printed.
pub fn hand_on(to: &impl Print, printed: &[u8]) -> Result<(), Failure> {
    to.write_all(printed).map_err(Failure::Output)
}

// What a program cannot go on without.
#[derive(Drop)]
pub enum Failure {
    Input(Error),
    Output(Error),
}

impl Failure {
    // Says what failed, and the system's word for it.
    pub fn tell(&self, errors: &impl Print, name: &[u8]) {
        let (what, error): (&[u8], &Error) = match self {
            Failure::Input(error) => (b"standard input: ", error),
            Failure::Output(error) => (b"standard output: ", error),
        };
        let mut words = [0u8; 256];
        let length = put_word(&mut words, error);
        let mut told = [0u8; 512];
        let next = put(&mut told, 0, what);
        let next = put(&mut told, next, first(&words, length));
        let next = put(&mut told, next, b"\n");
        tell(errors, name, first(&told, next));
    }
}

// Says something on standard error, behind the program's name. A program has no exit status of its own here: its script makes one of what is told.
// Where that cannot be written either, there is nobody left to tell.
pub fn tell(errors: &impl Print, name: &[u8], message: &[u8]) {
    let _ = errors.write_all(name);
    let _ = errors.write_all(b": ");
    let _ = errors.write_all(message);
}

// The system's word for an error: what std prints for it, without the number of the error, which std puts behind it in brackets. Hands back how long it is.
// Into memory that is there already: what is told when memory has run out takes none.
fn put_word(words: &mut [u8], error: &Error) -> usize {
    let whole = put_shown(words, error);
    match error.raw_os_error() {
        None => whole,
        Some(code) => {
            let mut number = [0u8; 64];
            whole.saturating_sub(put_shown(&mut number, format_args!(" (os error {code})")))
        }
    }
}

// What is printed for a value, as far as there is room for it. Hands back how long that is.
fn put_shown(to: &mut [u8], shown: impl Display + Drop) -> usize {
    let mut cursor = Cursor::new(to);
    let _ = write!(cursor, "{shown}");
    cursor.position() as usize
}
