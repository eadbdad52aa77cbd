// The steps' names, and the arguments that each step takes.
ghost use Rattle.std.specs.Prelude.{◌≡◌, Some, None, cond};
ghost use Rattle.steps.specs.Kinds.{name_of, kind_of, is_name, in_capitals, form_of, argument_number};
ghost use Rattle.text.specs.Written.{written};

use crate::{Argument, Form};
use text::Way;
use text::cast::put_cast;
use text::tables::{place_in, put_line};
use text::words::first;

// The kind of the start.
pub const START: u8 = 0;

// How many kinds there are. A kind is a number and no enum: form_of, put_name and put_step answer for each of the 256 that a list may have (event::Numbered).
pub const KINDS: u8 = 9;

// The names, each in the line of its kind: one text, in which a word is looked for and from which a name is written.
const NAMES: [u8; 52] = *b"start\ncommand\ndata\nstatus\nread\nline\nenable\nfall\nrise";

// The kind of the step that a word names, if it names one.
#[tactic(auto, unfolding(crate::specs::Kinds::kind_of))]
pub(crate) fn kind_of(word: &[u8]) -> Option<u8>
    ensures { result ≡ kind_of word.now }
{
    place_in(&NAMES, KINDS, word)
}

// Whether a word is no name, but would be one in small letters.
pub fn in_capitals(word: &[u8]) -> bool
    ensures { result ≡ in_capitals word.now }
{
    let mut small = [0u8; 8];
    let length = put_cast(&mut small, 0, first(word, 8), Way::Small);
    !is_name(word) & is_name(&small[..length])
}

fn is_name(word: &[u8]) -> bool
    ensures { result ≡ is_name word.now }
{
    kind_of(word).is_some()
}

// A step's name.
#[tactic(auto, unfolding(crate::specs::Kinds::name_of))]
pub fn put_name(to: &mut [u8], at: usize, kind: u8) -> usize
    ensures { (to.new, result) ≡ written (to.old, at) (name_of kind) }
{
    put_line(to, at, &NAMES, kind)
}

// The arguments of a step.
pub fn form_of(kind: u8) -> Form
    ensures { result ≡ form_of kind }
{
    let (chip, channel, value) = match kind {
        0 => (Argument::Count, Argument::End, Argument::Fill),
        1 => (Argument::Chip, Argument::End, Argument::Code),
        2 => (Argument::Chip, Argument::End, Argument::Byte),
        3 | 4 => (Argument::Chip, Argument::End, Argument::End),
        5 => (Argument::Chip, Argument::Channel, Argument::Level),
        6 => (Argument::End, Argument::End, Argument::Level),
        _ => (Argument::End, Argument::End, Argument::End),
    };
    Form {
        chip,
        channel,
        value,
    }
}

impl Argument {
    // Its line in a table.
    pub fn number(self) -> u8
        ensures { result ≡ argument_number self }
    {
        self as u8
    }
}
