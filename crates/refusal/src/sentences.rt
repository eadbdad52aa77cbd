// What each number says to people: what was wrong, and what to do about it.
ghost use Rattle.std.specs.Prelude.{◌≡◌, cond, leb, length};
ghost use Rattle.refusal.specs.Sentences.{meaning_of};
ghost use Rattle.text.specs.Written.{written};

use text::tables::{line_in, put_line};

// The sentences, each in the line of its number, from 0; the last line is for a number that is none. One text by lines: the definition reads the same one.
const SENTENCES: [u8; 1320] = *b"\
    accepted\n\
    not a sound chain: a count of chips outside 1 to 8, or from C an image of another length or form or with a number out of range; start one of 1 to 8 chips\n\
    no such chip: the first is 0 and the last is one below the count; name a chip of this chain\n\
    no such channel: a chip has the channels 0 to 7; name one of these\n\
    no such level: a pin is at 0 or at 1; give one of these\n\
    IACK is low: no command, data, status or read during an acknowledge pulse; let IACK rise first\n\
    IACK is at that level already: it starts high, and falls and rises take turns; leave this one out or put the other before it\n\
    undefined command: 01 to 0F, A3, A7, AB, AF and D0 to DF are in no row of Figure 4; write another code\n\
    no destination for data: the last accepted command, if any, chose none; first write B0 to BF for IMR, C0 to CF for ACR or E0 to FF for a level\n\
    the level has all the bytes of its count; choose it again by E0 to FF, with a larger count if it needs more\n\
    the length of the events is no multiple of four; lend four bytes for each event\n\
    the buffer is too short; lend two bytes for each listed event of a run, 9 for a table of registers, 8 for a picture of pins\n\
    no such kind of event; kinds are 1 to 8\n\
    no number of a refusal: calls hand back 0 to 12, and the search a channel, 254 for a pointer above 7 or 255 for no candidate";

// What a number says.
pub fn put_meaning(to: &mut [u8], at: usize, number: u8) -> usize
    ensures { (to.new, result) ≡ written (to.old, at) (meaning_of number) }
{
    put_line(to, at, &SENTENCES, line_of(number))
}

// How long that is.
pub fn meaning_length(number: u8) -> usize
    ensures { result ≡ length (meaning_of number) }
{
    line_in(&SENTENCES, line_of(number)).len()
}

// The line of a number.
fn line_of(number: u8) -> u8
    ensures { result ≡ cond (leb number 12) number 13 }
{
    if number <= 12 { number } else { 13 }
}
