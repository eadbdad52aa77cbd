// Reading one line of an event list.
ghost use Rattle.std.specs.Prelude.{◌≡◌, ◌≤◌, ◌<◌, take};
ghost use Rattle.text.specs.Words.{behind};
ghost use Rattle.steps.specs.Lines.{text_end, is_over, value_of, words as Lines·words, behind_argument, made, step_from, read_as, may_stand, awaited, step_in, step_of, looked_at, found_in};

use crate::kinds::{KINDS, START, form_of, kind_of};
use crate::{Argument, Expected, Step};
use event::{Event, Numbered};
use text::numbers::{decimal_in, hex_in};
use text::words::{first, word_at, word_end, word_start};

// The most bytes that a line may have, its line feed not counted.
pub const LONGEST: usize = 1024;

// What a line says, without its line feed: at the beginning of a list, or when it has started.
#[tactic(auto, unfolding(crate::specs::Lines::step_of))]
pub fn step_of(started: bool, line: &[u8]) -> Step
    ensures { result ≡ step_of started line.now }
{
    if line.len() > LONGEST {
        return Step::Malformed(Expected::Shorter, 0);
    }
    step_in(started, text_of(line))
}

// The word that stands at a place of a line; of a line that is too long, the first bytes are looked at.
#[tactic(auto, unfolding(crate::specs::Lines::found_in))]
pub fn found_in(line: &[u8], place: u8) -> &[u8]
    ensures { result.now ≡ found_in place line.now }
{
    word_at(looked_at(line), place)
}

// What is looked at of a line.
#[tactic(auto, using(crate::proofs::Cuts::a_long_line))]
fn looked_at(line: &[u8]) -> &[u8]
    ensures { result.now ≡ take (looked_at line.now) line.now }
{
    if line.len() > LONGEST {
        first(line, LONGEST)
    } else {
        text_of(line)
    }
}

// A line without the carriage return at its end.
fn text_of(line: &[u8]) -> &[u8]
    ensures { result.now ≡ take (text_end line.now) line.now }
{
    line.strip_suffix(b"\r").unwrap_or(line)
}

// What the words of a line say.
#[tactic(auto, unfolding(crate::specs::Lines::step_in))]
fn step_in(started: bool, line: &[u8]) -> Step
    ensures { result ≡ step_in started line.now }
{
    if is_over(line) {
        return Step::Nothing;
    }
    match kind_of(word_at(line, 0)) {
        Some(kind) if may_stand(started, kind) => read_as(kind, behind(line)),
        _ => Step::Malformed(await_for(started), 0),
    }
}

// What stands behind the first word of a line. (text has the same for itself; shared it would be a public call, with its own promise, for one expression.)
#[tactic(auto, unfolding(text::specs::Words::behind))]
fn behind(line: &[u8]) -> &[u8]
    ensures { result.now ≡ behind line.now }
{
    &line[word_end(line)..]
}

// Whether there is no word in it.
fn is_over(line: &[u8]) -> bool
    ensures { result ≡ is_over line.now }
{
    word_start(line) == word_end(line)
}

// Whether a step may stand there: the start first, and nowhere else.
fn may_stand(started: bool, kind: u8) -> bool
    ensures { result ≡ may_stand started kind }
{
    kind < KINDS && started == (kind != START)
}

fn await_for(started: bool) -> Expected
    ensures { result ≡ awaited started }
{
    if started {
        Expected::AnEvent
    } else {
        Expected::TheStart
    }
}

// A step of a kind, from what stands behind its name.
#[tactic(auto, unfolding(crate::specs::Lines::read_as, crate::specs::Lines::read_by))]
fn read_as(kind: u8, rest: &[u8]) -> Step
    ensures { result ≡ read_as kind rest.now }
{
    let form = form_of(kind);
    let second = behind_argument(form.chip, rest);
    let third = behind_argument(form.channel, second);
    step_from(
        kind,
        value_of(form.chip, word_at(rest, 0)),
        value_of(form.channel, word_at(second, 0)),
        value_of(form.value, word_at(third, 0)),
        is_over(behind_argument(form.value, third)),
    )
}

// What stands behind the first argument of a line, which is its first word or no word at all.
#[tactic(auto, unfolding(crate::specs::Lines::behind_argument, text::specs::Words::behind))]
fn behind_argument(argument: Argument, line: &[u8]) -> &[u8]
    ensures { result.now ≡ behind_argument argument line.now }
{
    match argument {
        Argument::End => line,
        _ => behind(line),
    }
}

// What a word says as an argument.
fn value_of(argument: Argument, found: &[u8]) -> Option<u8>
    ensures { result ≡ value_of argument found.now }
{
    match argument {
        Argument::Count | Argument::Chip | Argument::Channel | Argument::Level => decimal_in(found),
        Argument::Fill | Argument::Code | Argument::Byte => hex_in(found),
        Argument::End => Some(0),
    }
}

// The step that some arguments say, or the first of them that is wrong.
#[tactic(auto, unfolding(crate::specs::Lines::step_from))]
fn step_from(kind: u8, chip: Option<u8>, channel: Option<u8>, value: Option<u8>, over: bool) -> Step
    ensures { result ≡ step_from kind chip channel value over }
{
    let form = form_of(kind);
    let channel_place = 1 + words(form.chip);
    let value_place = channel_place + words(form.channel);
    let end_place = value_place + words(form.value);
    let Some(a) = chip else {
        return Step::Malformed(Expected::Wanted(kind, form.chip), 1);
    };
    let Some(b) = channel else {
        return Step::Malformed(Expected::Wanted(kind, form.channel), channel_place);
    };
    let Some(c) = value else {
        return Step::Malformed(Expected::Wanted(kind, form.value), value_place);
    };
    if !over {
        return Step::Malformed(Expected::Wanted(kind, Argument::End), end_place);
    }
    make(kind, a, b, c)
}

// How many words of a line an argument is: one, or none where it is the end.
fn words(argument: Argument) -> u8
    ensures upper_bound { result ≤ 1 }
    ensures value { result ≡ Lines·words argument }
{
    if argument.number() == 7 { 0 } else { 1 }
}

// The step of a kind with its numbers: the count and the fill of a start, or the event that they are in a list of numbers.
fn make(kind: u8, chip: u8, channel: u8, value: u8) -> Step
    ensures { result ≡ made kind chip channel value }
{
    if kind == START {
        return Step::Start(chip, value);
    }
    let numbers = Numbered {
        kind,
        chip,
        channel,
        value,
    };
    match Event::try_from(numbers) {
        Ok(event) => Step::Happens(event),
        Err(_) => Step::Malformed(Expected::AnEvent, 0),
    }
}
