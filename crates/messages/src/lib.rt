// What ends a report before the list's end: a refusal, or what stood in a line and what should have.
#![tactic(auto)]

ghost use Rattle.std.specs.Prelude.{◌≡◌};
ghost use Rattle.messages.specs.Messages.{refused_line, slot, help, form_parts, wanted_parts, expected_parts, found_text, has_mark, has0x, name_hint, number_hint, hint, malformed_line};
ghost use Rattle.steps.specs.Kinds.{form_of};
ghost use Rattle.text.specs.Written.{joined, written};

use event::Numbered;
use refusal::Refusal;
use refusal::sentences::put_meaning;
use steps::kinds::{form_of, in_capitals, put_name};
use steps::spelled::put_step;
use steps::{Argument, Expected};
use text::Way;
use text::cast::put_cast;
use text::put::{put, put_field};
use text::words::{begins, first};

// at L STEP refused R: and what the number says.
pub fn put_refused(to: &mut [u8], at: usize, line: u64, step: Numbered, why: Refusal) -> usize
    ensures { (to.new, result) ≡ written (to.old, at) (refused_line line step why) }
{
    let number = why.number();
    let next = put_field(to, at, b"at ", line);
    let next = put(to, next, b" ");
    let next = put_step(to, next, step);
    let next = put_field(to, next, b" refused ", number as u64);
    let next = put(to, next, b": ");
    let next = put_meaning(to, next, number);
    put(to, next, b"\n")
}

// at L malformed: the word that was found there, and what was expected.
pub fn put_malformed(to: &mut [u8], at: usize, line: u64, expected: Expected, found: &[u8]) -> usize
    ensures { (to.new, result) ≡ written (to.old, at) (malformed_line line expected found.now) }
{
    let next = put_field(to, at, b"at ", line);
    let next = put(to, next, b" malformed: ");
    let next = put_found(to, next, found);
    let next = put(to, next, b", ");
    let next = put_expected(to, next, expected);
    let next = put(to, next, hint(expected, found));
    put(to, next, b"\n")
}

// The word that was found: at most 40 bytes of it, as they can be shown.
fn put_found(to: &mut [u8], at: usize, found: &[u8]) -> usize
    ensures { (to.new, result) ≡ written (to.old, at) (found_text found.now) }
{
    if found.is_empty() {
        put(to, at, b"(no word)")
    } else {
        put_cast(to, at, first(found, 40), Way::Shown)
    }
}

// What may help.
fn hint(expected: Expected, found: &[u8]) -> &'static [u8]
    ensures { result.now ≡ hint expected found.now }
{
    match expected {
        Expected::Shorter => b"",
        Expected::TheStart | Expected::AnEvent => name_hint(found),
        Expected::Wanted(_, argument) => number_hint(argument, found),
    }
}

fn name_hint(found: &[u8]) -> &'static [u8]
    ensures { result.now ≡ name_hint found.now }
{
    if has_mark(found) {
        b"; a byte order mark stands before it: save the list as plain text, without one"
    } else if in_capitals(found) {
        b"; names are written in small letters"
    } else {
        b""
    }
}

// With a number that has 0x before it; with the end of a line nothing does.
#[tactic(auto, unfolding(text::specs::Words::line_end))]
fn number_hint(argument: Argument, found: &[u8]) -> &'static [u8]
    ensures { result.now ≡ number_hint argument found.now }
{
    if !has_0x(found) {
        return b"";
    }
    match argument {
        Argument::Count | Argument::Chip | Argument::Channel | Argument::Level => {
            b"; write it in decimal, without 0x"
        }
        Argument::Fill | Argument::Code | Argument::Byte => b"; write the digits alone, without 0x",
        Argument::End => b"",
    }
}

// Whether a byte order mark stands at the beginning.
fn has_mark(found: &[u8]) -> bool
    ensures { result ≡ has_mark found.now }
{
    begins(b"\xEF\xBB\xBF", found) || begins(b"\xFF\xFE", found) || begins(b"\xFE\xFF", found)
}

// Whether it is written as some languages write hex.
fn has_0x(found: &[u8]) -> bool
    ensures { result ≡ has0x found.now }
{
    begins(b"0x", found) || begins(b"0X", found)
}

// What was expected.
fn put_expected(to: &mut [u8], at: usize, expected: Expected) -> usize
    ensures { (to.new, result) ≡ written (to.old, at) (joined (expected_parts expected)) }
{
    match expected {
        Expected::Shorter => put(to, at, b"expected a line of at most 1024 bytes"),
        Expected::TheStart => put(
            to,
            at,
            b"expected the first step of a list, start COUNT FILL: how many chips (decimal, 1 to 8) and the byte in the response memory at power-up (hex)",
        ),
        Expected::AnEvent => put(
            to,
            at,
            b"expected an event: command, data, status, read, line, enable, fall or rise (start stands first and only there)",
        ),
        Expected::Wanted(kind, argument) => put_wanted(to, at, kind, argument),
    }
}

// The argument that was expected, and the form of its step.
#[tactic(auto, using(steps::proofs::InARow::in_a_row))]
fn put_wanted(to: &mut [u8], at: usize, kind: u8, argument: Argument) -> usize
    ensures { (to.new, result) ≡ written (to.old, at) (joined (wanted_parts kind argument)) }
{
    let next = put(to, at, b"expected");
    let next = put(to, next, slot(argument));
    let next = put(to, next, help(argument));
    let next = put(to, next, b", as in: ");
    put_form(to, next, kind)
}

// A step's name, and the names of its arguments.
#[tactic(auto, using(steps::proofs::InARow::in_a_row))]
fn put_form(to: &mut [u8], at: usize, kind: u8) -> usize
    ensures { (to.new, result) ≡ written (to.old, at) (joined (form_parts kind (form_of kind))) }
{
    let form = form_of(kind);
    let next = put_name(to, at, kind);
    let next = put(to, next, slot(form.chip));
    let next = put(to, next, slot(form.channel));
    put(to, next, slot(form.value))
}

// An argument's name; what a step does not take has none.
#[tactic(auto, unfolding(crate::specs::Messages::slot, text::specs::Words::line_end))]
fn slot(argument: Argument) -> &'static [u8]
    ensures { result.now ≡ slot argument }
{
    match argument {
        Argument::Count => b" COUNT",
        Argument::Fill => b" FILL",
        Argument::Chip => b" CHIP",
        Argument::Code => b" CODE",
        Argument::Byte => b" BYTE",
        Argument::Channel => b" CHANNEL",
        Argument::Level => b" LEVEL",
        Argument::End => b"",
    }
}

// What to write for it.
#[tactic(auto, unfolding(crate::specs::Messages::help, text::specs::Words::line_end))]
fn help(argument: Argument) -> &'static [u8]
    ensures { result.now ≡ help argument }
{
    match argument {
        Argument::Count => b" (how many chips, decimal, 1 to 8)",
        Argument::Fill => b" (the byte in the response memory at power-up, one or two hex digits)",
        Argument::Chip => b" (a chip's number, decimal, 0 for the first)",
        Argument::Code => b" (a command, one or two hex digits)",
        Argument::Byte => b" (a byte, one or two hex digits)",
        Argument::Channel => b" (a channel's number, decimal, 0 to 7)",
        Argument::Level => b" (a level, 0 or 1)",
        Argument::End => b" the end of the line, or a comment with #",
    }
}
