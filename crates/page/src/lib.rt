// What a page says of a state: the event with its step, and for each chip in the count the line of its pins and the line of its registers, all with one event number.
// A page is written into a lent buffer. The page stands here, its lines in lines.rt.
#![tactic(auto)]

mod lines;

ghost use Rattle.std.specs.Prelude.{◌≡◌};
ghost use Rattle.page.specs.Page.{chips_from, chip_lines, byte_text, event_parts, page_of};
ghost use Rattle.text.specs.Written.{joined, written};

use crate::lines::{put_pins_line, put_registers_line};
use chain::Chain;
use event::Numbered;
use refusal::Answer;
use steps::spelled::put_step;
use text::put::{put, put_byte_field, put_field};
use views::{pin_view, register_view};

// The page after an accepted step, from its line of the list.
#[tactic(auto, using(steps::proofs::InARow::in_a_row), unfolding(crate::specs::Page::page_of))]
pub fn put_page(
    to: &mut [u8],
    at: usize,
    line: u64,
    step: Numbered,
    answer: Answer,
    chain: Chain,
) -> usize
    ensures { (to.new, result) ≡ written (to.old, at) (page_of line step answer chain) }
{
    let next = put_event(to, at, line, step, answer, chain.event);
    put_chips(to, next, chain)
}

// event N at L STEP accepted, and the byte where one was driven or read.
fn put_event(
    to: &mut [u8],
    at: usize,
    line: u64,
    step: Numbered,
    answer: Answer,
    event: u16,
) -> usize
    ensures { (to.new, result) ≡ written (to.old, at) (joined (event_parts line step answer event)) }
{
    let next = put_field(to, at, b"event ", event as u64);
    let next = put_field(to, next, b" at ", line);
    let next = put(to, next, b" ");
    let next = put_step(to, next, step);
    let next = put(to, next, b" accepted");
    let next = put_byte(to, next, answer);
    put(to, next, b"\n")
}

// The byte that an answer has.
#[tactic(auto, using(text::proofs::Written::written_none))]
fn put_byte(to: &mut [u8], at: usize, answer: Answer) -> usize
    ensures { (to.new, result) ≡ written (to.old, at) (byte_text answer) }
{
    match answer {
        Ok(Some(b)) => put_byte_field(to, at, b" byte ", b),
        Ok(None) | Err(_) => at,
    }
}

// Two lines for each chip in the count. The loop is over numbers: each is printed, and the views ask for it.
#[tactic(auto, using(crate::proofs::Chips::chips_more, crate::proofs::Chips::chips_end))]
fn put_chips(to: &mut [u8], at: usize, chain: Chain) -> usize
    ensures { (to.new, result) ≡ written (to.old, at) (chips_from chain.count 0 chain) }
{
    let mut next = at;
    for i in 0..chain.count {
        next = put_chip(to, next, i, chain);
    }
    next
}

// The two lines of a chip are its two views.
#[tactic(auto, using(steps::proofs::InARow::in_a_row))]
fn put_chip(to: &mut [u8], at: usize, i: u8, chain: Chain) -> usize
    ensures { (to.new, result) ≡ written (to.old, at) (chip_lines i chain) }
{
    let next = put_pins_line(to, at, i, pin_view(chain, i));
    put_registers_line(to, next, i, register_view(chain, i))
}
