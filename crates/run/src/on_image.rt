// A run on a chain's image where it lies: an event writes the chip that it changes, and no chain is copied from event to event.
ghost use Rattle.std.specs.Prelude.{true, ◌≡◌, ◌+◌, ◌*◌, ◌≤◌, min, length};
ghost use Rattle.refusal.specs.Answers.{handed};
ghost use Rattle.chain.specs.Sound.{sound};
ghost use Rattle.image.specs.Reading.{chain_in, is_image};
ghost use Rattle.refusal.specs.Numbers.{is_accepted};
ghost use Rattle.run.specs.Run.{listed_outcome, noted, stopped, run_from, before_any, run_of};

use crate::list::listed_at;
use event::{Event, UnknownKind};
use in_place::on;
use refusal::answers::{byte, drove};
use refusal::{Answer, Refusal, Verdict};

// What a run over an image reports; the chain is in the image.
#[derive(Clone, Copy)]
pub struct Reached {
    pub verdict: Verdict,
    pub accepted: usize,
}

// A listed event: 12, kind outside 1 to 8, before the event's own refusals.
fn step_in(image: &mut [u8], listed: Result<Event, UnknownKind>) -> Answer
    requires image_form { is_image image.old ≡ true }
    requires chain_sound { sound (chain_in image.old) ≡ true }
    ensures value { result ≡ (listed_outcome listed (chain_in image.old)).answer }
    ensures form_after { is_image image.new ≡ true }
    ensures chain_after { chain_in image.new ≡ (listed_outcome listed (chain_in image.old)).chain }
{
    match listed {
        Ok(e) => on(image, e),
        Err(_) => Err(Refusal::UnknownKind),
    }
}

// The n-th accepted event's two bytes: 1 and the byte driven or read, or 0 and 0.
fn note(results: &mut [u8], n: usize, answer: Answer)
    requires { 2 * n + 2 ≤ length results.old }
    ensures { results.new ≡ noted n (handed answer) results.old }
{
    let first = 2 * n;
    results[first] = drove(answer);
    results[first + 1] = byte(answer);
}

// The first so many events of the list.
fn perform_in(image: &mut [u8], bytes: &[u8], count: usize, results: &mut [u8]) -> Reached
    requires image_form { is_image image.old ≡ true }
    requires chain_sound { sound (chain_in image.old) ≡ true }
    requires count_in_bounds { 4 * count ≤ length bytes.now }
    requires room_in_bounds { 2 * count ≤ length results.old }
    ensures form_after { is_image image.new ≡ true }
    ensures results_after { stopped result.verdict result.accepted (chain_in image.new) results.new
        ≡ run_from count bytes.now 0 (chain_in image.old) results.old }
{
    // The number is the place in both lists, and what is reported: the events accepted.
    for n in 0..count {
        let answer = step_in(image, listed_at(bytes, n));
        match answer {
            Ok(_) => note(results, n, answer),
            Err(why) => {
                return Reached {
                    verdict: Err(why),
                    accepted: n,
                };
            }
        }
    }
    Reached {
        verdict: Ok(()),
        accepted: count,
    }
}

// A run over an image, for what nothing refuses before any event.
pub fn run_in(image: &mut [u8], bytes: &[u8], limit: usize, results: &mut [u8]) -> Reached
    requires image_form { is_image image.old ≡ true }
    requires results_value { is_accepted (before_any (chain_in image.old) bytes.now results.old) ≡ true }
    ensures form_after { is_image image.new ≡ true }
    ensures results_after { stopped result.verdict result.accepted (chain_in image.new) results.new
        ≡ run_of (chain_in image.old) bytes.now limit results.old }
{
    perform_in(image, bytes, limit.min(bytes.len() / 4), results)
}
