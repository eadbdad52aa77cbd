// The C interface: what the report generator, written in C, calls. include/am9519a.h declares it, and the crate am9519a_c exports it under the same names.
// Every function takes any numbers and any bytes, and answers each: none has a `requires`. What C has to keep of its pointers: docs/C.md.
#![tactic(auto)]

mod shown;

ghost use Rattle.std.specs.Prelude.{◌≡◌};
ghost use Rattle.refusal.specs.Numbers.{verdict_number};
ghost use Rattle.search.specs.Candidate.{search_number};
ghost use Rattle.am9519a.specs.Calls.{start_call, run_left, run_call, registers_call, pins_call, meaning_call};

use crate::shown::{chain_of, picture_bytes, put_view, table_bytes};
use chain::Chain;
use image::writing::put_chain;
use refusal::answers::verdict_in;
use refusal::sentences::{meaning_length, put_meaning};
use refusal::{Refusal, Verdict, verdict_number};
use run::on_image::run_in;
use search::{candidate_number, candidate_of};
use views::{pin_view, register_view};

// The candidate search over register numbers: the channel, 255 for no candidate, or 254 if the pointer is above 7.
#[tactic(auto, unfolding(search::specs::Candidate::search_number))]
pub fn am9519a_candidate(irr: u8, imr: u8, isr: u8, mode: u8, pointer: u8) -> u8
    ensures { result ≡ search_number irr imr isr mode pointer }
{
    if pointer > 7 {
        // The number of no refusal: a caller in C reads a channel here.
        return 254;
    }
    candidate_number(candidate_of(irr, imr, isr, mode, pointer))
}

// The chain at the start, into an image: refused where that has another length.
#[tactic(auto, unfolding(crate::specs::Calls::start_call, crate::specs::Calls::called))]
fn start(count: u8, fill: u8, image: &mut [u8]) -> Verdict
    ensures value { verdict_number result ≡ (start_call count fill image.old).number }
    ensures image_after { image.new ≡ (start_call count fill image.old).buffer }
{
    if image.len() != image::LENGTH {
        return Err(Refusal::NotSound);
    }
    let started = Chain::start(count, fill);
    verdict_in(started.answer)?;
    put_chain(image, started.chain);
    Ok(())
}

// A run on an image: what refuses it before any event leaves everything as it was.
#[tactic(auto, unfolding(run::specs::Run::before_any), using(crate::proofs::Told::run_ready, crate::proofs::Told::run_refused, crate::proofs::Told::run_done, image::proofs::OneToOne::written_back))]
fn run_image(
    image: &mut [u8],
    events: &[u8],
    limit: usize,
    results: &mut [u8],
    accepted: &mut usize,
) -> Verdict
    ensures { run_left (verdict_number result) image.new results.new accepted.new
        ≡ run_call image.old events.now limit results.old accepted.old }
{
    run::before_any(chain_of(image), events.len(), results.len())?;
    let reached = run_in(image, events, limit, results);
    *accepted = reached.accepted;
    reached.verdict
}

// The chain at the start, into an image.
pub fn am9519a_start(count: u8, fill: u8, image: &mut [u8]) -> u8
    ensures value { result ≡ (start_call count fill image.old).number }
    ensures image_after { image.new ≡ (start_call count fill image.old).buffer }
{
    verdict_number(start(count, fill, image))
}

// A run over a list of events, four bytes each, up to a limit.
pub fn am9519a_run(
    image: &mut [u8],
    events: &[u8],
    limit: usize,
    results: &mut [u8],
    accepted: &mut usize,
) -> u8
    ensures { run_left result image.new results.new accepted.new
        ≡ run_call image.old events.now limit results.old accepted.old }
{
    verdict_number(run_image(image, events, limit, results, accepted))
}

// The register view of a chip.
#[tactic(auto, unfolding(crate::specs::Calls::registers_call))]
pub fn am9519a_registers(image: &[u8], chip: u8, view: &mut [u8]) -> u8
    ensures value { result ≡ (registers_call image.now chip view.old).number }
    ensures view_after { view.new ≡ (registers_call image.now chip view.old).buffer }
{
    let seen = register_view(chain_of(image), chip);
    verdict_number(put_view(view, seen.verdict, &table_bytes(seen.table)))
}

// The pin view of a chip.
#[tactic(auto, unfolding(crate::specs::Calls::pins_call))]
pub fn am9519a_pins(image: &[u8], chip: u8, view: &mut [u8]) -> u8
    ensures value { result ≡ (pins_call image.now chip view.old).number }
    ensures view_after { view.new ≡ (pins_call image.now chip view.old).buffer }
{
    let seen = pin_view(chain_of(image), chip);
    verdict_number(put_view(view, seen.verdict, &picture_bytes(seen.picture)))
}

// What a number says to people, as far as there is room for it. Hands back how long all of it is.
#[tactic(auto, unfolding(crate::specs::Calls::meaning_call))]
pub fn am9519a_meaning(number: u8, text: &mut [u8]) -> usize
    ensures value { result ≡ (meaning_call number text.old).number }
    ensures text_after { text.new ≡ (meaning_call number text.old).buffer }
{
    put_meaning(text, 0, number);
    meaning_length(number)
}
