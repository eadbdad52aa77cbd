// Runs: lists of events as lent bytes, applied to one chain up to a limit, the end or the first refusal.
// The records and the public call, `run`, stand here. The run itself works on an image where it lies (on_image.rt), for whoever holds one: it asks for what
// `before_any` has told.
#![tactic(auto)]

mod list;
pub mod on_image;

ghost use Rattle.std.specs.Prelude.{[], ◌∷◌, ◌≡◌};
ghost use Rattle.refusal.specs.Numbers.{first_of_list};
ghost use Rattle.chain.specs.Refusals.{not_sound};
ghost use Rattle.run.specs.Run.{broken_event, short_results, run_of};

use crate::on_image::run_in;
use chain::Chain;
use image::LENGTH;
use image::reading::chain_in;
use image::writing::put_chain;
use refusal::{Refusal, Verdict};

// What a run reports, and the chain handed back. `accepted` counts the events accepted.
#[derive(Clone, Copy)]
pub struct Ran {
    pub verdict: Verdict,
    pub accepted: usize,
    pub chain: Chain,
}

// A run over a list of bytes, four an event, up to a limit of events. The lent results get two bytes per accepted event.
pub fn run(chain: Chain, bytes: &[u8], limit: usize, results: &mut [u8]) -> Ran
    ensures value { result ≡ (run_of chain bytes.now limit results.old).ran }
    ensures results_after { results.new ≡ (run_of chain bytes.now limit results.old).results }
{
    if let Err(why) = before_any(chain, bytes.len(), results.len()) {
        return Ran {
            verdict: Err(why),
            accepted: 0,
            chain,
        };
    }
    let mut image = [0; LENGTH];
    put_chain(&mut image, chain);
    let reached = run_in(&mut image, bytes, limit, results);
    Ran {
        verdict: reached.verdict,
        accepted: reached.accepted,
        chain: chain_in(&image),
    }
}

// 1, 10 and 11 come before any event: for a list of so many bytes, and so much room for results.
pub fn before_any(chain: Chain, length: usize, room: usize) -> Verdict
    ensures { result ≡ first_of_list (not_sound chain ∷ broken_event length ∷ short_results length room ∷ []) }
{
    if !chain.is_sound() {
        return Err(Refusal::NotSound);
    }
    if length % 4 != 0 {
        return Err(Refusal::BrokenEvent);
    }
    if room < 2 * (length / 4) {
        return Err(Refusal::ShortResults);
    }
    Ok(())
}
