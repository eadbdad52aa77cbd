// An event on an image where it lies: where it looks, its tests and its change are those of `decide`, and no rule stands here.
ghost use Rattle.std.specs.Prelude.{true, IfSome, ◌≡◌, ◌<◌};
ghost use Rattle.chain.specs.Events.{accepted, event_of};
ghost use Rattle.chain.specs.Seen.{looked_ei};
ghost use Rattle.chain.specs.Sound.{sound};
ghost use Rattle.image.specs.Reading.{chain_in, is_image};
ghost use Rattle.parts.specs.Round.{shown_to};

use decide::tests::verdict;
use decide::{Change, Look, Seen};
use event::Event;
use image::reading::response_in;
use parts::apply::{apply, looked_at, seen_round, walked};
use parts::places::count_event;
use refusal::Answer;

// The Enable In of the chip that an event looks at, for an event that looks at it.
#[inline(always)]
#[tactic(auto, unfolding(chain::specs::Walk::walked_to))]
fn looked_ei(image: &[u8], look: Look) -> bool
    requires { is_image image.now ≡ true }
    ensures { result ≡ looked_ei look (chain_in image.now) }
{
    match look {
        Look::AtEi(i) => walked(image, i).ei,
        Look::Nowhere | Look::At(_) | Look::Answering => false,
    }
}

// What an event is shown: the chain's own fields, and the chip at which it looks.
#[inline(always)]
#[tactic(auto, unfolding(image::specs::Reading::chain_in), using(image::proofs::OneToOne::image_length))]
fn shown(image: &[u8], e: Event) -> Seen
    requires { is_image image.now ≡ true }
    ensures { result ≡ shown_to e (chain_in image.now) }
{
    let look = Look::of(e, response_in(image));
    seen_round(image, looked_at(image, look), looked_ei(image, look))
}

// What an accepted event does, and one more event counted.
#[tactic(auto, unfolding(chain::specs::Events::accepted))]
fn accept(image: &mut [u8], change: Change) -> Answer
    requires image_form { is_image image.old ≡ true }
    requires at_bound { IfSome change.replaced (λ replaced. replaced.at < 8) }
    ensures value { result ≡ (accepted change (chain_in image.old)).answer }
    ensures form_after { is_image image.new ≡ true }
    ensures chain_after { chain_in image.new ≡ (accepted change (chain_in image.old)).chain }
{
    apply(image, change);
    count_event(image);
    change.answer
}

// The event is shown what it looks at and judged by that, and what is decided is applied.
#[inline(always)]
#[tactic(auto, unfolding(chain::specs::Events::refused), using(crate::proofs::Shown::does, crate::proofs::Shown::lands, crate::proofs::Shown::declines, crate::proofs::Shown::is_seen_sound))]
pub(crate) fn step(image: &mut [u8], e: Event) -> Answer
    requires image_form { is_image image.old ≡ true }
    requires chain_sound { sound (chain_in image.old) ≡ true }
    ensures value { result ≡ (event_of e (chain_in image.old)).answer }
    ensures form_after { is_image image.new ≡ true }
    ensures chain_after { chain_in image.new ≡ (event_of e (chain_in image.old)).chain }
{
    let seen = shown(image, e);
    verdict(e, seen)?;
    accept(image, seen.change(e))
}
