// What an event looks at in an image, and an image with what is decided applied where it lies.
// Written beside chain's own `apply`: the paper asks for a chain by value, C lends an image, and both are proved equal to one definition.
#![tactic(auto, using(image::proofs::OneToOne::image_length))]

ghost use Rattle.std.specs.Prelude.{true, IfSome, ◌≡◌, ◌<◌};
ghost use Rattle.chain.specs.Apply.{replaced_in, set_in, applied};
ghost use Rattle.chain.specs.Seen.{looked_at};
ghost use Rattle.chain.specs.Walk.{walked_to};
ghost use Rattle.image.specs.Reading.{chain_in, is_image};
ghost use Rattle.parts.specs.Round.{seen_round};

use crate::places::{chip_at, chip_round, set_chip, set_own};
use decide::{Change, Look, Seen};
use image::places::{COUNT, ENABLE, IACK};
use image::reading::response_in;
use response::Walk;

// The walk along the chain up to a chip.
pub fn walked(image: &[u8], to: u8) -> Walk
    requires { is_image image.now ≡ true }
    ensures { result ≡ walked_to (chain_in image.now) to }
{
    let response = response_in(image);
    Walk::along(image[ENABLE] == 1, to, response, |i| chip_at(image, i))
}

// The number of the chip that an event looks at; the count where there is no such chip.
#[tactic(auto, unfolding(image::specs::Reading::chain_in, chain::specs::Walk::walked_to, chain::specs::Walk::answering_chip), using(image::proofs::OneToOne::image_length))]
pub fn looked_at(image: &[u8], look: Look) -> u8
    requires { is_image image.now ≡ true }
    ensures { result ≡ looked_at look (chain_in image.now) }
{
    match look {
        Look::Nowhere => image[COUNT],
        Look::At(i) | Look::AtEi(i) => i,
        Look::Answering => walked(image, image[COUNT]).answering,
    }
}

// The chain's own fields, and a chip with its number and its Enable In. Past the eight records the number tells that there is no such chip, and the chip is
// some other.
#[tactic(auto, unfolding(image::specs::Reading::chain_in, crate::specs::Round::seen_round), using(image::proofs::OneToOne::image_length))]
pub fn seen_round(image: &[u8], at: u8, ei: bool) -> Seen
    requires { is_image image.now ≡ true }
    ensures { result ≡ seen_round at ei (chain_in image.now) }
{
    Seen {
        count: image[COUNT],
        enable: image[ENABLE] == 1,
        iack: image[IACK] == 1,
        response: response_in(image),
        at,
        chip: chip_round(image, at),
        ei,
    }
}

// The chip that is replaced, if one is.
#[tactic(auto, unfolding(chain::specs::Apply::replaced_in))]
fn replace(image: &mut [u8], change: Change)
    requires image_form { is_image image.old ≡ true }
    requires at_bound { IfSome change.replaced (λ replaced. replaced.at < 8) }
    ensures form_after { is_image image.new ≡ true }
    ensures chain_after { chain_in image.new ≡ replaced_in change (chain_in image.old) }
{
    if let Some(replaced) = change.replaced {
        set_chip(image, replaced.at, replaced.chip);
    }
}

// The chain's own fields, if they are set.
#[tactic(auto, unfolding(chain::specs::Apply::set_in))]
fn set(image: &mut [u8], change: Change)
    requires { is_image image.old ≡ true }
    ensures form_after { is_image image.new ≡ true }
    ensures chain_after { chain_in image.new ≡ set_in change (chain_in image.old) }
{
    if let Some(own) = change.own {
        set_own(image, own.enable, own.iack, own.response);
    }
}

// What is decided.
#[tactic(auto, unfolding(chain::specs::Apply::applied))]
pub fn apply(image: &mut [u8], change: Change)
    requires image_form { is_image image.old ≡ true }
    requires at_bound { IfSome change.replaced (λ replaced. replaced.at < 8) }
    ensures form_after { is_image image.new ≡ true }
    ensures chain_after { chain_in image.new ≡ applied change (chain_in image.old) }
{
    replace(image, change);
    set(image, change);
}
