// The chain that a call is about, the bytes of a view, and a view into a lent buffer.
ghost use Rattle.std.specs.Prelude.{◌≡◌};
ghost use Rattle.refusal.specs.Numbers.{verdict_number};
ghost use Rattle.am9519a.specs.Calls.{chain_of, viewed, table_bytes, picture_bytes};

use chain::Chain;
use image::reading::chain_in;
use image::writing::put_bytes;
use refusal::{Refusal, Verdict};
use views::{Pins, Registers};

// The chain in an image; where there is none, one that is not sound, so that both are refused by 1.
#[tactic(auto, unfolding(chain::specs::Start::start_of), using(image::proofs::OneToOne::image_length))]
pub(crate) fn chain_of(image: &[u8]) -> Chain
    ensures { result ≡ chain_of image.now }
{
    if image::is_image(image) {
        chain_in(image)
    } else {
        Chain::start(0, 0).chain
    }
}

// A register view's nine bytes. (C has the two views apart, each with its own bytes in its own order, so each has a function here and in lib.rt.)
pub(crate) fn table_bytes(table: Registers) -> [u8; 9]
    ensures { result ≡ table_bytes table }
{
    let event = table.event.to_le_bytes();
    [
        event[0],
        event[1],
        table.irr,
        table.isr,
        table.imr,
        table.acr,
        table.mode,
        table.status,
        table.waiting,
    ]
}

// A pin view's eight bytes.
pub(crate) fn picture_bytes(picture: Pins) -> [u8; 8]
    ensures { result ≡ picture_bytes picture }
{
    let event = picture.event.to_le_bytes();
    [
        event[0],
        event[1],
        picture.ei,
        picture.eo,
        picture.gint,
        picture.rip,
        picture.pause,
        picture.iack,
    ]
}

// A view's verdict, and its bytes into the first bytes of a buffer: refused where that is too short.
#[tactic(auto, unfolding(crate::specs::Calls::viewed, crate::specs::Calls::called))]
pub(crate) fn put_view(view: &mut [u8], verdict: Verdict, bytes: &[u8]) -> Verdict
    ensures value { verdict_number result ≡ (viewed verdict bytes.now view.old).number }
    ensures view_after { view.new ≡ (viewed verdict bytes.now view.old).buffer }
{
    verdict?;
    if view.len() < bytes.len() {
        return Err(Refusal::ShortResults);
    }
    put_bytes(view, 0, bytes);
    Ok(())
}
