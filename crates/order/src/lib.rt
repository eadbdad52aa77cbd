// An order of a chip's eight channels, and the first set channel of a byte in it.
// An order is known by the channel that ends it. No call asks anything of its caller: that channel counts modulo 8.
#![tactic(auto)]

ghost use Rattle.std.specs.Prelude.{◌≡◌};
ghost use Rattle.order.specs.Order.{channel_at, first_channel};

// The channel at a place of the order that ends with `last`.
fn channel_at(last: u8, place: u8) -> u8
    ensures { result ≡ channel_at last place }
{
    (last % 8 + 1 + place % 8) % 8
}

// The first channel set in `x`, in the order that ends with `last`; an empty byte has none.
#[tactic(auto, using(crate::proofs::Turned::first_turned))]
pub fn first_channel(last: u8, x: u8) -> Option<u8>
    ensures { result ≡ first_channel last x }
{
    if x == 0 {
        return None;
    }
    // The byte twice over, from the channel that starts the order: bit n of that is the channel at place n.
    let twice = u16::from(x) * 257;
    let turned = twice >> channel_at(last, 0);
    Some(channel_at(last, turned.trailing_zeros() as u8))
}
