// The image of a chain.
ghost use Rattle.std.specs.Prelude.{◌≡◌, ◌+◌, ◌≤◌, length};
ghost use Rattle.image.specs.Layout.{destination_bytes, register_bytes, chip_record, response_bytes, head, image_of, over};

use crate::places::{RECORD, RECORDS};
use chain::Chain;
use chip::{Chip, Destination};
use response::Response;

// Bytes written over those from a place on.
pub fn put_bytes(to: &mut [u8], at: usize, from: &[u8])
    requires { at + length from.now ≤ length to.old }
    ensures { to.new ≡ over to.old at from.now }
{
    to[at..at + from.len()].copy_from_slice(from);
}

// A destination's three bytes.
fn destination_bytes(destination: Destination) -> [u8; 3]
    ensures { result ≡ destination_bytes destination }
{
    match destination {
        Destination::Nowhere => [0, 0, 0],
        Destination::Imr => [1, 0, 0],
        Destination::Acr => [2, 0, 0],
        Destination::Level(level, place) => [3, level, place],
    }
}

// Bytes 0 to 15 of a chip record.
fn register_bytes(chip: Chip) -> [u8; 16]
    ensures { result ≡ register_bytes chip }
{
    let [kind, level, place] = destination_bytes(chip.destination);
    [
        chip.irr,
        chip.isr,
        chip.imr,
        chip.acr,
        chip.mode,
        chip.command,
        chip.lines,
        chip.pointer,
        kind,
        level,
        place,
        0,
        0,
        0,
        0,
        0,
    ]
}

// A chip record.
#[tactic(auto, using(crate::proofs::Records::record_written))]
pub fn put_chip(r: &mut [u8], chip: Chip)
    requires { length r.old ≡ 64 }
    ensures { r.new ≡ chip_record chip }
{
    put_bytes(r, 0, &register_bytes(chip));
    put_bytes(r, 16, &chip.counts);
    put_bytes(r, 24, &[0; 8]);
    put_bytes(r, 32, &chip.memory);
}

// A response's six bytes.
pub fn response_bytes(response: Response) -> [u8; 6]
    ensures { result ≡ response_bytes response }
{
    match response {
        None => [0; 6],
        Some(r) => [1, r.chip, r.channel, r.level, r.length, r.delivered],
    }
}

// The head.
#[tactic(auto, unfolding(crate::specs::Layout::head))]
fn head_of(chain: Chain) -> [u8; 16]
    ensures { result ≡ head chain }
{
    let event = chain.event.to_le_bytes();
    let response = response_bytes(chain.response);
    [
        chain.count,
        bits::digit_of(chain.enable),
        bits::digit_of(chain.iack),
        event[0],
        event[1],
        response[0],
        response[1],
        response[2],
        response[3],
        response[4],
        response[5],
        0,
        0,
        0,
        0,
        0,
    ]
}

// The whole image.
#[tactic(auto, using(crate::proofs::Records::written_head, crate::proofs::Records::written_more))]
pub fn put_chain(image: &mut [u8], chain: Chain)
    requires { length image.old ≡ 528 }
    ensures { image.new ≡ image_of chain }
{
    put_bytes(image, 0, &head_of(chain));
    for (i, chip) in chain.chips.iter().enumerate() {
        let at = RECORDS + RECORD * i;
        put_chip(&mut image[at..at + RECORD], *chip);
    }
}
