// The chain in an image.
ghost use Rattle.std.specs.Prelude.{◌≡◌, ◌+◌, ◌*◌, ◌≤◌, length, take, drop};
ghost use Rattle.image.specs.Reading.{destination_in, chip_in, chips_in, response_in, chain_in};

use crate::places::{
    COUNT, ENABLE, EVENT_HIGH, EVENT_LOW, IACK, RESPONSE, RESPONSE_CHANNEL, RESPONSE_CHIP,
    RESPONSE_DELIVERED, RESPONSE_LENGTH, RESPONSE_LEVEL, record_at,
};
use chain::Chain;
use chip::{Chip, Destination};
use response::{Reply, Response};
use std::array;

// The destination that three bytes of a record name.
fn destination_in(kind: u8, level: u8, place: u8) -> Destination
    ensures { result ≡ destination_in kind level place }
{
    match kind {
        1 => Destination::Imr,
        2 => Destination::Acr,
        3 => Destination::Level(level, place),
        _ => Destination::Nowhere,
    }
}

// So many bytes of a record, from a place on.
fn bytes_in<const N: usize>(r: &[u8], at: usize) -> [u8; N]
    requires { at + N ≤ length r.now }
    ensures { result ≡ take N (drop at r.now) }
{
    let mut bytes = [0; N];
    bytes.copy_from_slice(&r[at..at + N]);
    bytes
}

// The chip whose record begins here.
#[tactic(auto, unfolding(crate::specs::Reading::chip_in))]
pub fn chip_in(r: &[u8]) -> Chip
    requires { 64 ≤ length r.now }
    ensures { result ≡ chip_in r.now }
{
    Chip {
        irr: r[0],
        isr: r[1],
        imr: r[2],
        acr: r[3],
        mode: r[4],
        command: r[5],
        memory: bytes_in(r, 32),
        counts: bytes_in(r, 16),
        lines: r[6],
        pointer: r[7],
        destination: destination_in(r[8], r[9], r[10]),
    }
}

// The response that the head names.
#[tactic(auto, unfolding(crate::specs::Reading::response_in))]
pub fn response_in(image: &[u8]) -> Response
    requires { 16 ≤ length image.now }
    ensures { result ≡ response_in image.now }
{
    (image[RESPONSE] == 1).then_some(Reply {
        chip: image[RESPONSE_CHIP],
        channel: image[RESPONSE_CHANNEL],
        level: image[RESPONSE_LEVEL],
        length: image[RESPONSE_LENGTH],
        delivered: image[RESPONSE_DELIVERED],
    })
}

// The event number: its low byte first.
pub fn event_of(low: u8, high: u8) -> u16
    ensures { result ≡ low + 256 * high }
{
    u16::from_le_bytes([low, high])
}

// The eight chips of an image.
fn chips_in(image: &[u8]) -> [Chip; 8]
    requires { length image.now ≡ 528 }
    ensures { result ≡ chips_in 8 (drop 16 image.now) }
{
    array::from_fn(|i| chip_in(record_at(image, i)))
}

// The chain of an image.
#[tactic(auto, unfolding(crate::specs::Reading::chain_in))]
pub fn chain_in(image: &[u8]) -> Chain
    requires { length image.now ≡ 528 }
    ensures { result ≡ chain_in image.now }
{
    Chain {
        count: image[COUNT],
        chips: chips_in(image),
        enable: image[ENABLE] == 1,
        iack: image[IACK] == 1,
        response: response_in(image),
        event: event_of(image[EVENT_LOW], image[EVENT_HIGH]),
    }
}
