// Where the parts of an image begin: in the head the count, Enable In, IACK, the event number's two bytes and the response; then the chip
// records, and how long each is.
ghost use Rattle.std.specs.Prelude.{◌≡◌, ◌+◌, ◌*◌, ◌<◌, ◌≤◌, length, drop};

pub const COUNT: usize = 0;

pub const ENABLE: usize = 1;

pub const IACK: usize = 2;

pub const EVENT_LOW: usize = 3;

pub const EVENT_HIGH: usize = 4;

pub const RESPONSE: usize = 5;

pub const RESPONSE_CHIP: usize = 6;

pub const RESPONSE_CHANNEL: usize = 7;

pub const RESPONSE_LEVEL: usize = 8;

pub const RESPONSE_LENGTH: usize = 9;

pub const RESPONSE_DELIVERED: usize = 10;

pub const RECORDS: usize = 16;

pub const RECORD: usize = 64;

// What begins with chip record i.
pub(crate) fn record_at(image: &[u8], i: usize) -> &[u8]
    requires image_length { length image.now ≡ 528 }
    requires i_bound { i < 8 }
    ensures value { result.now ≡ drop (16 + 64 * i) image.now }
    ensures whole { 64 ≤ length result.now }
{
    &image[RECORDS + RECORD * i..]
}
