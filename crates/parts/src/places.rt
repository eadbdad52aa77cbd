// One part of an image read or replaced where it lies: what is written is the image of the chain with that part replaced.
// Each function asks for an image; is_image has told, and each leaves one.
#![tactic(auto, using(image::proofs::OneToOne::image_length))]

ghost use Rattle.std.specs.Prelude.{true, ◌≡◌, ◌<◌, ◌%◌};
ghost use Rattle.chain.specs.Apply.{counted};
ghost use Rattle.chain.specs.Fields.{chip_at, with_chip, with_own};
ghost use Rattle.image.specs.Reading.{chain_in, is_image};

use chip::Chip;
use event::next_number;
use image::places::{ENABLE, EVENT_HIGH, EVENT_LOW, IACK, RECORD, RECORDS, RESPONSE};
use image::reading::{chip_in, event_of};
use image::writing::{put_bytes, put_chip, response_bytes};
use response::Response;

// Chip i; past the eight records, a chip that is all zero.
pub(crate) fn chip_at(image: &[u8], i: u8) -> Chip
    requires { is_image image.now ≡ true }
    ensures { result ≡ chip_at (chain_in image.now) i }
{
    if i >= 8 {
        return Chip::zero();
    }
    chip_round(image, i)
}

// The chip in record i, counted round the eight: for i below 8, chip i. A number from the list is not yet known to be below the count, and this needs no test.
pub(crate) fn chip_round(image: &[u8], i: u8) -> Chip
    requires { is_image image.now ≡ true }
    ensures { result ≡ chip_at (chain_in image.now) (i % 8) }
{
    let at = RECORDS + RECORD * (i % 8) as usize;
    chip_in(&image[at..])
}

// Chip i replaced. Its place is worked out as `chip_round` does, so that the compiler sees the same record, and what is unchanged in it is not written.
pub(crate) fn set_chip(image: &mut [u8], i: u8, chip: Chip)
    requires image_form { is_image image.old ≡ true }
    requires i_bound { i < 8 }
    ensures form_after { is_image image.new ≡ true }
    ensures chain_after { chain_in image.new ≡ with_chip i chip (chain_in image.old) }
{
    let at = RECORDS + RECORD * (i % 8) as usize;
    put_chip(&mut image[at..at + RECORD], chip);
}

// The chain's own fields set: Enable In, IACK and the response.
pub(crate) fn set_own(image: &mut [u8], enable: bool, iack: bool, response: Response)
    requires { is_image image.old ≡ true }
    ensures form_after { is_image image.new ≡ true }
    ensures chain_after { chain_in image.new ≡ with_own enable iack response (chain_in image.old) }
{
    put_bytes(image, RESPONSE, &response_bytes(response));
    image[ENABLE] = bits::digit_of(enable);
    image[IACK] = bits::digit_of(iack);
}

// One more accepted event is counted.
pub fn count_event(image: &mut [u8])
    requires { is_image image.old ≡ true }
    ensures form_after { is_image image.new ≡ true }
    ensures chain_after { chain_in image.new ≡ counted (chain_in image.old) }
{
    let event = next_number(event_of(image[EVENT_LOW], image[EVENT_HIGH])).to_le_bytes();
    image[EVENT_LOW] = event[0];
    image[EVENT_HIGH] = event[1];
}
