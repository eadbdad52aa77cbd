// Which bytes are of an image's form. Who asks has seen that they are long enough.
ghost use Rattle.std.specs.Prelude.{◌≡◌, ◌≤◌, length};
ghost use Rattle.image.specs.Reading.{is_zero, response_form, destination_form, head_form, record_form, records_form};

use crate::places::{ENABLE, IACK, record_at};

// Whether bytes are all zero.
fn is_zero(bytes: &[u8]) -> bool
    ensures { result ≡ is_zero bytes.now }
{
    bytes.iter().all(|byte| *byte == 0)
}

// Whether six bytes are a response.
fn is_response(b: &[u8]) -> bool
    requires { length b.now ≡ 6 }
    ensures { result ≡ response_form b.now }
{
    b[0] == 1 || is_zero(b)
}

// Whether three bytes are a destination.
fn is_destination(b: &[u8]) -> bool
    requires { length b.now ≡ 3 }
    ensures { result ≡ destination_form b.now }
{
    b[0] == 3 || b[0] <= 2 && is_zero(&b[1..])
}

// Whether the head is of the form. Its byte 3 needs no test here: it is a byte.
#[tactic(auto, unfolding(crate::specs::Reading::head_form))]
pub(crate) fn is_head(image: &[u8]) -> bool
    requires { 16 ≤ length image.now }
    ensures { result ≡ head_form image.now }
{
    image[ENABLE] <= 1 && image[IACK] <= 1 && is_response(&image[5..11]) && is_zero(&image[11..16])
}

// Whether a chip record is of the form.
#[tactic(auto, unfolding(crate::specs::Reading::record_form))]
fn is_record(r: &[u8]) -> bool
    requires { 64 ≤ length r.now }
    ensures { result ≡ record_form r.now }
{
    is_destination(&r[8..11]) && is_zero(&r[11..16]) && is_zero(&r[24..32])
}

// Whether each chip record is.
pub(crate) fn has_records(image: &[u8]) -> bool
    requires { length image.now ≡ 528 }
    ensures { result ≡ records_form image.now }
{
    (0..8).all(|i| is_record(record_at(image, i)))
}
