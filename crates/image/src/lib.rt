// The chain image: a chain as 528 bytes that a caller owns and lends, as C can hold it. Reading it, writing it, and which bytes are one.
// What asks for a length is for whoever has seen that; `is_image` takes any bytes.
// Slices and no arrays: a caller in C lends as many bytes as it likes, and whoever has asked `is_image` knows the length with the form.
#![tactic(auto)]

mod form;
pub mod places;
pub mod reading;
pub mod writing;

ghost use Rattle.std.specs.Prelude.{◌≡◌};
ghost use Rattle.image.specs.Reading.{is_image};

use crate::form::{has_records, is_head};

// The bytes of an image.
pub const LENGTH: usize = 528;

// Whether bytes are an image: 528 of them, and of the form.
#[tactic(auto, unfolding(crate::specs::Reading::is_image))]
pub fn is_image(image: &[u8]) -> bool
    ensures { result ≡ is_image image.now }
{
    image.len() == LENGTH && is_head(image) && has_records(image)
}
