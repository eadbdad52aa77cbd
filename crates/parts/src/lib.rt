// The parts of an image read and replaced where they lie: a chip, the levels, the response, the event number; the walk along the chain; and what is decided applied to them.
// Each function asks for an image; is_image has told, and each leaves one.
// A clause and no type with that invariant: C lends the image. A record of the lent buffer proves as well, but each function would have to promise besides that it still holds the same one.
#![tactic(auto)]

pub mod apply;
pub mod places;
