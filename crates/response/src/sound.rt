// Whether the record of a response is sound, in a chain with so many chips and IACK at a level.
ghost use Rattle.std.specs.Prelude.{◌≡◌};
ghost use Rattle.response.specs.Sound.{delivered_sound, response_sound};

use crate::{Reply, Response};

impl Reply {
    // At least 1 byte delivered, at most the length with IACK low, fewer with IACK high.
    fn is_delivered_soundly(self, iack: bool) -> bool
        ensures { result ≡ delivered_sound iack self }
    {
        if iack {
            (1 <= self.delivered) & (self.delivered < self.length)
        } else {
            (1 <= self.delivered) & (self.delivered <= self.length)
        }
    }
}

// A response names a chip in the count, channel and level at most 7, and has a length of 1 to 4.
pub fn is_sound(response: Response, count: u8, iack: bool) -> bool
    ensures { result ≡ response_sound count iack response }
{
    match response {
        None => true,
        Some(r) => (r.chip < count)
            & (r.channel <= 7)
            & (r.level <= 7)
            & (1 <= r.length)
            & (r.length <= 4)
            & r.is_delivered_soundly(iack),
    }
}
