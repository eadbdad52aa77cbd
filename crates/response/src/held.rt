// What is held of a response: its beginning, one byte more, and what ends it.
ghost use Rattle.std.specs.Prelude.{true, ◌≡◌, ◌<◌};
ghost use Rattle.chip.specs.Sound.{chip_sound};
ghost use Rattle.response.specs.Held.{reply_of, one_more, is_idle, is_responding, ends_response};

use crate::{Reply, Response};
use chip::Chip;
use figure4::is_reset;
use search::channel_of;

impl Reply {
    // The response of chip i for its candidate, before its first byte: level and length are held from here on.
    #[tactic(auto, using(search::proofs::Order::candidate_lt))]
    pub fn of(i: u8, chip: Chip) -> Reply
        requires { chip_sound chip ≡ true }
        ensures { result ≡ reply_of i chip }
    {
        let channel = channel_of(chip.candidate());
        Reply {
            chip: i,
            channel,
            level: chip.response_level(channel),
            length: chip.response_length(channel),
            delivered: 0,
        }
    }

    // The response with one byte more delivered.
    pub fn one_more(mut self) -> Reply
        requires { self.delivered < 255 }
        ensures { result ≡ one_more self }
    {
        self.delivered += 1;
        self
    }
}

// Whether no response is under way.
pub fn is_idle(response: Response) -> bool
    ensures { result ≡ is_idle response }
{
    response.is_none()
}

// Whether chip i is responding.
pub(crate) fn is_responding(response: Response, i: u8) -> bool
    ensures { result ≡ is_responding response i }
{
    match response {
        None => false,
        Some(reply) => reply.chip == i,
    }
}

// Whether a command to chip i ends the response: a reset of the responding chip does.
pub fn ends_response(i: u8, code: u8, response: Response) -> bool
    ensures { result ≡ ends_response i code response }
{
    is_reset(code) & is_responding(response, i)
}
