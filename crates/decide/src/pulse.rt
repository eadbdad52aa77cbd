// The acknowledge pulse: which byte is driven, who is answered, and the end of a response.
ghost use Rattle.std.specs.Prelude.{true, ◌≡◌, ◌<◌, eqb};
ghost use Rattle.event.specs.declared.Event.TheVariants.{Fall, Rise};
ghost use Rattle.decide.specs.Decided.{decided};
ghost use Rattle.decide.specs.Pulse.{selected_by, driving, first_pulse, risen_after};
ghost use Rattle.decide.specs.Sound.{seen_sound};

use crate::{Change, Seen};
use response::{Reply, Response};

impl Seen {
    // What a first pulse selects: the candidate of the chip that answers, or nothing, and the pulse stalls.
    #[tactic(auto, unfolding(crate::specs::Pulse::selected_by), using(crate::proofs::Soundness::seen_chip))]
    fn selected(self) -> Response
        requires { seen_sound self ≡ true }
        ensures { result ≡ selected_by self }
    {
        if self.at >= self.count {
            return None;
        }
        Some(Reply::of(self.at, self.chip))
    }

    // IACK is low, and the responding chip drives the next byte, read from its memory now.
    #[tactic(auto, unfolding(crate::specs::Pulse::driving))]
    fn driving(self, reply: Reply) -> Change
        requires { reply.delivered < 4 }
        ensures { result ≡ driving reply self }
    {
        let byte = self.chip.response_byte(reply.level, reply.delivered);
        Change::nothing()
            .setting(self.enable, false, Some(reply.one_more()))
            .answering(Ok(Some(byte)))
    }

    // The selected chip answers its channel and drives the first byte.
    #[tactic(auto, unfolding(crate::specs::Pulse::first_pulse))]
    fn answer(self, reply: Reply) -> Change
        requires { reply.delivered < 4 }
        ensures { result ≡ first_pulse (Some reply) self }
    {
        self.driving(reply)
            .replacing(self.at, self.chip.fall(reply.channel))
    }

    // A first pulse: the selected chip answers, or the pulse stalls: accepted, no byte.
    #[tactic(auto, unfolding(crate::specs::Pulse::first_pulse))]
    fn first_pulse(self) -> Change
        requires { seen_sound self ≡ true }
        ensures { result ≡ first_pulse (selected_by self) self }
    {
        match self.selected() {
            None => Change::nothing().setting(self.enable, false, None),
            Some(reply) => self.answer(reply),
        }
    }

    // IACK falls: with a response under way its chip drives the next byte; otherwise it is a first pulse.
    #[tactic(auto, unfolding(crate::specs::Decided::decided, crate::specs::Pulse::fallen))]
    pub fn fall(self) -> Change
        requires sound_seen { seen_sound self ≡ true }
        requires iack_high { self.iack ≡ true }
        ensures { result ≡ decided Fall self }
    {
        match self.response {
            None => self.first_pulse(),
            Some(reply) => self.driving(reply),
        }
    }

    // After the last byte the response ends, and the ISR bit of its channel clears if its ACR bit is then set.
    #[tactic(auto, unfolding(crate::specs::Pulse::risen_after))]
    fn risen_after(self, reply: Reply) -> Change
        ensures { result ≡ risen_after (eqb reply.delivered reply.length) reply self }
    {
        if reply.delivered != reply.length {
            return Change::nothing().setting(self.enable, true, Some(reply));
        }
        Change::nothing()
            .setting(self.enable, true, None)
            .replacing(self.at, self.chip.rise(reply.channel))
    }

    // IACK rises: after a stall nothing more changes.
    #[tactic(auto, unfolding(crate::specs::Decided::decided, crate::specs::Pulse::risen))]
    pub fn rise(self) -> Change
        ensures { result ≡ decided Rise self }
    {
        match self.response {
            None => Change::nothing().setting(self.enable, true, None),
            Some(reply) => self.risen_after(reply),
        }
    }
}
