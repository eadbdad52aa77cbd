// What an acknowledge does inside the chip that answers.
ghost use Rattle.std.specs.Prelude.{true, ◌≡◌, ◌<◌};
ghost use Rattle.chip.specs.Acknowledge.{answered, response_level, response_length, response_byte, finished};
ghost use Rattle.chip.specs.Sound.{chip_sound};

use crate::Chip;
use crate::data::memory_place;

impl Chip {
    // The chip answers a channel: its IRR bit clears, its ISR bit sets, the pointer becomes the channel.
    #[tactic(auto, unfolding(crate::proofs::Rules::chip_fields, crate::specs::Acknowledge::answered))]
    pub fn fall(mut self, channel: u8) -> Chip
        ensures { result ≡ answered channel self }
    {
        self.irr = bits::without_bit(self.irr, channel);
        self.isr = bits::with_bit(self.isr, channel);
        self.pointer = channel;
        self
    }

    // The level of the response to a channel: 0 in common vector mode (M1).
    pub fn response_level(self, channel: u8) -> u8
        ensures { result ≡ response_level self channel }
    {
        if bits::is_set(self.mode, 1) {
            0
        } else {
            channel
        }
    }

    // Its length: the byte count of the answered channel.
    pub fn response_length(self, channel: u8) -> u8
        requires sound_chip { chip_sound self ≡ true }
        requires channel_bound { channel < 8 }
        ensures { result ≡ response_length self channel }
    {
        self.byte_count(channel)
    }

    // The byte that the chip drives at a pulse; what lies past the memory is 0.
    pub fn response_byte(self, level: u8, place: u8) -> u8
        ensures { result ≡ response_byte self level place }
    {
        self.memory
            .get(memory_place(level, place))
            .copied()
            .unwrap_or(0)
    }

    // The response of a channel is over: its ISR bit clears if its ACR bit is then set.
    #[tactic(auto, unfolding(crate::proofs::Rules::chip_fields, crate::specs::Acknowledge::finished))]
    pub fn rise(mut self, channel: u8) -> Chip
        ensures { result ≡ finished channel self }
    {
        if bits::is_set(self.acr, channel) {
            self.isr = bits::without_bit(self.isr, channel);
        }
        self
    }
}
