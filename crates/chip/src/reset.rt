// Reset and power-up.
ghost use Rattle.std.specs.Prelude.{◌≡◌};
ghost use Rattle.chip.specs.Reset.{reset, power_up};

use crate::{Chip, Destination};

impl Chip {
    // After a reset the order starts with channel 0.
    pub const POINTER: u8 = 7;
    // Every channel masked.
    pub const MASK: u8 = 255;
    // Every IREQ line high.
    pub const LINES: u8 = 255;

    // The power-up chip: as after reset, with all lines high, the fill in the response memory, and the fill modulo 4 in every count code.
    #[tactic(auto, unfolding(crate::proofs::Rules::chip_fields, crate::specs::Reset::power_up))]
    pub fn power_up(fill: u8) -> Chip
        ensures { result ≡ power_up fill }
    {
        let chip = Chip {
            memory: [fill; 32],
            counts: [fill % 4; 8],
            lines: Chip::LINES,
            ..Chip::zero()
        };
        chip.reset()
    }

    // Reset clears all registers but IMR, which becomes 255; pointer 7, no destination. Memory, counts and lines stay.
    #[tactic(auto, unfolding(crate::proofs::Rules::chip_fields, crate::specs::Reset::reset))]
    pub(crate) fn reset(mut self) -> Chip
        ensures { result ≡ reset self }
    {
        self.irr = 0;
        self.isr = 0;
        self.imr = Chip::MASK;
        self.acr = 0;
        self.mode = 0;
        self.command = 0;
        self.pointer = Chip::POINTER;
        self.with_destination(Destination::Nowhere)
    }
}
