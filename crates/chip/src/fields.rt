// A chip with its destination replaced, and the chip that is all zero.
ghost use Rattle.std.specs.Prelude.{◌≡◌};
ghost use Rattle.chip.specs.Fields.{with_destination, zero_chip};

use crate::{Chip, Destination};

impl Chip {
    // The chip of a refused start: all zero, without destination.
    #[tactic(auto, unfolding(crate::proofs::Rules::chip_fields))]
    pub fn zero() -> Chip
        ensures { result ≡ zero_chip }
    {
        Chip {
            irr: 0,
            isr: 0,
            imr: 0,
            acr: 0,
            mode: 0,
            command: 0,
            memory: [0; 32],
            counts: [0; 8],
            lines: 0,
            pointer: 0,
            destination: Destination::Nowhere,
        }
    }

    // The chip with another destination.
    #[tactic(auto, unfolding(crate::proofs::Rules::chip_fields))]
    pub(crate) fn with_destination(mut self, destination: Destination) -> Chip
        ensures { result ≡ with_destination destination self }
    {
        self.destination = destination;
        self
    }
}
