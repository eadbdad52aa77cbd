// What a chip's registers say: candidate, status byte, GINT, waiting number.
ghost use Rattle.std.specs.Prelude.{◌≡◌};
ghost use Rattle.chip.specs.Status.{is_armed, is_polled, is_rotating, candidate_of, status_byte, gint_active, gint_pin, waiting_number};

use crate::Chip;
use search::exists;

impl Chip {
    // M7.
    pub fn is_armed(self) -> bool
        ensures { result ≡ is_armed self }
    {
        bits::is_set(self.mode, 7)
    }

    // M2.
    pub(crate) fn is_polled(self) -> bool
        ensures { result ≡ is_polled self }
    {
        bits::is_set(self.mode, 2)
    }

    // M0.
    pub(crate) fn is_rotating(self) -> bool
        ensures { result ≡ is_rotating self }
    {
        bits::is_set(self.mode, 0)
    }

    // The candidate: the status byte, GINT and the acknowledge all take this one.
    pub fn candidate(self) -> Option<u8>
        ensures { result ≡ candidate_of self }
    {
        search::candidate_of(self.irr, self.imr, self.isr, self.mode, self.pointer)
    }

    // The status byte where the chip's EI is at a level.
    #[tactic(auto, using(search::proofs::Order::unwrapped_lt))]
    pub fn status(self, ei: bool) -> u8
        ensures { result ≡ status_byte self ei }
    {
        let candidate = self.candidate();
        candidate.unwrap_or(0)
            + 8 * u8::from(self.is_armed())
            + 16 * u8::from(self.is_polled())
            + 32 * u8::from(self.is_rotating())
            + 64 * u8::from(ei)
            + 128 * u8::from(exists(candidate))
    }

    // GINT is active if M2 is clear and a candidate exists.
    pub fn gint_active(self) -> bool
        ensures { result ≡ gint_active self }
    {
        !self.is_polled() && exists(self.candidate())
    }

    // Its pin, by M3: 1 or 0 where GINT is active high; 0 or 2, released, where it is active low.
    // A number and no enum: it stands as it is in the picture of a chip that C takes (am9519a_pins).
    pub fn gint(self) -> u8
        ensures { result ≡ gint_pin self.mode (gint_active self) }
    {
        match (bits::is_set(self.mode, 3), self.gint_active()) {
            (true, active) => u8::from(active),
            (false, true) => 0,
            (false, false) => 2,
        }
    }

    // The number of ones in IRR that are clear in IMR.
    pub fn waiting(self) -> u8
        ensures { result ≡ waiting_number self }
    {
        bits::waiting_number(self.irr, self.imr)
    }
}
