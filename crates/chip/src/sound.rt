// Whether a chip's record is sound.
// A test and no invariant of the type: C lends chains whose records need not be sound, and every event reads them to refuse by 1. So
// `byte_count`, `response_length` and `data` each require `chip_sound`.
ghost use Rattle.std.specs.Prelude.{◌≡◌};
ghost use Rattle.chip.specs.Sound.{chip_sound, destination_sound, codes_sound};

use crate::{Chip, Destination};

impl Destination {
    // The chosen level at most 7, its place at most 4.
    pub(crate) fn is_sound(self) -> bool
        ensures { result ≡ destination_sound self }
    {
        match self {
            Destination::Nowhere | Destination::Imr | Destination::Acr => true,
            Destination::Level(level, place) => level <= 7 && place <= 4,
        }
    }
}

impl Chip {
    // Codes at most 3, pointer at most 7, and the destination.
    #[tactic(auto, unfolding(crate::specs::Sound::chip_sound))]
    pub fn is_sound(self) -> bool
        ensures { result ≡ chip_sound self }
    {
        self.has_sound_codes() && self.pointer <= 7 && self.destination.is_sound()
    }

    // Each of the eight codes is at most 3.
    #[tactic(auto, unfolding(crate::specs::Sound::codes_sound))]
    fn has_sound_codes(self) -> bool
        ensures { result ≡ codes_sound self.counts }
    {
        self.counts.iter().all(|code| *code <= 3)
    }
}
