// Whether a chain's record is sound.
ghost use Rattle.std.specs.Prelude.{◌≡◌};
ghost use Rattle.chain.specs.Sound.{count_sound, chips_sound, sound};

use crate::Chain;

// Whether a chain may have so many chips: 1 to 8.
pub(crate) fn is_count(count: u8) -> bool
    ensures { result ≡ count_sound count }
{
    (1 <= count) & (count <= 8)
}

impl Chain {
    // Whether the chain is sound: count 1 to 8, each chip in the count, and the response.
    #[tactic(auto, unfolding(crate::specs::Sound::sound))]
    pub fn is_sound(self) -> bool
        ensures { result ≡ sound self }
    {
        is_count(self.count)
            && self.has_sound_chips()
                & response::sound::is_sound(self.response, self.count, self.iack)
    }

    // Each chip in the count.
    fn has_sound_chips(self) -> bool
        ensures { result ≡ chips_sound self }
    {
        (0..self.count).all(|i| self.chip_at(i).is_sound())
    }
}
