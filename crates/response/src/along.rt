// The walk along the chain: EI and EO from chip to chip, and who answers. One rule, over what it needs of each chip, for whoever holds the chips, in whatever form.
ghost use Rattle.std.specs.Prelude.{ℕ, ◌≡◌, ◌<◌};
ghost use Rattle.response.specs.Walk.{eo_of, along, past, answers_first};

use crate::held::is_responding;
use crate::{Response, Walk};
use chip::Chip;

// EO of chip i at a level of its EI, with a response: low if EI is low, if M7 is clear, or if the chip is responding.
pub fn eo_of(ei: bool, chip: Chip, response: Response, i: u8) -> bool
    ensures { result ≡ eo_of ei chip response i }
{
    ei & chip.is_armed() & !is_responding(response, i)
}

impl Walk {
    // Up to a chip, past each chip before it, in turn.
    pub fn along<F: Fn(u8) -> Chip>(enable: bool, to: u8, response: Response, chip_at: F) -> Walk
        requires { F.IsAlwaysCallable chip_at }
        ensures { (chips : ℕ → _) → ((i : ℕ) (c : _) → i < to → F.post chip_at i c → c ≡ chips i) → result ≡ along enable chips response to }
    {
        let mut walk = Walk::at_first(enable);
        for i in 0..to {
            walk = walk.past(chip_at(i), response);
        }
        walk
    }

    // Before chip 0, whose EI is the chain's.
    pub fn at_first(enable: bool) -> Walk
        ensures { result ≡ record { at = 0; ei = enable; answering = 0 } }
    {
        Walk {
            at: 0,
            ei: enable,
            answering: 0,
        }
    }

    // Past the next chip.
    #[tactic(auto, unfolding(crate::specs::Walk::past))]
    pub fn past(self, chip: Chip, response: Response) -> Walk
        requires { self.at < 255 }
        ensures { result ≡ past chip response self }
    {
        Walk {
            at: self.at + 1,
            ei: eo_of(self.ei, chip, response, self.at),
            answering: self.answers_first(chip),
        }
    }

    // The first chip that answers, the next one included: while EI is high, a chip with M2 clear and a candidate. (Who has been found, or has EI low, is not asked.)
    fn answers_first(self, chip: Chip) -> u8
        requires { self.at < 255 }
        ensures { result ≡ answers_first chip self }
    {
        if self.answering < self.at {
            return self.answering;
        }
        if self.ei && chip.gint_active() {
            self.at
        } else {
            self.at + 1
        }
    }
}
