// The pins of a chain, none of them stored: each is worked out from the state. A level is true where it is high.
ghost use Rattle.std.specs.Prelude.{◌≡◌};
ghost use Rattle.chain.specs.Pins.{eo_at, ei, rip, pause};
ghost use Rattle.chain.specs.Walk.{answering_chip, walked_to};

use crate::Chain;
use response::Walk;
use response::along::eo_of;
use response::held::is_idle;

impl Chain {
    // The walk along the chain up to a chip.
    fn walked(self, to: u8) -> Walk
        ensures { result ≡ walked_to self to }
    {
        Walk::along(self.enable, to, self.response, |i| self.chip_at(i))
    }

    // EI of chip 0 is the chain's; EI of another is EO of the chip before.
    #[tactic(auto, unfolding(crate::specs::Walk::walked_to))]
    pub fn ei(self, i: u8) -> bool
        ensures { result ≡ ei self i }
    {
        self.walked(i).ei
    }

    // From chip 0, while EI is high, the first chip with M2 clear and a candidate; the count if no chip answers.
    #[tactic(auto, unfolding(crate::specs::Walk::walked_to, crate::specs::Walk::answering_chip))]
    pub(crate) fn answering_chip(self) -> u8
        ensures { result ≡ answering_chip self }
    {
        self.walked(self.count).answering
    }

    // EO of chip i at a level of its EI.
    pub fn eo_at(self, ei: bool, i: u8) -> bool
        ensures { result ≡ eo_at ei self i }
    {
        eo_of(ei, self.chip_at(i), self.response, i)
    }

    // RIP is low while a response is under way.
    pub fn rip(self) -> bool
        ensures { result ≡ rip self }
    {
        is_idle(self.response)
    }

    // PAUSE is low when IACK is low and no response is under way.
    pub fn pause(self) -> bool
        ensures { result ≡ pause self }
    {
        self.iack | !is_idle(self.response)
    }
}
