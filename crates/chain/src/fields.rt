// A chain with one of its parts replaced.
ghost use Rattle.std.specs.Prelude.{◌≡◌};
ghost use Rattle.chain.specs.Apply.{counted};
ghost use Rattle.chain.specs.Events.{accepted, refused};
ghost use Rattle.chain.specs.Fields.{chip_at, with_chip, with_own, zero_chain};

use crate::{Chain, Outcome};
use chip::Chip;
use decide::Change;
use event::next_number;
use refusal::Refusal;
use response::Response;

impl Chain {
    // The chain of a refused start: count 0, all zero, without destination or response.
    #[tactic(auto, unfolding(crate::specs::Fields::zero_chain))]
    pub(crate) fn zero() -> Chain
        ensures { result ≡ zero_chain }
    {
        Chain {
            count: 0,
            chips: [Chip::zero(); 8],
            enable: false,
            iack: false,
            response: None,
            event: 0,
        }
    }

    // Chip i; past the eight records, a chip that is all zero.
    #[tactic(auto, unfolding(crate::specs::Fields::chip_at))]
    pub fn chip_at(self, i: u8) -> Chip
        ensures { result ≡ chip_at self i }
    {
        match self.chips.get(i as usize) {
            None => Chip::zero(),
            Some(chip) => *chip,
        }
    }

    // The chain with chip i replaced; past the eight records nothing is.
    #[tactic(auto, unfolding(crate::specs::Fields::with_chip, crate::specs::Fields::with_chips), using(std::proofs::lemmas::List::set_past))]
    pub(crate) fn with_chip(mut self, i: u8, chip: Chip) -> Chain
        ensures { result ≡ with_chip i chip self }
    {
        if i < 8 {
            self.chips[i as usize] = chip;
        }
        self
    }

    // The chain with its own fields set: Enable In, IACK and the response.
    #[tactic(auto, unfolding(crate::specs::Fields::with_own))]
    pub(crate) fn with_own(mut self, enable: bool, iack: bool, response: Response) -> Chain
        ensures { result ≡ with_own enable iack response self }
    {
        self.enable = enable;
        self.iack = iack;
        self.response = response;
        self
    }

    // The chain with one more accepted event counted.
    #[tactic(auto, unfolding(crate::specs::Apply::counted, crate::specs::Fields::with_event))]
    pub(crate) fn counted(mut self) -> Chain
        ensures { result ≡ counted self }
    {
        self.event = next_number(self.event);
        self
    }

    // What an accepted event hands back: its answer, and the chain with what it does applied and counted.
    #[tactic(auto, unfolding(crate::specs::Events::accepted))]
    pub(crate) fn accepted(self, change: Change) -> Outcome
        ensures { result ≡ accepted change self }
    {
        Outcome {
            answer: change.answer,
            chain: self.applied(change).counted(),
        }
    }

    // What a refused event hands back: the chain as given.
    #[tactic(auto, unfolding(crate::specs::Events::refused))]
    pub(crate) fn refused(self, why: Refusal) -> Outcome
        ensures { result ≡ refused why self }
    {
        Outcome {
            answer: Err(why),
            chain: self,
        }
    }
}
