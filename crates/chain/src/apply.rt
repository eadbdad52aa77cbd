// What an event looks at in a chain, and a chain with what is decided applied to it: one element of the array is replaced, if one is.
ghost use Rattle.std.specs.Prelude.{◌≡◌};
ghost use Rattle.chain.specs.Apply.{replaced_in, set_in, applied};
ghost use Rattle.chain.specs.Seen.{seen_at, seen_in};

use crate::Chain;
use decide::{Change, Look, Seen};

impl Chain {
    // What an event sees where it looks.
    pub(crate) fn seen(self, look: Look) -> Seen
        ensures { result ≡ seen_in look self }
    {
        match look {
            Look::Nowhere => self.seen_at(self.count, false),
            Look::At(i) => self.seen_at(i, false),
            Look::AtEi(i) => self.seen_at(i, self.ei(i)),
            Look::Answering => self.seen_at(self.answering_chip(), false),
        }
    }

    // The chain's own fields, and a chip with its number and its Enable In.
    #[tactic(auto, unfolding(crate::specs::Seen::seen_at))]
    fn seen_at(self, at: u8, ei: bool) -> Seen
        ensures { result ≡ seen_at at ei self }
    {
        Seen {
            count: self.count,
            enable: self.enable,
            iack: self.iack,
            response: self.response,
            at,
            chip: self.chip_at(at),
            ei,
        }
    }

    // The chip that is replaced, if one is.
    #[tactic(auto, unfolding(crate::specs::Apply::replaced_in))]
    fn replaced(self, change: Change) -> Chain
        ensures { result ≡ replaced_in change self }
    {
        match change.replaced {
            None => self,
            Some(replaced) => self.with_chip(replaced.at, replaced.chip),
        }
    }

    // The chain's own fields, if they are set.
    #[tactic(auto, unfolding(crate::specs::Apply::set_in))]
    fn set(self, change: Change) -> Chain
        ensures { result ≡ set_in change self }
    {
        match change.own {
            None => self,
            Some(own) => self.with_own(own.enable, own.iack, own.response),
        }
    }

    // What is decided.
    #[tactic(auto, unfolding(crate::specs::Apply::applied))]
    pub(crate) fn applied(self, change: Change) -> Chain
        ensures { result ≡ applied change self }
    {
        self.replaced(change).set(change)
    }
}
