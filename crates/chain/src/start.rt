// Start: a chip count and a fill byte.
ghost use Rattle.std.specs.Prelude.{◌≡◌};
ghost use Rattle.chain.specs.Start.{started, start_of};

use crate::sound::is_count;
use crate::{Chain, Outcome};
use chip::Chip;
use refusal::Refusal;

impl Chain {
    // The chain at the start, or the all-zero chain and refusal 1 where the count is outside 1 to 8.
    #[tactic(auto, unfolding(crate::specs::Start::start_of))]
    pub fn start(count: u8, fill: u8) -> Outcome
        ensures { result ≡ start_of count fill }
    {
        if is_count(count) {
            Outcome {
                answer: Ok(None),
                chain: Chain::started(count, fill),
            }
        } else {
            Outcome {
                answer: Err(Refusal::NotSound),
                chain: Chain::zero(),
            }
        }
    }

    // All eight records are the power-up chip; EI and IACK high, event number 0, no response.
    #[tactic(auto, unfolding(crate::specs::Start::started))]
    fn started(count: u8, fill: u8) -> Chain
        ensures { result ≡ started count fill }
    {
        Chain {
            count,
            chips: [Chip::power_up(fill); 8],
            enable: true,
            iack: true,
            response: None,
            event: 0,
        }
    }
}
