// A bench case under way: one chain, and whether every step so far went as the paper says. For the program `cases`; it promises nothing but to end.
#![tactic(auto)]

use chain::{Chain, Outcome};
use refusal::{Answer, answers, is_accepted};
use views::{Pins, Registers, pin_view, register_view};

#[derive(Clone, Copy)]
pub struct Bench {
    pub chain: Chain,
    pub held: bool,
}

impl Bench {
    // A start, which must be accepted.
    pub fn start(count: u8, fill: u8) -> Bench {
        let Outcome { answer, chain } = Chain::start(count, fill);
        Bench {
            chain,
            held: answer.is_ok(),
        }
    }

    // The step after this outcome, which must have this answer.
    fn gives(self, outcome: Outcome, answer: Answer) -> Bench {
        Bench {
            chain: outcome.chain,
            held: self.held && outcome.answer == answer,
        }
    }

    // The step after this outcome, refused by this number: the paper's cases name refusals by their numbers.
    fn refused(self, outcome: Outcome, number: u8) -> Bench {
        Bench {
            chain: outcome.chain,
            held: self.held && answers::number(outcome.answer) == number,
        }
    }

    // The events of the cases, each with what it must give.
    pub fn command(self, chip: u8, code: u8) -> Bench {
        self.gives(self.chain.command(chip, code), Ok(None))
    }

    pub fn command_refused(self, chip: u8, code: u8, number: u8) -> Bench {
        self.refused(self.chain.command(chip, code), number)
    }

    pub fn data(self, chip: u8, byte: u8) -> Bench {
        self.gives(self.chain.data(chip, byte), Ok(None))
    }

    pub fn data_refused(self, chip: u8, byte: u8, number: u8) -> Bench {
        self.refused(self.chain.data(chip, byte), number)
    }

    pub fn status(self, chip: u8, byte: u8) -> Bench {
        self.gives(self.chain.status(chip), Ok(Some(byte)))
    }

    pub fn read(self, chip: u8, byte: u8) -> Bench {
        self.gives(self.chain.read(chip), Ok(Some(byte)))
    }

    pub fn line(self, chip: u8, channel: u8, level: u8) -> Bench {
        self.gives(self.chain.line(chip, channel, level), Ok(None))
    }

    pub fn line_refused(self, chip: u8, channel: u8, level: u8, number: u8) -> Bench {
        self.refused(self.chain.line(chip, channel, level), number)
    }

    pub fn enable(self, level: u8) -> Bench {
        self.gives(self.chain.enable(level), Ok(None))
    }

    pub fn fall(self, byte: u8) -> Bench {
        self.gives(self.chain.fall(), Ok(Some(byte)))
    }

    pub fn fall_stalls(self) -> Bench {
        self.gives(self.chain.fall(), Ok(None))
    }

    pub fn fall_refused(self, number: u8) -> Bench {
        self.refused(self.chain.fall(), number)
    }

    pub fn rise(self) -> Bench {
        self.gives(self.chain.rise(), Ok(None))
    }

    // A field of a view has this value. A view that is refused shows nothing.
    pub fn irr(self, chip: u8, value: u8) -> Bench {
        self.tabled(chip, |table| table.irr == value)
    }

    pub fn isr(self, chip: u8, value: u8) -> Bench {
        self.tabled(chip, |table| table.isr == value)
    }

    pub fn imr(self, chip: u8, value: u8) -> Bench {
        self.tabled(chip, |table| table.imr == value)
    }

    pub fn gint(self, chip: u8, value: u8) -> Bench {
        self.pictured(chip, |picture| picture.gint == value)
    }

    pub fn ei(self, chip: u8, value: u8) -> Bench {
        self.pictured(chip, |picture| picture.ei == value)
    }

    pub fn pause(self, value: u8) -> Bench {
        self.pictured(0, |picture| picture.pause == value)
    }

    fn tabled<F: FnOnce(Registers) -> bool>(self, chip: u8, so: F) -> Bench
        requires { F.IsAlwaysCallable so }
    {
        let view = register_view(self.chain, chip);
        self.shows(is_accepted(view.verdict) && so(view.table))
    }

    fn pictured<F: FnOnce(Pins) -> bool>(self, chip: u8, so: F) -> Bench
        requires { F.IsAlwaysCallable so }
    {
        let view = pin_view(self.chain, chip);
        self.shows(is_accepted(view.verdict) && so(view.picture))
    }

    fn shows(mut self, so: bool) -> Bench {
        self.held &= so;
        self
    }

    // The event number is 65,535.
    pub fn at_65535(mut self) -> Bench {
        self.chain.event = 65535;
        self
    }

    // The event number has rolled over to 0.
    pub fn rolled_over(self) -> bool {
        self.held && self.chain.event == 0
    }
}
