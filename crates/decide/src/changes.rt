// What each event does, once it is accepted.
ghost use Rattle.std.specs.Prelude.{true, ◌≡◌};
ghost use Rattle.chip.specs.Sound.{chip_sound};
ghost use Rattle.event.specs.declared.Event.TheVariants.{Command, Data, Status, Read, Line, Enable};
ghost use Rattle.decide.specs.Change.{nothing, answering, replacing, setting};
ghost use Rattle.decide.specs.Decided.{decided};
ghost use Rattle.decide.specs.Refusals.{verdict_on};
ghost use Rattle.decide.specs.Sound.{seen_sound};

use crate::{Change, Own, Replaced, Seen};
use chip::Chip;
use event::Event;
use refusal::Answer;
use response::Response;
use response::held::ends_response;

impl Change {
    // Nothing changes, and no byte is driven or read.
    #[tactic(auto, unfolding(crate::specs::Change::nothing))]
    pub(crate) fn nothing() -> Change
        ensures { result ≡ nothing }
    {
        Change {
            answer: Ok(None),
            replaced: None,
            own: None,
        }
    }

    // Another answer.
    #[tactic(auto, unfolding(crate::specs::Change::answering))]
    pub(crate) fn answering(mut self, answer: Answer) -> Change
        ensures { result ≡ answering answer self }
    {
        self.answer = answer;
        self
    }

    // Chip i is replaced. The record is written out: a store to its field has the chip copied once more.
    #[tactic(auto, unfolding(crate::specs::Change::replacing))]
    pub(crate) fn replacing(self, i: u8, chip: Chip) -> Change
        ensures { result ≡ replacing i chip self }
    {
        Change {
            answer: self.answer,
            replaced: Some(Replaced { at: i, chip }),
            own: self.own,
        }
    }

    // The chain's own fields are set.
    #[tactic(auto, unfolding(crate::specs::Change::setting))]
    pub(crate) fn setting(mut self, enable: bool, iack: bool, response: Response) -> Change
        ensures { result ≡ setting enable iack response self }
    {
        self.own = Some(Own {
            enable,
            iack,
            response,
        });
        self
    }
}

impl Seen {
    // A command write. A reset of the responding chip ends its response.
    #[tactic(auto, unfolding(crate::specs::Decided::decided))]
    pub fn command(self, i: u8, code: u8) -> Change
        ensures { result ≡ decided (Command i code) self }
    {
        let change = Change::nothing().replacing(self.at, self.chip.commanded(code));
        if ends_response(self.at, code, self.response) {
            change.setting(self.enable, self.iack, None)
        } else {
            change
        }
    }

    // A data write.
    #[tactic(auto, unfolding(crate::specs::Decided::decided))]
    pub fn data_write(self, i: u8, byte: u8) -> Change
        requires { chip_sound self.chip ≡ true }
        ensures { result ≡ decided (Data i byte) self }
    {
        Change::nothing().replacing(self.at, self.chip.data(byte))
    }

    // A status read.
    #[tactic(auto, unfolding(crate::specs::Decided::decided))]
    pub fn status(self, i: u8) -> Change
        ensures { result ≡ decided (Status i) self }
    {
        Change::nothing().answering(Ok(Some(self.chip.status(self.ei))))
    }

    // A data read.
    #[tactic(auto, unfolding(crate::specs::Decided::decided))]
    pub fn read(self, i: u8) -> Change
        ensures { result ≡ decided (Read i) self }
    {
        Change::nothing().answering(Ok(Some(self.chip.read())))
    }

    // A line takes a level.
    #[tactic(auto, unfolding(crate::specs::Decided::decided))]
    pub fn line(self, i: u8, channel: u8, level: u8) -> Change
        ensures { result ≡ decided (Line i channel level) self }
    {
        Change::nothing().replacing(self.at, self.chip.line(channel, level == 1))
    }

    // The chain's Enable In takes a level.
    #[tactic(auto, unfolding(crate::specs::Decided::decided))]
    pub fn enable(self, level: u8) -> Change
        ensures { result ≡ decided (Enable level) self }
    {
        Change::nothing().setting(level == 1, self.iack, self.response)
    }

    // What an accepted event does.
    #[inline(always)]
    pub fn change(self, e: Event) -> Change
        requires sound_seen { seen_sound self ≡ true }
        requires accepted_event { verdict_on e self ≡ Ok tt }
        ensures { result ≡ decided e self }
    {
        match e {
            Event::Command(i, code) => self.command(i, code),
            Event::Data(i, byte) => self.data_write(i, byte),
            Event::Status(i) => self.status(i),
            Event::Read(i) => self.read(i),
            Event::Line(i, channel, level) => self.line(i, channel, level),
            Event::Enable(level) => self.enable(level),
            Event::Fall => self.fall(),
            Event::Rise => self.rise(),
        }
    }
}
