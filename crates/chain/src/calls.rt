// The eight events as public calls: each takes any chain and any numbers, and hands back a new chain by value.
ghost use Rattle.std.specs.Prelude.{true, ◌≡◌};
ghost use Rattle.chain.specs.Events.{event_of};
ghost use Rattle.chain.specs.Sound.{sound};
ghost use Rattle.event.specs.declared.Event.TheVariants.{Command, Data, Status, Read, Line, Enable, Fall, Rise};

use crate::{Chain, Outcome};
use decide::Look;
use decide::tests::verdict;
use event::Event;
use refusal::Refusal;

impl Chain {
    // A command write.
    pub fn command(self, chip: u8, code: u8) -> Outcome
        ensures { result ≡ event_of (Command chip code) self }
    {
        self.on(Event::Command(chip, code))
    }

    // A data write.
    pub fn data(self, chip: u8, byte: u8) -> Outcome
        ensures { result ≡ event_of (Data chip byte) self }
    {
        self.on(Event::Data(chip, byte))
    }

    // A status read.
    pub fn status(self, chip: u8) -> Outcome
        ensures { result ≡ event_of (Status chip) self }
    {
        self.on(Event::Status(chip))
    }

    // A data read.
    pub fn read(self, chip: u8) -> Outcome
        ensures { result ≡ event_of (Read chip) self }
    {
        self.on(Event::Read(chip))
    }

    // A line takes a level, 0 or 1.
    pub fn line(self, chip: u8, channel: u8, level: u8) -> Outcome
        ensures { result ≡ event_of (Line chip channel level) self }
    {
        self.on(Event::Line(chip, channel, level))
    }

    // The chain's Enable In takes a level, 0 or 1.
    pub fn enable(self, level: u8) -> Outcome
        ensures { result ≡ event_of (Enable level) self }
    {
        self.on(Event::Enable(level))
    }

    // IACK falls.
    pub fn fall(self) -> Outcome
        ensures { result ≡ event_of Fall self }
    {
        self.on(Event::Fall)
    }

    // IACK rises.
    pub fn rise(self) -> Outcome
        ensures { result ≡ event_of Rise self }
    {
        self.on(Event::Rise)
    }

    // Any of the eight.
    #[tactic(auto, unfolding(crate::specs::Events::event_of, crate::specs::Events::judged, crate::specs::Refusals::verdict_of))]
    pub fn on(self, e: Event) -> Outcome
        ensures { result ≡ event_of e self }
    {
        if !self.is_sound() {
            return self.refused(Refusal::NotSound);
        }
        self.on_sound(e)
    }

    // Any of the eight on a chain that is known to be sound.
    #[tactic(auto, using(crate::proofs::Judged::seen_asked, crate::proofs::Judged::is_accepted_lem, crate::proofs::Judged::is_refused))]
    fn on_sound(self, e: Event) -> Outcome
        requires { sound self ≡ true }
        ensures { result ≡ event_of e self }
    {
        let seen = self.seen(Look::of(e, self.response));
        match verdict(e, seen) {
            Ok(()) => self.accepted(seen.change(e)),
            Err(why) => self.refused(why),
        }
    }
}
