// The eight events on an image where it lies: an event is shown what it looks at, and what is decided is applied there, so that no chain is copied from event to event.
// No rule stands here: where an event looks, its tests and its change are decide's.
// `on` is for a run, which has seen that the bytes are an image and its chain is sound.
#![tactic(auto)]

mod events;

ghost use Rattle.std.specs.Prelude.{true, ◌≡◌};
ghost use Rattle.chain.specs.Events.{event_of};
ghost use Rattle.chain.specs.Sound.{sound};
ghost use Rattle.image.specs.Reading.{chain_in, is_image};

use crate::events::step;
use event::Event;
use refusal::Answer;

// Any of the eight. An arm for each, in which the step is compiled for that event alone: so it reads and writes no more than it needs.
pub fn on(image: &mut [u8], e: Event) -> Answer
    requires image_form { is_image image.old ≡ true }
    requires chain_sound { sound (chain_in image.old) ≡ true }
    ensures value { result ≡ (event_of e (chain_in image.old)).answer }
    ensures form_after { is_image image.new ≡ true }
    ensures chain_after { chain_in image.new ≡ (event_of e (chain_in image.old)).chain }
{
    match e {
        Event::Command(i, code) => step(image, Event::Command(i, code)),
        Event::Data(i, byte) => step(image, Event::Data(i, byte)),
        Event::Status(i) => step(image, Event::Status(i)),
        Event::Read(i) => step(image, Event::Read(i)),
        Event::Line(i, channel, level) => step(image, Event::Line(i, channel, level)),
        Event::Enable(level) => step(image, Event::Enable(level)),
        Event::Fall => step(image, Event::Fall),
        Event::Rise => step(image, Event::Rise),
    }
}
