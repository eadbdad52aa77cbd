// Where each event looks.
ghost use Rattle.std.specs.Prelude.{◌≡◌};
ghost use Rattle.decide.specs.Look.{look_of, unless_responding};

use crate::Look;
use event::Event;
use response::Response;

impl Look {
    // Where an event looks, with this response under way or none.
    #[inline(always)]
    pub fn of(e: Event, response: Response) -> Look
        ensures { result ≡ look_of e response }
    {
        match e {
            Event::Command(i, _) | Event::Data(i, _) | Event::Read(i) | Event::Line(i, _, _) => {
                Look::At(i)
            }
            Event::Status(i) => Look::AtEi(i),
            Event::Enable(_) => Look::Nowhere,
            Event::Fall => Look::Answering.unless_responding(response),
            Event::Rise => Look::Nowhere.unless_responding(response),
        }
    }

    // At the chip that responds, if one does.
    fn unless_responding(self, response: Response) -> Look
        ensures { result ≡ unless_responding self response }
    {
        match response {
            None => self,
            Some(reply) => Look::At(reply.chip),
        }
    }
}
