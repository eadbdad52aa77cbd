// The report of an event list, as text: a page for the start and after every accepted event, and a last line where a list ends before its end.
// It is made line by line, into a lent buffer.
#![tactic(auto)]

ghost use Rattle.std.specs.Prelude.{◌≡◌};
ghost use Rattle.report.specs.Report.{at_first, next_report, has_ended, Tells, step_reply, reply, last_reply};
ghost use Rattle.report.specs.declared.Course.TheVariants.{GoesOn};

use chain::{Chain, Outcome};
use event::Numbered;
use messages::{put_malformed, put_refused};
use page::put_page;
use refusal::answers::verdict_in;
use steps::kinds::START;
use steps::line::{found_in, step_of};
use steps::{Expected, Step};

// A page of this many bytes has room for all that a line prints.
pub const PAGE: usize = 16384;

// What the lines so far have made: the number of the next line, whether the list has started, and its chain.
// A flag beside the chain and no Option of it: what a line prints is promised of every report, also of one that has not started and holds a chain (`OnePage`: `take`).
#[derive(Clone, Copy)]
pub struct Report {
    pub line: u64,
    pub started: bool,
    pub chain: Chain,
}

// How a report goes on after a line: it does; or its list is over; or it has stopped before that, since a step was refused or a line is malformed.
#[derive(Clone, Copy)]
pub enum Course {
    GoesOn,
    Over,
    Stopped,
}

// What a line has done: the report after it, how many bytes it has printed, and how it goes on.
// What it has printed are the first bytes of the caller's page, and their number stands here: the page is lent, and no memory is taken for it.
#[derive(Clone, Copy)]
pub struct Taken {
    pub report: Report,
    pub length: usize,
    pub course: Course,
}

impl Course {
    // Whether nothing more is printed.
    pub fn has_ended(self) -> bool
        ensures { result ≡ has_ended self }
    {
        !matches!(self, Course::GoesOn)
    }
}

impl Report {
    // Before the first line.
    #[tactic(auto, unfolding(crate::specs::Report::at_first, chain::specs::Start::start_of))]
    pub fn new() -> Report
        ensures { result ≡ at_first }
    {
        Report {
            line: 1,
            started: false,
            chain: Chain::start(0, 0).chain,
        }
    }

    // A line, without its line feed, prints onto the page.
    #[tactic(auto, using(text::proofs::Written::written_none), unfolding(crate::specs::Report::reply, crate::specs::Report::line_reply))]
    pub fn take(self, line: &[u8], page: &mut [u8]) -> Taken
        ensures { Tells (reply line.now self) page.old result page.new }
    {
        match step_of(self.started, line) {
            Step::Nothing => self.goes_on(self.started, self.chain, 0),
            Step::Start(count, fill) => {
                let step = Numbered {
                    kind: START,
                    chip: count,
                    channel: 0,
                    value: fill,
                };
                self.answer(step, Chain::start(count, fill), page)
            }
            Step::Happens(event) => {
                self.answer(Numbered::from(event), self.chain.on(event), page)
            }
            Step::Malformed(expected, place) => {
                let length = put_malformed(page, 0, self.line, expected, found_in(line, place));
                self.ends(length, Course::Stopped)
            }
        }
    }

    // The last line of a list, which ends with it.
    #[tactic(auto, using(text::proofs::Written::one_after_the_other), unfolding(crate::specs::Report::last_reply, crate::specs::Report::closed))]
    pub fn take_last(self, line: &[u8], page: &mut [u8]) -> Taken
        ensures { Tells (last_reply line.now self) page.old result page.new }
    {
        let taken = self.take(line, page);
        if taken.course.has_ended() {
            return taken;
        }
        if taken.report.started {
            return taken.report.ends(taken.length, Course::Over);
        }
        let length = put_malformed(page, taken.length, self.line, Expected::TheStart, b"");
        taken.report.ends(length, Course::Stopped)
    }

    // An accepted step prints its page, a refused one its refusal.
    #[tactic(auto, unfolding(crate::specs::Report::step_reply))]
    fn answer(self, step: Numbered, outcome: Outcome, page: &mut [u8]) -> Taken
        ensures { Tells (step_reply step outcome.answer outcome.chain self) page.old result page.new }
    {
        let Outcome { answer, chain } = outcome;
        match verdict_in(answer) {
            Ok(()) => self.goes_on(
                true,
                chain,
                put_page(page, 0, self.line, step, answer, chain),
            ),
            Err(why) => self.ends(put_refused(page, 0, self.line, step, why), Course::Stopped),
        }
    }

    fn goes_on(self, started: bool, chain: Chain, length: usize) -> Taken
        ensures { result ≡ record { report = next_report started chain self; length = length; course = GoesOn } }
    {
        let report = Report {
            line: self.line.wrapping_add(1),
            started,
            chain,
        };
        Taken {
            report,
            length,
            course: Course::GoesOn,
        }
    }

    fn ends(self, length: usize, course: Course) -> Taken
        ensures { result ≡ record { report = self; length = length; course = course } }
    {
        Taken {
            report: self,
            length,
            course,
        }
    }
}
