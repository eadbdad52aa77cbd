// The numbers handed back: why a call is refused, the number of each reason, what it says to people, and what an event answers.
// A failure has a name here; the rules paper's table of numbers stands in specs/, beside the table of sentences, and every promise goes through it.
#![tactic(auto)]

ghost use Rattle.std.specs.Prelude.{◌≡◌};
ghost use Rattle.refusal.specs.Numbers.{refusal_number, verdict_number, is_accepted};

pub mod answers;
pub mod sentences;

// The reasons, in the table's order.
#[derive(Clone, Copy, Debug, PartialEq, Eq)]
pub enum Refusal {
    NotSound = 1,
    NoSuchChip,
    NoSuchChannel,
    NoSuchLevel,
    PulseUnderWay,
    IackThereAlready,
    UndefinedCommand,
    NoDestination,
    PastItsCount,
    BrokenEvent,
    ShortResults,
    UnknownKind,
}

// What a call is told before it changes anything: accepted, or why it is refused.
pub type Verdict = Result<(), Refusal>;

// What an event answers: a byte where one was driven or read; or why it is refused.
pub type Answer = Result<Option<u8>, Refusal>;

impl Refusal {
    // Its number in the table.
    pub fn number(self) -> u8
        ensures { result ≡ refusal_number self }
    {
        self as u8
    }
}

// The number of a verdict: 0 for accepted, else the refusal's.
pub fn verdict_number(verdict: Verdict) -> u8
    ensures { result ≡ verdict_number verdict }
{
    match verdict {
        Ok(()) => 0,
        Err(why) => why.number(),
    }
}

// Whether nothing was refused.
pub fn is_accepted(verdict: Verdict) -> bool
    ensures { result ≡ is_accepted verdict }
{
    verdict.is_ok()
}
