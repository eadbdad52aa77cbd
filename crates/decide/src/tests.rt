// When an event on a sound chain is refused: the tests of the table, in its order, over what the event looks at.
// Each takes the numbers that it tests and no `Seen`: it is promised of any of them (`OnePart`), and a view asks for one of the tests too.
ghost use Rattle.std.specs.Prelude.{not, [], ◌∷◌, ◌≡◌};
ghost use Rattle.refusal.specs.Numbers.{first_of_list};
ghost use Rattle.decide.specs.Refusals.{no_such_chip, no_such_channel, no_such_level, pulse_under_way, iack_there_already, undefined_command, no_destination, past_its_count, verdict_on};

use crate::Seen;
use chip::Chip;
use event::Event;
use figure4::{Command, is_undefined};
use refusal::{Refusal, Verdict};

// The verdict on an event.
#[inline(always)]
pub fn verdict(e: Event, seen: Seen) -> Verdict
    ensures { result ≡ verdict_on e seen }
{
    match e {
        Event::Command(_, code) => command_verdict(seen.count, seen.at, seen.iack, code),
        Event::Data(_, _) => data_verdict(seen.count, seen.at, seen.iack, seen.chip),
        Event::Status(_) | Event::Read(_) => bus_verdict(seen.count, seen.at, seen.iack),
        Event::Line(_, channel, level) => line_verdict(seen.count, seen.at, channel, level),
        Event::Enable(level) => level_verdict(level),
        Event::Fall => fall_verdict(seen.iack),
        Event::Rise => rise_verdict(seen.iack),
    }
}

// Refused where a test applies.
fn refused_if(applies: bool, why: Refusal) -> Verdict
    ensures { result ≡ first_of_list ((applies, why) ∷ []) }
{
    if applies { Err(why) } else { Ok(()) }
}

// Whatever names a chip: chip not below the count.
pub fn chip_verdict(count: u8, i: u8) -> Verdict
    ensures { result ≡ first_of_list (no_such_chip count i ∷ []) }
{
    refused_if(i >= count, Refusal::NoSuchChip)
}

// Every access on the bus, and the whole verdict on a read: chip not below the count; IACK low.
pub fn bus_verdict(count: u8, i: u8, iack: bool) -> Verdict
    ensures { result ≡ first_of_list (no_such_chip count i ∷ pulse_under_way iack ∷ []) }
{
    chip_verdict(count, i)?;
    refused_if(!iack, Refusal::PulseUnderWay)
}

// A command write.
pub fn command_verdict(count: u8, i: u8, iack: bool, code: u8) -> Verdict
    ensures { result ≡ first_of_list (no_such_chip count i ∷ pulse_under_way iack ∷ undefined_command code ∷ []) }
{
    bus_verdict(count, i, iack)?;
    refused_if(
        is_undefined(Command::try_from(code)),
        Refusal::UndefinedCommand,
    )
}

// A data write.
pub fn data_verdict(count: u8, i: u8, iack: bool, chip: Chip) -> Verdict
    ensures { result ≡ first_of_list (no_such_chip count i ∷ pulse_under_way iack ∷ no_destination chip ∷ past_its_count chip ∷ []) }
{
    bus_verdict(count, i, iack)?;
    refused_if(chip.has_no_destination(), Refusal::NoDestination)?;
    refused_if(chip.is_past_its_count(), Refusal::PastItsCount)
}

// A line takes a level.
pub fn line_verdict(count: u8, i: u8, channel: u8, level: u8) -> Verdict
    ensures { result ≡ first_of_list (no_such_chip count i ∷ no_such_channel channel ∷ no_such_level level ∷ []) }
{
    chip_verdict(count, i)?;
    refused_if(channel > 7, Refusal::NoSuchChannel)?;
    level_verdict(level)
}

// The whole verdict on Enable In, and the last test of a line: level above 1.
pub fn level_verdict(level: u8) -> Verdict
    ensures { result ≡ first_of_list (no_such_level level ∷ []) }
{
    refused_if(level > 1, Refusal::NoSuchLevel)
}

// IACK takes the level at which it is already.
fn iack_verdict(there: bool) -> Verdict
    ensures { result ≡ first_of_list (iack_there_already there ∷ []) }
{
    refused_if(there, Refusal::IackThereAlready)
}

// IACK falls: it is low already.
pub fn fall_verdict(iack: bool) -> Verdict
    ensures { result ≡ first_of_list (iack_there_already (not iack) ∷ []) }
{
    iack_verdict(!iack)
}

// IACK rises: it is high already.
pub fn rise_verdict(iack: bool) -> Verdict
    ensures { result ≡ first_of_list (iack_there_already iack ∷ []) }
{
    iack_verdict(iack)
}
