// The eight events; the four numbers that stand for each in a list: kind 1 to 8, chip, channel, value; unused ones are ignored; and the event number, which counts them.
// The one crate that lists all of them beside what each does (`decide`) and what each is called (`steps`).
#![tactic(auto)]

ghost use Rattle.std.specs.Prelude.{◌≡◌};
ghost use Rattle.event.specs.Counting.{next_number};
ghost use Rattle.event.specs.Numbers.{listed, in_numbers};

// The eight events, in the order of their kinds 1 to 8.
#[derive(Clone, Copy)]
pub enum Event {
    // Chip and code.
    Command(u8, u8),
    // Chip and byte.
    Data(u8, u8),
    Status(u8),
    Read(u8),
    // Chip, channel and level.
    Line(u8, u8, u8),
    Enable(u8),
    Fall,
    Rise,
}

// A kind outside 1 to 8.
#[derive(Clone, Copy, Debug, PartialEq, Eq)]
pub struct UnknownKind(pub u8);

// Four numbers. The kind is one and no enum: a list from C has four bytes for each event, and any of the 256 may stand there.
#[derive(Clone, Copy)]
pub struct Numbered {
    pub kind: u8,
    pub chip: u8,
    pub channel: u8,
    pub value: u8,
}

// The four numbers of an event; what its kind does not use is 0.
impl From<Event> for Numbered {
    ghost from_gives = { λ e n. n ≡ in_numbers e };

    fn from(e: Event) -> Numbered {
        let (kind, chip, channel, value) = match e {
            Event::Command(chip, code) => (1, chip, 0, code),
            Event::Data(chip, byte) => (2, chip, 0, byte),
            Event::Status(chip) => (3, chip, 0, 0),
            Event::Read(chip) => (4, chip, 0, 0),
            Event::Line(chip, channel, level) => (5, chip, channel, level),
            Event::Enable(level) => (6, 0, 0, level),
            Event::Fall => (7, 0, 0, 0),
            Event::Rise => (8, 0, 0, 0),
        };
        Numbered {
            kind,
            chip,
            channel,
            value,
        }
    }
}

// The event that four numbers are, if their kind is one of the eight.
impl TryFrom<Numbered> for Event {
    type Error = UnknownKind;

    ghost try_from_gives = { λ n r. r ≡ listed n.kind n.chip n.channel n.value };

    fn try_from(numbers: Numbered) -> Result<Event, UnknownKind> {
        let Numbered {
            kind,
            chip,
            channel,
            value,
        } = numbers;
        match kind {
            1 => Ok(Event::Command(chip, value)),
            2 => Ok(Event::Data(chip, value)),
            3 => Ok(Event::Status(chip)),
            4 => Ok(Event::Read(chip)),
            5 => Ok(Event::Line(chip, channel, value)),
            6 => Ok(Event::Enable(value)),
            7 => Ok(Event::Fall),
            8 => Ok(Event::Rise),
            _ => Err(UnknownKind(kind)),
        }
    }
}

// The event number after one more accepted event: from 65,535 it rolls over to 0.
pub fn next_number(number: u16) -> u16
    ensures { result ≡ next_number number }
{
    number.wrapping_add(1)
}
