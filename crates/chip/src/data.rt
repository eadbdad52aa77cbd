// Response levels, data writes and data reads of a chip.
ghost use Rattle.std.specs.Prelude.{true, false, ◌≡◌, ◌<◌, get_or};
ghost use Rattle.chip.specs.Data.{byte_count, memory_place, has_no_destination, is_past_its_count, data_written, data_read};
ghost use Rattle.chip.specs.Sound.{chip_sound};
ghost use Rattle.chip.specs.declared.Destination.TheVariants.{Level};

use crate::{Chip, Destination};

// Where the byte of a level and a place stands in the response memory.
pub(crate) fn memory_place(level: u8, place: u8) -> usize
    ensures { result ≡ memory_place level place }
{
    usize::from(level) * 4 + usize::from(place)
}

impl Chip {
    // The byte count of a level: its code plus one.
    #[tactic(auto, using(crate::proofs::Soundness::code_le))]
    pub(crate) fn byte_count(self, level: u8) -> u8
        requires sound_chip { chip_sound self ≡ true }
        requires level_bound { level < 8 }
        ensures { result ≡ byte_count self.counts level }
    {
        self.counts[usize::from(level)] + 1
    }

    // Whether data writes have nowhere to go.
    pub fn has_no_destination(self) -> bool
        ensures { result ≡ has_no_destination self.destination }
    {
        matches!(self.destination, Destination::Nowhere)
    }

    // The byte count code of a level; 0 where there is no such level.
    fn code_of(self, level: u8) -> u8
        ensures { result ≡ get_or self.counts level 0 }
    {
        self.counts.get(usize::from(level)).copied().unwrap_or(0)
    }

    // Whether the destination is a level whose place is at or past its count.
    pub fn is_past_its_count(self) -> bool
        ensures { result ≡ is_past_its_count self.counts self.destination }
    {
        matches!(
            self.destination,
            Destination::Level(level, place) if place > self.code_of(level)
        )
    }

    // A data write: IMR and ACR may be written repeatedly; a level takes the byte at its next place.
    #[tactic(auto, using(crate::proofs::Soundness::place_le), unfolding(crate::proofs::Rules::chip_fields, crate::specs::Data::data_written))]
    pub fn data(mut self, byte: u8) -> Chip
        requires { chip_sound self ≡ true }
        ensures { result ≡ data_written self.destination byte self }
    {
        match self.destination {
            Destination::Nowhere => (),
            Destination::Imr => self.imr = byte,
            Destination::Acr => self.acr = byte,
            Destination::Level(level, place) => return self.at_level(level, place, byte),
        }
        self
    }

    // The byte at a place of a level, and the place moved on; past the memory's end there is nothing to store. Into a copy of the memory: a store at a place that is not known would keep the
    // whole chip in memory, and each event on it slower.
    #[tactic(auto, unfolding(crate::proofs::Rules::chip_fields, crate::specs::Data::data_written))]
    fn at_level(mut self, level: u8, place: u8, byte: u8) -> Chip
        requires { place < 255 }
        ensures { result ≡ data_written (Level level place) byte self }
    {
        let at = memory_place(level, place);
        let mut memory = self.memory;
        if at < memory.len() {
            memory[at] = byte;
        }
        self.memory = memory;
        self.destination = Destination::Level(level, place + 1);
        self
    }

    // A data read, by M6 M5: 00 ISR, 01 IMR, 10 IRR, 11 ACR.
    pub fn read(self) -> u8
        ensures { result ≡ data_read self }
    {
        match (bits::is_set(self.mode, 6), bits::is_set(self.mode, 5)) {
            (false, false) => self.isr,
            (false, true) => self.imr,
            (true, false) => self.irr,
            (true, true) => self.acr,
        }
    }
}
