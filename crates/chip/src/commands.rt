// What a chip does on a command: each row of Figure 4.
ghost use Rattle.std.specs.Prelude.{◌≡◌, ◌<◌};
ghost use Rattle.chip.specs.Command.{obey, commanded};
ghost use Rattle.chip.specs.Fields.{with_command};
ghost use Rattle.figure4.specs.Figure4.{figure4};

use crate::{Chip, Destination};
use figure4::Command;

impl Chip {
    // A command write: it ends the earlier destination, and its row is carried out; an undefined one changes nothing.
    #[tactic(auto, unfolding(crate::specs::Command::commanded))]
    pub fn commanded(self, code: u8) -> Chip
        ensures { result ≡ commanded (figure4 code) code self }
    {
        match Command::try_from(code) {
            Ok(row) => self.with_destination(Destination::Nowhere).obey(row, code),
            Err(_) => self,
        }
    }

    // The code becomes the last command, and its row is carried out.
    #[tactic(auto, using(figure4::proofs::Figure4::widths), unfolding(crate::proofs::Rules::chip_fields, crate::specs::Command::obey))]
    fn obey(mut self, row: Command, code: u8) -> Chip
        requires { figure4 code ≡ Ok row }
        ensures { result ≡ obey row (with_command code self) }
    {
        self.command = code;
        match row {
            Command::Reset => self = self.reset(),
            Command::ClearIrrAndImr => {
                self.irr = 0;
                self.imr = 0;
            }
            Command::ClearIrrAndImrBit(k) => {
                self.irr = bits::without_bit(self.irr, k);
                self.imr = bits::without_bit(self.imr, k);
            }
            Command::ClearImr => self.imr = 0,
            Command::ClearImrBit(k) => self.imr = bits::without_bit(self.imr, k),
            Command::SetImr => self.imr = 255,
            Command::SetImrBit(k) => self.imr = bits::with_bit(self.imr, k),
            Command::ClearIrr => self.irr = 0,
            Command::ClearIrrBit(k) => self.irr = bits::without_bit(self.irr, k),
            Command::SetIrr => self.irr = 255,
            Command::SetIrrBit(k) => self.irr = bits::with_bit(self.irr, k),
            Command::ClearHighestIsr => self.isr = search::clear_highest(
                self.isr,
                self.mode,
                self.pointer,
            ),
            Command::ClearIsr => self.isr = 0,
            Command::ClearIsrBit(k) => self.isr = bits::without_bit(self.isr, k),
            Command::LoadMode(m) => self.mode = self.mode / 32 * 32 + m,
            Command::LoadRead(m) => self.mode = self.mode / 128 * 128 + m * 32 + self.mode % 32,
            Command::LoadReadAndArm(m) => self.mode = 128 + m * 32 + self.mode % 32,
            Command::LoadReadAndDisarm(m) => self.mode = m * 32 + self.mode % 32,
            Command::PreselectImr => self.destination = Destination::Imr,
            Command::PreselectAcr => self.destination = Destination::Acr,
            // A level is chosen at place 0, with its count code; into a copy of the codes, as in `at_level`.
            Command::PreselectLevel(count, level) => {
                let mut counts = self.counts;
                counts[usize::from(level)] = count;
                self.counts = counts;
                self.destination = Destination::Level(level, 0);
            }
        }
        self
    }
}
