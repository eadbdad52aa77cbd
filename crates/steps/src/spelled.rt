// A step written in its one spelling.
ghost use Rattle.std.specs.Prelude.{◌≡◌};
ghost use Rattle.steps.specs.Spelled.{spelled_as, spelled};
ghost use Rattle.text.specs.Written.{written};

use crate::Argument;
use crate::kinds::{form_of, put_name};
use event::Numbered;
use text::put::{put_byte_field, put_field};

// A step: its name, and what it takes.
#[tactic(auto, using(crate::proofs::InARow::in_a_row), unfolding(crate::specs::Spelled::spelled))]
pub fn put_step(to: &mut [u8], at: usize, step: Numbered) -> usize
    ensures { (to.new, result) ≡ written (to.old, at) (spelled step) }
{
    let form = form_of(step.kind);
    let next = put_name(to, at, step.kind);
    let next = put_argument(to, next, form.chip, step.chip);
    let next = put_argument(to, next, form.channel, step.channel);
    put_argument(to, next, form.value, step.value)
}

// An argument: a blank, and a byte in hex or a number in decimal; nothing where the step does not take it.
#[tactic(auto, using(text::proofs::Written::written_none))]
fn put_argument(to: &mut [u8], at: usize, argument: Argument, n: u8) -> usize
    ensures { (to.new, result) ≡ written (to.old, at) (spelled_as argument n) }
{
    match argument {
        Argument::Count | Argument::Chip | Argument::Channel | Argument::Level => {
            put_field(to, at, b" ", n as u64)
        }
        Argument::Fill | Argument::Code | Argument::Byte => put_byte_field(to, at, b" ", n),
        Argument::End => at,
    }
}
