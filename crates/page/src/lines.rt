// The two lines of a chip.
ghost use Rattle.std.specs.Prelude.{◌≡◌};
ghost use Rattle.page.specs.Page.{gint_field, heading, chip_pins, chain_pins, pins_parts, request_bytes, state_fields, registers_parts, pins_line, registers_line};
ghost use Rattle.text.specs.Written.{joined, written};

use text::put::{put, put_byte_field, put_field};
use views::{PinView, Pins, RegisterView, Registers};

// The two lines have a function each, and no one for both: the views' types share no field but the verdict, and a trait for them would be longer than the second function.
// The line of the pins, from the pin view.
#[tactic(auto, using(text::proofs::Written::written_none), unfolding(crate::specs::Page::pins_line))]
pub(crate) fn put_pins_line(to: &mut [u8], at: usize, i: u8, view: PinView) -> usize
    ensures { (to.new, result) ≡ written (to.old, at) (pins_line i view) }
{
    match view.verdict {
        Ok(()) => put_pins(to, at, i, view.picture),
        Err(_) => at,
    }
}

// The line of the registers, from the register view.
#[tactic(auto, using(text::proofs::Written::written_none), unfolding(crate::specs::Page::registers_line))]
pub(crate) fn put_registers_line(to: &mut [u8], at: usize, i: u8, view: RegisterView) -> usize
    ensures { (to.new, result) ≡ written (to.old, at) (registers_line i view) }
{
    match view.verdict {
        Ok(()) => put_registers(to, at, i, view.table),
        Err(_) => at,
    }
}

#[tactic(auto, using(steps::proofs::InARow::in_a_row))]
fn put_pins(to: &mut [u8], at: usize, i: u8, pins: Pins) -> usize
    ensures { (to.new, result) ≡ written (to.old, at) (joined (pins_parts i pins)) }
{
    let next = put_heading(to, at, b"pins ", pins.event, i);
    let next = put_chip_pins(to, next, pins);
    let next = put_chain_pins(to, next, pins);
    put(to, next, b"\n")
}

#[tactic(auto, using(steps::proofs::InARow::in_a_row))]
fn put_registers(to: &mut [u8], at: usize, i: u8, registers: Registers) -> usize
    ensures { (to.new, result) ≡ written (to.old, at) (joined (registers_parts i registers)) }
{
    let next = put_heading(to, at, b"registers ", registers.event, i);
    let next = put_requests(to, next, registers);
    let next = put_state(to, next, registers);
    put(to, next, b"\n")
}

// Which line, of which event and chip.
#[tactic(auto, using(steps::proofs::InARow::in_a_row))]
fn put_heading(to: &mut [u8], at: usize, name: &[u8], event: u16, i: u8) -> usize
    ensures { (to.new, result) ≡ written (to.old, at) (joined (heading name.now event i)) }
{
    let next = put_field(to, at, name, event as u64);
    put_field(to, next, b" chip ", i as u64)
}

#[tactic(auto, using(steps::proofs::InARow::in_a_row))]
fn put_chip_pins(to: &mut [u8], at: usize, pins: Pins) -> usize
    ensures { (to.new, result) ≡ written (to.old, at) (joined (chip_pins pins)) }
{
    let next = put_field(to, at, b" EI ", pins.ei as u64);
    let next = put_field(to, next, b" EO ", pins.eo as u64);
    put_gint(to, next, pins.gint)
}

// GINT, `z` where it is released.
fn put_gint(to: &mut [u8], at: usize, gint: u8) -> usize
    ensures { (to.new, result) ≡ written (to.old, at) (gint_field gint) }
{
    if gint == 2 {
        put(to, at, b" GINT z")
    } else {
        put_field(to, at, b" GINT ", gint as u64)
    }
}

#[tactic(auto, using(steps::proofs::InARow::in_a_row))]
fn put_chain_pins(to: &mut [u8], at: usize, pins: Pins) -> usize
    ensures { (to.new, result) ≡ written (to.old, at) (joined (chain_pins pins)) }
{
    let next = put_field(to, at, b" RIP ", pins.rip as u64);
    let next = put_field(to, next, b" PAUSE ", pins.pause as u64);
    put_field(to, next, b" IACK ", pins.iack as u64)
}

#[tactic(auto, using(steps::proofs::InARow::in_a_row))]
fn put_requests(to: &mut [u8], at: usize, registers: Registers) -> usize
    ensures { (to.new, result) ≡ written (to.old, at) (joined (request_bytes registers)) }
{
    let next = put_byte_field(to, at, b" IRR ", registers.irr);
    let next = put_byte_field(to, next, b" ISR ", registers.isr);
    let next = put_byte_field(to, next, b" IMR ", registers.imr);
    put_byte_field(to, next, b" ACR ", registers.acr)
}

#[tactic(auto, using(steps::proofs::InARow::in_a_row))]
fn put_state(to: &mut [u8], at: usize, registers: Registers) -> usize
    ensures { (to.new, result) ≡ written (to.old, at) (joined (state_fields registers)) }
{
    let next = put_byte_field(to, at, b" MODE ", registers.mode);
    let next = put_byte_field(to, next, b" STATUS ", registers.status);
    put_field(to, next, b" WAITING ", registers.waiting as u64)
}
