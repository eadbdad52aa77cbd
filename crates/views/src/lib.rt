// The two views of one state: the table of a chip's registers and the picture of its pins, with the chain's event number.
// A view is a verdict beside its record, all of whose fields are 0 where it is refused. Both calls take every input.
#![tactic(auto)]

ghost use Rattle.std.specs.Prelude.{◌≡◌};
ghost use Rattle.views.specs.Views.{table_of, picture_of, no_table, no_picture, view_verdict, register_view, pin_view};

use chain::Chain;
use decide::tests::chip_verdict;
use refusal::{Refusal, Verdict, is_accepted};

// The table of a chip's registers.
#[derive(Clone, Copy)]
pub struct Registers {
    pub event: u16,
    pub irr: u8,
    pub isr: u8,
    pub imr: u8,
    pub acr: u8,
    pub mode: u8,
    pub status: u8,
    pub waiting: u8,
}

// The picture of a chip's pins, and of the chain's.
#[derive(Clone, Copy)]
pub struct Pins {
    pub event: u16,
    pub ei: u8,
    pub eo: u8,
    // 0, 1, or 2 for released.
    pub gint: u8,
    pub rip: u8,
    pub pause: u8,
    pub iack: u8,
}

// A verdict beside the record and no Result of it: the paper says what the fields of a refused view are (`register_view_outcome`, `pin_view_outcome`). And a type for each record: what is
// claimed of a state names the fields of both (demands/specs/Agree).
#[derive(Clone, Copy)]
pub struct RegisterView {
    pub verdict: Verdict,
    pub table: Registers,
}

#[derive(Clone, Copy)]
pub struct PinView {
    pub verdict: Verdict,
    pub picture: Pins,
}

// The register view of a chip.
#[tactic(auto, unfolding(crate::specs::Views::register_view))]
pub fn register_view(chain: Chain, chip: u8) -> RegisterView
    ensures { result ≡ register_view chip chain }
{
    let verdict = view_verdict(chain, chip);
    let table = if is_accepted(verdict) {
        table(chain, chip)
    } else {
        no_table()
    };
    RegisterView { verdict, table }
}

// The pin view of a chip.
#[tactic(auto, unfolding(crate::specs::Views::pin_view))]
pub fn pin_view(chain: Chain, chip: u8) -> PinView
    ensures { result ≡ pin_view chip chain }
{
    let verdict = view_verdict(chain, chip);
    let picture = if is_accepted(verdict) {
        picture(chain, chip)
    } else {
        no_picture()
    };
    PinView { verdict, picture }
}

// A view names a chip, so it takes refusals 1 and 2.
fn view_verdict(chain: Chain, i: u8) -> Verdict
    ensures { result ≡ view_verdict i chain }
{
    if !chain.is_sound() {
        return Err(Refusal::NotSound);
    }
    chip_verdict(chain.count, i)
}

// The table of chip i.
fn table(chain: Chain, i: u8) -> Registers
    ensures { result ≡ table_of i chain }
{
    let chip = chain.chip_at(i);
    Registers {
        event: chain.event,
        irr: chip.irr,
        isr: chip.isr,
        imr: chip.imr,
        acr: chip.acr,
        mode: chip.mode,
        status: chip.status(chain.ei(i)),
        waiting: chip.waiting(),
    }
}

fn no_table() -> Registers
    ensures { result ≡ no_table }
{
    Registers {
        event: 0,
        irr: 0,
        isr: 0,
        imr: 0,
        acr: 0,
        mode: 0,
        status: 0,
        waiting: 0,
    }
}

// The picture of chip i.
fn picture(chain: Chain, i: u8) -> Pins
    ensures { result ≡ picture_of i chain }
{
    let chip = chain.chip_at(i);
    let ei = chain.ei(i);
    Pins {
        event: chain.event,
        ei: bits::digit_of(ei),
        eo: bits::digit_of(chain.eo_at(ei, i)),
        gint: chip.gint(),
        rip: bits::digit_of(chain.rip()),
        pause: bits::digit_of(chain.pause()),
        iack: bits::digit_of(chain.iack),
    }
}

fn no_picture() -> Pins
    ensures { result ≡ no_picture }
{
    Pins {
        event: 0,
        ei: 0,
        eo: 0,
        gint: 0,
        rip: 0,
        pause: 0,
        iack: 0,
    }
}
