// The bench program: runs K1 to K14 of the rules paper through the public calls and prints a line for each, `ok` or `differs`.
// It reads nothing. Each case compares what the calls hand back with what the paper says (numbers.rt has the cases, crate bench_case the comparing).
#![tactic(auto)]

mod numbers;

use numbers::{k1, k2, k3, k4, k5, k6, k7, k8, k9, k10, k11, k12, k13, k14};
use std::io;

// Writes each case's name, a space, and what became of it.
fn main(rt: HostRuntime) -> io::Result<()> {
    let cases = [
        k1().held,
        k2().held,
        k3().held,
        k4().held,
        k5().held,
        k6().held,
        k7().held,
        k8().held,
        k9().held,
        k10().held,
        k11().held,
        k12(),
        k13(),
        k14().held,
    ];
    for (number, held) in (1..=14).zip(cases) {
        let became = if held { "ok" } else { "differs" };
        println!(rt; "K{number} {became}")?;
    }
    Ok(())
}
