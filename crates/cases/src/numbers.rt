// K1 to K14 (the rules paper, "On the bench"). Codes are hex; one chip and fill 0 unless said.
use bench_case::Bench;
use chain::Chain;
use refusal::answers;

// K1 start, status: 40. As after reset, so all is masked.
pub(crate) fn k1() -> Bench {
    Bench::start(1, 0).status(0, 0x40).imr(0, 0xFF)
}

// K2 then A1, status: 48.
pub(crate) fn k2() -> Bench {
    k1().command(0, 0xA1).status(0, 0x48)
}

// K3 then 28 and 58, status: C8, GINT pin 0.
pub(crate) fn k3() -> Bench {
    k2().command(0, 0x28)
        .command(0, 0x58)
        .status(0, 0xC8)
        .gint(0, 0)
}

// K4 after K2, 2D and 5D instead: CD.
pub(crate) fn k4() -> Bench {
    k2().command(0, 0x2D).command(0, 0x5D).status(0, 0xCD)
}

// K5 after K3, fall gives 00, IRR 00; rise, data read gives 01.
pub(crate) fn k5() -> Bench {
    k3().fall(0x00).irr(0, 0x00).rise().read(0, 0x01)
}

// K6 F2 then data CD 34 12: accepted; a fourth is 9. Armed, 2A and 5A: three pulses drive CD, 34, 12.
pub(crate) fn k6() -> Bench {
    Bench::start(1, 0)
        .command(0, 0xF2)
        .data(0, 0xCD)
        .data(0, 0x34)
        .data(0, 0x12)
        .data_refused(0, 0x56, 9)
        .command(0, 0xA1)
        .command(0, 0x2A)
        .command(0, 0x5A)
        .fall(0xCD)
        .rise()
        .fall(0x34)
        .rise()
        .fall(0x12)
        .rise()
}

// K7 two chips, only chip 1 armed with 0 pending and unmasked: fall stalls, chip 1 has EI 0. Pending by a falling edge on its line.
pub(crate) fn k7() -> Bench {
    Bench::start(2, 0)
        .command(1, 0xA1)
        .command(1, 0x28)
        .line(1, 0, 0)
        .gint(1, 0)
        .fall_stalls()
        .pause(0)
        .ei(1, 0)
}

// K8 both armed, chip 0 has 7 pending, chip 1 has 0: chip 0 answers 7. Chip 1's is pending by a rising edge, M4 set.
pub(crate) fn k8() -> Bench {
    Bench::start(2, 0)
        .command(0, 0xA1)
        .command(1, 0xA1)
        .command(0, 0x2F)
        .command(0, 0x5F)
        .command(1, 0x28)
        .command(1, 0x90)
        .line(1, 0, 0)
        .irr(1, 0x00)
        .line(1, 0, 1)
        .irr(1, 0x01)
        .fall(0x00)
        .irr(0, 0x00)
        .isr(0, 0x80)
        .irr(1, 0x01)
        .isr(1, 0x00)
}

// K9 ISR bit 3, fixed: pending 3 alone is no candidate; pending 2 is.
pub(crate) fn k9() -> Bench {
    Bench::start(1, 0)
        .command(0, 0xA1)
        .command(0, 0x20)
        .command(0, 0x5B)
        .fall(0x00)
        .rise()
        .isr(0, 0x08)
        .command(0, 0x5B)
        .irr(0, 0x08)
        .status(0, 0x48)
        .command(0, 0x4B)
        .command(0, 0x5A)
        .irr(0, 0x04)
        .status(0, 0xCA)
}

// K10 rotating, pointer 3, all unmasked and auto clear, pending 2, 3, 4: answered 4, 2, 3. An answer to 3 makes the pointer 3.
pub(crate) fn k10() -> Bench {
    Bench::start(1, 0)
        .command(0, 0x81)
        .command(0, 0xA1)
        .command(0, 0x20)
        .command(0, 0xC0)
        .data(0, 0xFF)
        .command(0, 0x5B)
        .fall(0x00)
        .rise()
        .command(0, 0x5A)
        .command(0, 0x5B)
        .command(0, 0x5C)
        .irr(0, 0x1C)
        .isr(0, 0x00)
        .fall(0x00)
        .isr(0, 0x10)
        .rise()
        .fall(0x00)
        .isr(0, 0x04)
        .rise()
        .fall(0x00)
        .isr(0, 0x08)
        .rise()
}

// K11 01, A3, D0 refused 7; 00, A2, CF accepted.
pub(crate) fn k11() -> Bench {
    Bench::start(1, 0)
        .command_refused(0, 0x01, 7)
        .command_refused(0, 0xA3, 7)
        .command_refused(0, 0xD0, 7)
        .command(0, 0x00)
        .command(0, 0xA2)
        .command(0, 0xCF)
}

// K12 event number 65,535, any accepted event: 0. Each of the eight kinds, from a chip that waits for its IMR.
pub(crate) fn k12() -> bool {
    let begun = Bench::start(1, 0).command(0, 0xB0).at_65535();
    let fallen = begun.fall_stalls();
    [
        begun.command(0, 0xA1),
        begun.data(0, 0x00),
        begun.status(0, 0x40),
        begun.read(0, 0x00),
        begun.line(0, 7, 0),
        begun.enable(0),
        fallen,
        fallen.at_65535().rise(),
    ]
    .iter()
    .all(|case| case.rolled_over())
}

// K13 counts 8 and 9 at start: 0 and 1; channels 7 and 8: 0 and 3.
pub(crate) fn k13() -> bool {
    let eight = Bench::start(8, 0).line(0, 7, 0).line_refused(0, 8, 0, 3);
    eight.held && answers::number(Chain::start(9, 0).answer) == 1
}

// K14 fall twice: second 6; a command then: 5.
pub(crate) fn k14() -> Bench {
    Bench::start(1, 0)
        .fall_stalls()
        .fall_refused(6)
        .command_refused(0, 0xA1, 5)
}
