// A line level at a chip.
ghost use Rattle.std.specs.Prelude.{◌≡◌};
ghost use Rattle.chip.specs.Line.{is_active_edge, bit_at, line_set};

use crate::Chip;

// Whether going from one level to another is the transition of M4's sense. By `&`: with `&&` a line event takes a quarter more time.
fn is_active_edge(mode: u8, before: bool, now: bool) -> bool
    ensures { result ≡ is_active_edge mode before now }
{
    if bits::is_set(mode, 4) {
        !before & now
    } else {
        before & !now
    }
}

// `x` with bit `k` at a level.
fn bit_at(high: bool, x: u8, k: u8) -> u8
    ensures { result ≡ bit_at high x k }
{
    if high {
        bits::with_bit(x, k)
    } else {
        bits::without_bit(x, k)
    }
}

impl Chip {
    // The line of a channel takes a level; an active edge sets the IRR bit, masked or disarmed included.
    #[tactic(auto, unfolding(crate::proofs::Rules::chip_fields, crate::specs::Line::line_set))]
    pub fn line(mut self, channel: u8, high: bool) -> Chip
        ensures { result ≡ line_set channel high self }
    {
        let before = bits::is_set(self.lines, channel);
        if is_active_edge(self.mode, before, high) {
            self.irr = bits::with_bit(self.irr, channel);
        }
        self.lines = bit_at(high, self.lines, channel);
        self
    }
}
