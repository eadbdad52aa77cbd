// A byte as eight channels: is a bit set, the byte with one bit set or cleared, and how many requests wait. And a level as a number.
// Every call is answered for every byte and every bit number: a byte has bits 0 to 7, and another one is never set and never changes.
#![tactic(auto)]

ghost use Rattle.std.specs.Prelude.{◌≡◌, ◌≤◌};
ghost use Rattle.bits.specs.Below.{digit};
ghost use Rattle.bits.specs.Byte.{bit, with_bit, without_bit, waiting};

// Whether bit `k` of `x` is set.
#[tactic(auto, using(crate::proofs::Byte::no_bit))]
pub fn is_set(x: u8, k: u8) -> bool
    ensures { result ≡ bit x k }
{
    k < 8 && (x >> k) & 1 == 1
}

// `x` with bit `k` set.
pub fn with_bit(x: u8, k: u8) -> u8
    ensures { result ≡ with_bit x k }
{
    if k < 8 { x | (1 << k) } else { x }
}

// `x` with bit `k` clear.
pub fn without_bit(x: u8, k: u8) -> u8
    ensures { result ≡ without_bit x k }
{
    if k < 8 { x & !(1 << k) } else { x }
}

// A level or a test as a number: 1 where it is high or holds, else 0.
pub fn digit_of(high: bool) -> u8
    ensures value { result ≡ digit high }
    ensures upper_bound { result ≤ 1 }
{
    u8::from(high)
}

// The number of ones in IRR that are clear in IMR.
#[tactic(auto, using(crate::proofs::Byte::waiting_of_bytes))]
pub fn waiting_number(irr: u8, imr: u8) -> u8
    ensures { result ≡ waiting irr imr }
{
    (irr & !imr).count_ones() as u8
}
