// Text written into a lent buffer from a place on. Each call hands back the place behind what it has written, for the next one.
// The buffer and the place are two parameters and no record of both: a record would hold the borrow, and each function that is lent one would have to promise
// besides that it still holds the same buffer.
ghost use Rattle.std.specs.Prelude.{◌++◌, ◌≡◌, ◌<◌};
ghost use Rattle.text.specs.Written.{written, decimal, hex_byte, hex_digit};

use itoa::Buffer;

// Bytes, as they are. One by one: `copy_from_slice` would ask the C library for `memmove`, which the archive for C does not need otherwise.
#[tactic(auto, using(crate::proofs::Written::written_more, crate::proofs::Written::written_end, crate::proofs::Written::written_full))]
pub fn put(to: &mut [u8], at: usize, from: &[u8]) -> usize
    ensures { (to.new, result) ≡ written (to.old, at) from.now }
{
    let mut place = at;
    for byte in from {
        if place >= to.len() {
            return place;
        }
        to[place] = *byte;
        place += 1;
    }
    place
}

// A number in decimal.
#[tactic(auto, using(crate::proofs::Decimal::decimal_is))]
fn put_decimal(to: &mut [u8], at: usize, n: u64) -> usize
    ensures { (to.new, result) ≡ written (to.old, at) (decimal n) }
{
    put(to, at, Buffer::new().format(n).as_bytes())
}

// A byte as two hex digits. By hand: a formatted `{:02X}` would need a cursor over what is left of the buffer.
#[tactic(auto, unfolding(crate::specs::Written::hex_byte))]
fn put_hex(to: &mut [u8], at: usize, byte: u8) -> usize
    ensures { (to.new, result) ≡ written (to.old, at) (hex_byte byte) }
{
    put(to, at, &[hex_digit(byte / 16), hex_digit(byte % 16)])
}

fn hex_digit(value: u8) -> u8
    requires { value < 16 }
    ensures { result ≡ hex_digit value }
{
    if value < 10 {
        b'0' + value
    } else {
        b'A' - 10 + value
    }
}

// A name and a number.
#[tactic(auto, using(crate::proofs::Written::one_after_the_other))]
pub fn put_field(to: &mut [u8], at: usize, name: &[u8], n: u64) -> usize
    ensures { (to.new, result) ≡ written (to.old, at) (name.now ++ decimal n) }
{
    let next = put(to, at, name);
    put_decimal(to, next, n)
}

// A name and a byte in hex. Two functions and no closure for the number: each is promised by itself (`OnePagePart`), and both are two lines.
#[tactic(auto, using(crate::proofs::Written::one_after_the_other))]
pub fn put_byte_field(to: &mut [u8], at: usize, name: &[u8], byte: u8) -> usize
    ensures { (to.new, result) ≡ written (to.old, at) (name.now ++ hex_byte byte) }
{
    let next = put(to, at, name);
    put_hex(to, next, byte)
}
