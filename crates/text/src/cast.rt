// Text written with each of its bytes in another form.
ghost use Rattle.std.specs.Prelude.{◌≡◌};
ghost use Rattle.text.specs.Cast.{cast_byte, cast};
ghost use Rattle.text.specs.Written.{written};

use crate::Way;
use crate::put::put;

// Bytes, each in its other form. Which one is an enum and no closure: that there is one outcome is stated of both (outcomes: OnePagePart).
#[tactic(auto, using(crate::proofs::InOtherForm::cast_more, crate::proofs::InOtherForm::cast_end))]
pub fn put_cast(to: &mut [u8], at: usize, from: &[u8], how: Way) -> usize
    ensures { (to.new, result) ≡ written (to.old, at) (cast how from.now) }
{
    let mut next = at;
    for c in from {
        next = put(to, next, &[cast_byte(how, *c)]);
    }
    next
}

// What is not printable as `?`; a capital letter as a small one.
fn cast_byte(how: Way, c: u8) -> u8
    ensures { result ≡ cast_byte how c }
{
    match how {
        Way::Shown if matches!(c, b' '..=b'~') => c,
        Way::Shown => b'?',
        Way::Small => c.to_ascii_lowercase(),
    }
}
