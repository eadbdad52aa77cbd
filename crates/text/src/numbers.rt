// The numbers that words say.
ghost use Rattle.std.specs.Prelude.{◌≡◌};
ghost use Rattle.text.specs.Words.{is_digit, decimal_in, hex_value, two_digits, hex_in};

fn is_digit(c: u8) -> bool
    ensures { result ≡ is_digit c }
{
    matches!(c, b'0'..=b'9')
}

// What a word says in decimal.
#[tactic(auto, using(crate::proofs::Reading::decimal_none, crate::proofs::Reading::decimal_some, crate::proofs::Reading::decimal_over))]
pub fn decimal_in(word: &[u8]) -> Option<u8>
    ensures { result ≡ decimal_in word.now }
{
    if word.is_empty() {
        return None;
    }
    let mut value = 0u8;
    for c in word {
        if !is_digit(*c) {
            return None;
        }
        value = value.checked_mul(10)?.checked_add(*c - b'0')?;
    }
    Some(value)
}

// What a word says in hex.
#[tactic(auto, using(crate::proofs::Reading::hex_one, crate::proofs::Reading::hex_two, crate::proofs::Reading::hex_other))]
pub fn hex_in(word: &[u8]) -> Option<u8>
    ensures { result ≡ hex_in word.now }
{
    match word {
        [digit] => two_digits(b'0', *digit),
        [high, low] => two_digits(*high, *low),
        _ => None,
    }
}

fn two_digits(high: u8, low: u8) -> Option<u8>
    ensures { result ≡ two_digits high low }
{
    Some(16 * hex_value(high)? + hex_value(low)?)
}

fn hex_value(c: u8) -> Option<u8>
    ensures { result ≡ hex_value c }
{
    match c {
        b'0'..=b'9' => Some(c - b'0'),
        b'A'..=b'F' => Some(c - b'A' + 10),
        b'a'..=b'f' => Some(c - b'a' + 10),
        _ => None,
    }
}
