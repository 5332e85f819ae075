// Decimal numbers.
#![tactic(auto)]

ghost use Rattle.std.specs.Prelude.{◌≡◌};
ghost use Rattle.decimals.specs.Decimals.{is_digit, extended, parsed, number_of};

#[tactic(auto, unfolding(crate::specs::Decimals::is_digit))]
pub fn digit(b: u8) -> bool
    ensures { result ≡ is_digit b }
{
    b.is_ascii_digit()
}

// A number with one more byte behind its digits.
#[tactic(auto, unfolding(crate::specs::Decimals::extended, crate::specs::Decimals::is_digit))]
fn extend(n: u16, b: u8) -> Option<u16>
    ensures { number_of result ≡ extended n b }
{
    if !digit(b) {
        return None;
    }
    n.checked_mul(10)?.checked_add((b - b'0') as u16)
}

// A decimal number from 0 to 65,535: at least one digit, and only digits. Zeros may stand in front.
#[tactic(auto, using(crate::proofs::Digits::reading))]
pub fn parse(bytes: &[u8]) -> Option<u16>
    ensures { number_of result ≡ parsed bytes.now }
{
    if bytes.is_empty() {
        return None;
    }
    let mut n = 0;
    for b in bytes {
        n = extend(n, *b)?;
    }
    Some(n)
}
