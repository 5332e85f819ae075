// The bytes of a text: digits, blanks, ends of entries, and signs packed as one number.
ghost use Rattle.std.specs.Prelude.{◌<◌, ◌≡◌, IfSome, unwrap_or};
ghost use Rattle.notation.specs.Transcribing as notation;

// The value of a digit. Letters are digits only in a code point.
#[tactic(auto, unfolding(decimals::specs::Decimals::is_digit, notation::specs::Transcribing::digit_value))]
pub fn digit_value(letters: bool, b: u8) -> Option<u32>
    ensures value { unwrap_or result 16 ≡ notation.digit_value letters b }
    ensures small { IfSome result (λ d. d < 16) }
{
    (b as char).to_digit(if letters { 16 } else { 10 })
}

#[tactic(auto, unfolding(notation::specs::Transcribing::is_blank))]
pub fn is_blank(b: u8) -> bool
    ensures { result ≡ notation.is_blank b }
{
    matches!(b, b' ' | b'\t' | b'\r')
}

// At a comma, a line's end or a comment.
#[tactic(auto, unfolding(notation::specs::Transcribing::ends_entry))]
pub fn ends_entry(b: u8) -> bool
    ensures { result ≡ notation.ends_entry b }
{
    matches!(b, b',' | b'\n' | b'#')
}

// More signs than an entry has are left as they are.
const MOST_SIGNS: u64 = 0x1_0000_0000_0000;

#[tactic(auto, unfolding(notation::specs::Transcribing::with_sign))]
pub fn with_sign(signs: u64, b: u8) -> u64
    ensures { result ≡ notation.with_sign signs b }
{
    if signs < MOST_SIGNS {
        signs * 256 + b as u64
    } else {
        signs
    }
}
