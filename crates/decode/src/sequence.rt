// One sequence of UTF-8: RFC 3629, section 3.
ghost use Rattle.std.specs.Prelude.{◌<◌, ◌≡◌};
ghost use Rattle.decode.specs.Sequences as sequences;
ghost use Rattle.decode.specs.Sequences.{sequence_of};

// A word, and how many bytes follow the first of its sequence.
#[derive(Clone, Copy)]
pub struct Sequence {
    pub word: u16,
    pub more: usize,
}

// Whether a byte continues a sequence.
#[tactic(auto, unfolding(crate::specs::Sequences::continues))]
fn continues(b: u8) -> bool
    ensures { result ≡ sequences.continues b }
{
    b / 64 == 0b10
}

// Bits of a code point, and the six of a byte that continues it.
fn joined(bits: u32, b: u8) -> u32
    requires { bits < 67108864 }
    ensures { result ≡ sequences.joined bits b }
{
    bits * 64 + (b % 64) as u32
}

// The forms of more than one byte, or none where the bytes are damaged.
#[tactic(auto, unfolding(crate::specs::Sequences::two, crate::specs::Sequences::within))]
fn two(a: u8, b: u8) -> Option<Sequence>
    ensures { sequence_of result ≡ sequences.two a b }
{
    let v = joined((a % 32) as u32, b);
    if continues(b) && (0x80..=0x7FF).contains(&v) {
        return Some(Sequence {
            word: v as u16,
            more: 1,
        });
    }
    None
}

#[tactic(auto, unfolding(crate::specs::Sequences::three, crate::specs::Sequences::within))]
fn three(a: u8, b: u8, c: u8) -> Option<Sequence>
    ensures { sequence_of result ≡ sequences.three a b c }
{
    let v = joined(joined((a % 16) as u32, b), c);
    let surrogate = (0xD800..=0xDFFF).contains(&v);
    if continues(b) && continues(c) && (0x800..=0xFFFF).contains(&v) && !surrogate {
        return Some(Sequence {
            word: v as u16,
            more: 2,
        });
    }
    None
}

#[tactic(auto, unfolding(crate::specs::Sequences::four, crate::specs::Sequences::within))]
fn four(a: u8, b: u8, c: u8, d: u8) -> Option<Sequence>
    ensures { sequence_of result ≡ sequences.four a b c d }
{
    let v = joined(joined(joined((a % 8) as u32, b), c), d);
    if continues(b) && continues(c) && continues(d) && (0x10000..=0x10FFFF).contains(&v) {
        return Some(Sequence { word: 0, more: 3 });
    }
    None
}

// The sequence at the front of some bytes.
#[tactic(auto, unfolding(crate::specs::Sequences::front))]
pub fn front(s: &[u8]) -> Option<Sequence>
    ensures { sequence_of result ≡ sequences.front s.now }
{
    let byte = |at: usize| s.get(at).copied().unwrap_or(0);
    let a = byte(0);
    match a {
        0b0000_0000..=0b0111_1111 => Some(Sequence {
            word: a as u16,
            more: 0,
        }),
        0b1100_0000..=0b1101_1111 => two(a, byte(1)),
        0b1110_0000..=0b1110_1111 => three(a, byte(1), byte(2)),
        0b1111_0000..=0b1111_0111 => four(a, byte(1), byte(2), byte(3)),
        _ => None,
    }
}
