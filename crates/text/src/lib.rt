// Words of the log reader as text: code points in UTF-8, the marks as `<L>` and `<R>`. Every 16-bit word has a text: 0 is the
// byte 0, and a surrogate takes the form of three bytes.
#![tactic(auto)]

ghost use Rattle.std.specs.Prelude.{◌+◌, ◌≤◌, ◌≡◌, leb, length};
ghost use Rattle.text.specs.Utf8.{utf8};
ghost use Rattle.text.specs.Text.{sign, text, Encodes};
ghost use Rattle.text.specs.Puts.{Puts};

// The bytes that a word takes.
#[tactic(auto, unfolding(crate::specs::Text::sign, crate::specs::Utf8::utf8))]
fn width(w: u16) -> usize
    ensures value { result ≡ length (sign w) }
    ensures upper_bound { result ≤ 3 }
{
    match w {
        1 | 2 => 3,
        0..128 => 1,
        128..2048 => 2,
        _ => 3,
    }
}

// The bytes that words take.
pub fn size(words: &[u16]) -> usize
    ensures { result ≡ length (text words.now) }
{
    words.iter().map(|w| width(*w)).sum()
}

// Whether so many bytes fit at a place of a run that has room for so many in all.
pub fn has_room(room: usize, at: usize, count: usize) -> bool
    ensures { result ≡ leb (at + count) room }
{
    at <= room && count <= room - at
}

// Some bytes at a place; answers the place behind them. Where they don't fit, nothing is written, and the answer is the place itself.
// So the others. The answer is no Option, since `Puts` gives a place either way, from which the next is put.
pub fn put_bytes(out: &mut [u8], at: usize, bytes: &[u8]) -> usize
    ensures { Puts at bytes.now out.old result out.new }
{
    if has_room(out.len(), at, bytes.len()) {
        let behind = at + bytes.len();
        out[at..behind].copy_from_slice(bytes);
        return behind;
    }
    at
}

// A code point in UTF-8.
#[tactic(auto, unfolding(crate::specs::Utf8::utf8))]
fn put_utf8(out: &mut [u8], at: usize, w: u16) -> usize
    ensures { Puts at (utf8 w) out.old result out.new }
{
    let last = (128 + w % 64) as u8;
    match w {
        0..128 => put_bytes(out, at, &[w as u8]),
        128..2048 => put_bytes(out, at, &[(192 + w / 64) as u8, last]),
        _ => {
            let first = (224 + w / 4096) as u8;
            put_bytes(out, at, &[first, (128 + w / 64 % 64) as u8, last])
        }
    }
}

// A word's text.
#[tactic(auto, unfolding(crate::specs::Text::sign))]
pub fn put(out: &mut [u8], at: usize, w: u16) -> usize
    ensures { Puts at (sign w) out.old result out.new }
{
    match w {
        1 => put_bytes(out, at, b"<L>"),
        2 => put_bytes(out, at, b"<R>"),
        _ => put_utf8(out, at, w),
    }
}

// The text of words at the front of a run, in so many bytes, or nothing where it does not fit.
pub fn encode(words: &[u16], out: &mut [u8]) -> Option<usize>
    ensures { Encodes words.now out.old result out.new }
{
    if out.len() < size(words) {
        return None;
    }
    let mut at = 0;
    for w in words {
        at = put(out, at, *w);
    }
    Some(at)
}
