// UTF-8 text as words, one for each character. Damaged bytes are refused with their position.
#![tactic(auto)]

mod sequence;
mod words;

ghost use Rattle.std.specs.Prelude.{◌≡◌, length};
ghost use Rattle.decode.specs.Decoding.{decoded, count_of, run_after, Fits, Decodes};

use words::Words;

// Why bytes give no words. Nothing was written then.
#[derive(Clone, Copy)]
pub enum DecodeError {
    // The sequence at this position is damaged.
    Damaged(usize),
    // The words do not fit.
    NoRoom,
}

// How many words bytes give.
fn measure(bytes: &[u8]) -> Result<usize, DecodeError>
    ensures { result ≡ count_of (decoded bytes.now) }
{
    let mut n = 0;
    for word in (Words { bytes, at: 0 }) {
        word?;
        n += 1;
    }
    Ok(n)
}

// The words of bytes that have no damage, in a run that they fit.
fn fill(bytes: &[u8], out: &mut [u16])
    requires { Fits (length out.old) (decoded bytes.now) }
    ensures { out.new ≡ run_after out.old (decoded bytes.now) }
{
    for (n, word) in (Words { bytes, at: 0 }).enumerate() {
        if let Ok(word) = word {
            out[n] = word;
        }
    }
}

// Bytes read as UTF-8 into the front of a run: how many words that gave, or why it gave none.
pub fn decode(bytes: &[u8], out: &mut [u16]) -> Result<usize, DecodeError>
    ensures { Decodes bytes.now out.old result out.new }
{
    let n = measure(bytes)?;
    if out.len() < n {
        return Err(DecodeError::NoRoom);
    }
    fill(bytes, out);
    Ok(n)
}
