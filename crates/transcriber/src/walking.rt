// A text byte by byte: how long its log is, or where it is no notation.
ghost use Rattle.std.specs.Prelude.{◌≤◌, ◌≡◌, IsTrue, length, slice_index_or};
ghost use Rattle.choice.specs.Choice.{if◌then◌orelse◌};
ghost use Rattle.filled.specs.Filled.{filled};
ghost use Rattle.notation.specs.Transcribing.{line_end, transcribed};
ghost use Rattle.transcriber.specs.Transcribes.{longest_text, measured, log_of, Fits};

use crate::Untranscribed;
use crate::places::place_behind;
use crate::state::State;
use crate::writing::put_output;

// The byte at a place: the end counts as a line end.
fn byte_at(text: &[u8], at: usize) -> u8
    ensures { result ≡ slice_index_or text.now at line_end }
{
    text.get(at).copied().unwrap_or(b'\n')
}

// Answers how many bytes the log has. It is written at the front of a run, where it is known to fit, or only measured.
pub fn walk<const WRITES: bool>(text: &[u8], out: &mut [u8]) -> Result<usize, Untranscribed>
    requires text_len_bound { length text.now ≤ longest_text }
    requires fits { IsTrue WRITES → Fits (transcribed text.now) (length out.old) }
    ensures value { result ≡ measured text.now (transcribed text.now) }
    ensures run_holds { out.new ≡ if WRITES then filled (log_of (transcribed text.now)) out.old orelse out.old }
{
    let mut state = State::begin();
    for i in 0..=text.len() {
        match state.advance(byte_at(text, i)) {
            Ok((next, output)) => {
                if WRITES {
                    put_output(out, state, output);
                }
                state = next;
            }
            Err(expected) => {
                return Err(Untranscribed::Wrong(place_behind(&text[..i]), expected));
            }
        }
    }
    Ok(state.records)
}
