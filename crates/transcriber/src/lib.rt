// Keystrokes as text, transcribed to a log: what the notation is, is said in crates/notation.
#![tactic(auto)]

mod places;
mod signs;
mod state;
mod steps;
mod walking;
mod writing;

ghost use Rattle.std.specs.Prelude.{◌≡◌, length};
ghost use Rattle.transcriber.specs.Transcribes.{Transcribes};

use notation::Expected;
pub use places::Place;
use walking::walk;

// Why a text gave no log. Nothing was written.
#[derive(Clone, Copy)]
pub enum Untranscribed {
    // It is no notation: where, and what was expected there.
    Wrong(Place, Expected),
    // The log does not fit.
    NoRoom,
    // The text is longer than `LONGEST_TEXT`: nothing was read.
    Unread,
}

// The longest text that is read, so that no sum of sizes wraps.
pub const LONGEST_TEXT: usize = 4294967296;

// A text, transcribed to a log at the front of a run. Answers how many bytes the log has.
pub fn transcribe(text: &[u8], out: &mut [u8]) -> Result<usize, Untranscribed>
    ensures { Transcribes text.now out.old result out.new }
{
    if LONGEST_TEXT < text.len() {
        return Err(Untranscribed::Unread);
    }
    let size = walk::<false>(text, out)?;
    if out.len() < size {
        return Err(Untranscribed::NoRoom);
    }
    walk::<true>(text, out)
}
