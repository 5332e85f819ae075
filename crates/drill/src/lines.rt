// The log of a text.
ghost use Rattle.std.specs.Prelude.{◌≤◌, ◌≡◌, length};
ghost use Rattle.drill.specs.Texts.{longest_text, line_of, Within, Answers, Drills};
ghost use Rattle.drill.specs.Room.{log_room, Not8};

use decode::DecodeError;
use rules::Settings;
use writer::Drilled;

// The longest text that the program reads.
pub const LONGEST_TEXT: usize = 65536;

// Why a text has no log.
#[derive(Clone, Copy)]
pub enum Unwritten {
    // The writer refuses it with this number, at this character.
    Refused(u32, usize),
    // It is not UTF-8 at this byte.
    Damaged(usize),
}

// A text's line: a line end behind it does not belong to it.
#[tactic(auto, using(crate::proofs::Ends::ends), unfolding(crate::specs::Texts::line_size))]
pub fn line(text: &[u8]) -> &[u8]
    ensures { result.now ≡ line_of text.now }
{
    text.strip_suffix(b"\n").unwrap_or(text)
}

// Room for the words of any text: none has more words than bytes.
fn word_buffer() -> [u16; LONGEST_TEXT]
    ensures { longest_text ≡ length result }
{
    input::buffer(0)
}

// The log of a line at the front of a run: how many bytes it has.
fn write_line(settings: Settings, line: &[u16], log: &mut [u8]) -> Result<usize, Unwritten>
    ensures { Answers settings line.now log.old result log.new }
{
    match writer::write(settings, line, log) {
        Drilled {
            number: 0,
            bytes,
            ..
        } => Ok(bytes),
        Drilled {
            number,
            position,
            ..
        } => Err(Unwritten::Refused(number, position)),
    }
}

// The log of a text at the front of a run with room for it: how many bytes it has.
pub fn write(settings: Settings, text: &[u8], log: &mut [u8]) -> Result<usize, Unwritten>
    requires text_len_bound { length text.now ≤ longest_text }
    requires log_room_in_bounds { log_room ≤ length log.old }
    ensures drills { Drills settings text.now log.old result log.new }
    ensures within { Within (length log.old) result }
    ensures not_8 { Not8 result }
{
    let mut words = word_buffer();
    match decode::decode(line(text), &mut words) {
        Ok(n) => write_line(settings, &words[..n], log),
        Err(DecodeError::Damaged(position)) => Err(Unwritten::Damaged(position)),
        Err(DecodeError::NoRoom) => unreachable!(),
    }
}
