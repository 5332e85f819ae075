// What the program prints while a log arrives in pieces, as text in a lent run: a piece's words, and at the end what follows the line.
// Another lent run is where the log's list of pairs lives.
#![tactic(auto)]

ghost use Rattle.std.specs.Prelude.{◌≤◌, ◌≡◌, length, Some};
ghost use Rattle.filled.specs.Filled.{Stored};
ghost use Rattle.text.specs.Text as texts;
ghost use Rattle.log_reader.specs.Listed.{room};
ghost use Rattle.log_reader.specs.Views.{reader_of};
ghost use Rattle.play_text.specs.Played.{buffer, word_room, text_room, Shows, ShownWithin, Closes, EndingWithin};

use keylog::LogAnswer;
use log_reader::Reader;
use pairs::PAIRS_MOST;
use status_line::Printed;

// The longest piece: what the program's buffer holds.
pub const BUFFER: usize = 65536;
// A run of this length has room for the text of a piece, and for what follows the line.
pub const TEXT_ROOM: usize = 30252;
// A run of this length has room for the words of a piece.
const WORD_ROOM: usize = 10084;

// What a piece gave: the reader after it, and how many bytes of text were written.
#[derive(Clone, Copy)]
pub struct Piece {
    pub next: Reader,
    pub bytes: usize,
}

fn word_buffer() -> [u16; WORD_ROOM]
    ensures { word_room ≡ length result }
{
    [0; WORD_ROOM]
}

// The text of words at the front of a run where it fits. Answers the place behind it.
fn put_line(out: &mut [u8], words: &[u16]) -> usize
    requires { length (texts.text words.now) ≤ length out.old }
    ensures { Stored 0 (texts.text words.now) out.old result out.new }
{
    text::encode(words, out).unwrap()
}

// A piece that fits the buffer, read where there is room for its text.
fn put_piece(reader: Reader, list: &mut [u32], piece: &[u8], out: &mut [u8]) -> Piece
    requires piece_len_bound { length piece.now ≤ buffer }
    requires room_in_bounds { room ≤ length list.old }
    requires text_room_in_bounds { text_room ≤ length out.old }
    ensures shows { Shows (reader_of list.old reader) piece.now list.old out.old
        (Some result) list.new out.new }
    ensures shown_within { ShownWithin (length out.old) (Some result) }
{
    let mut words = word_buffer();
    let next = log_reader::feed(reader, list, piece, &mut words).reader;
    let n = next.words - reader.words;
    let bytes = put_line(out, &words[..n]);
    Piece { next, bytes }
}

// A piece of the log: the text that it brings, at the front of a run of at least `TEXT_ROOM` bytes. None where the piece is longer than
// `BUFFER`, the list's run has fewer than 64 numbers, or the run is shorter than `TEXT_ROOM`: then nothing was read and written.
pub fn show_piece(reader: Reader, list: &mut [u32], piece: &[u8], out: &mut [u8]) -> Option<Piece>
    ensures shows { Shows (reader_of list.old reader) piece.now list.old out.old
        result list.new out.new }
    ensures shown_within { ShownWithin (length out.old) result }
{
    if BUFFER < piece.len() || list.len() < PAIRS_MOST || out.len() < TEXT_ROOM {
        return None;
    }
    Some(put_piece(reader, list, piece, out))
}

// The log has ended: what follows the line, at the front of a run of at least `TEXT_ROOM` bytes. None where the list's run has fewer
// than 64 numbers, or the run is shorter than `TEXT_ROOM`: then nothing was written.
pub fn show_end(reader: Reader, list: &[u32], out: &mut [u8]) -> Option<Printed>
    ensures closes { Closes (reader_of list.now reader) list.now out.old result out.new }
    ensures ending_within { EndingWithin (length out.old) result }
{
    if list.len() < PAIRS_MOST || out.len() < TEXT_ROOM {
        return None;
    }
    let LogAnswer {
        number,
        offset,
        waiting,
        ..
    } = log_reader::end_log(reader, list).answer;
    let bytes = status_line::put_below(out, 0, number as u64, waiting as u64, offset as u64);
    Some(Printed {
        bytes,
        number,
        offset,
    })
}
