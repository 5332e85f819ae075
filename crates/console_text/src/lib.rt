// What the program `console` prints of a console's log, as text in a lent run. specs/Sheet.antt says what it is.
#![tactic(auto)]

ghost use Rattle.std.specs.Prelude.{◌+◌, ◌*◌, ◌≤◌, ◌<◌, ◌≡◌, length};
ghost use Rattle.filled.specs.Filled.{Stored};
ghost use Rattle.text.specs.Text as texts;
ghost use Rattle.keylog.specs.Reader.{number_of};
ghost use Rattle.console_log.specs.Views.{told};
ghost use Rattle.console_text.specs.Sheet.{label, first_line, second_line, two_lines, lines_of, board_lines, lines_below};
ghost use Rattle.console_text.specs.Sheet.{refusal_line, console_lines};
ghost use Rattle.console_text.specs.Shows.{longest_log, word_room, text_room, one_text, line, size, told_by, shown, Shows, Within};

use console_log::{Console, KEYBOARDS, Stage};
use rules::Refusal;

// The longest log that is read.
pub const LONGEST_LOG: usize = 1048576;
// A run of this length has room for the text of every such log.
pub const TEXT_ROOM: usize = 371707;
// A run of this length has room for its words.
const WORD_ROOM: usize = 123362;

// A buffer of zeros: a result's length is known by its type, that of a new array would take too long to compute.
fn buffer<T: Copy>(zero: T) -> [T; WORD_ROOM]
    ensures { word_room ≡ length result }
{
    [zero; WORD_ROOM]
}

// `K: ` at a place where it fits. So the others: each answers the place behind what it put.
fn put_label(out: &mut [u8], at: usize, board: usize) -> usize
    requires { at + 22 ≤ length out.old }
    ensures stored { Stored at (label board) out.old result out.new }
    ensures upper_bound { result ≤ at + 22 }
{
    let behind = status_line::put_number(out, at, board as u64);
    status_line::put_bytes(out, behind, b": ")
}

// A word, if it is the keyboard's.
fn put_word(out: &mut [u8], at: usize, board: usize, named: usize, word: u16) -> usize
    requires { at + length (one_text board named word) ≤ length out.old }
    ensures { Stored at (one_text board named word) out.old result out.new }
{
    if named == board {
        return text::put(out, at, word);
    }
    at
}

// The words of one keyboard.
fn put_words(out: &mut [u8], at: usize, board: usize, boards: &[u8], words: &[u16]) -> usize
    requires boards_len { length boards.now ≡ length words.now }
    requires words_in_bounds { at + size board boards.now words.now ≤ length out.old }
    ensures { Stored at (texts.text (line board boards.now words.now))
        out.old result out.new }
{
    let mut next = at;
    for i in 0..words.len() {
        next = put_word(out, next, board, boards[i] as usize, words[i]);
    }
    next
}

fn put_first(out: &mut [u8], at: usize, board: usize, boards: &[u8], words: &[u16]) -> usize
    requires boards_len { length boards.now ≡ length words.now }
    requires words_in_bounds { at + 23 + size board boards.now words.now ≤ length out.old }
    ensures stored { Stored at (first_line board (line board boards.now words.now))
        out.old result out.new }
    ensures upper_bound { result ≤ at + 23 + size board boards.now words.now }
{
    let first = put_label(out, at, board);
    let second = put_words(out, first, board, boards, words);
    status_line::put_bytes(out, second, b"\n")
}

fn put_second(
    out: &mut [u8],
    at: usize,
    board: usize,
    number: u32,
    waiting: u32,
    offset: usize,
) -> usize
    requires { at + 75 ≤ length out.old }
    ensures stored { Stored at (second_line board number waiting offset) out.old result out.new }
    ensures upper_bound { result ≤ at + 75 }
{
    let first = put_label(out, at, board);
    let second = status_line::put_status(out, first, number as u64, waiting as u64, offset as u64);
    status_line::put_bytes(out, second, b"\n")
}

fn put_lines(
    out: &mut [u8],
    at: usize,
    board: usize,
    boards: &[u8],
    words: &[u16],
    number: u32,
    waiting: u32,
    offset: usize,
) -> usize
    requires boards_len { length boards.now ≡ length words.now }
    requires words_in_bounds { at + 98 + size board boards.now words.now ≤ length out.old }
    ensures stored { Stored at (two_lines board (line board boards.now words.now) number waiting offset)
        out.old result out.new }
    ensures upper_bound { result ≤ at + 98 + size board boards.now words.now }
{
    let first = put_first(out, at, board, boards, words);
    put_second(out, first, board, number, waiting, offset)
}

// What is printed of a keyboard whose log stands at a stage.
fn put_stage(
    out: &mut [u8],
    at: usize,
    board: usize,
    boards: &[u8],
    words: &[u16],
    waiting: u32,
    stage: Stage,
) -> usize
    requires boards_len { length boards.now ≡ length words.now }
    requires words_in_bounds { at + 98 + size board boards.now words.now ≤ length out.old }
    ensures stored { Stored at (lines_of board (line board boards.now words.now) waiting stage)
        out.old result out.new }
    ensures upper_bound { result ≤ at + 98 + size board boards.now words.now }
{
    match stage {
        Stage::Closed => at,
        Stage::Open => put_lines(out, at, board, boards, words, 0, waiting, 0),
        Stage::Ended(number, offset) => {
            put_lines(out, at, board, boards, words, number, waiting, offset)
        }
    }
}

// What is printed of one keyboard.
fn put_board(
    out: &mut [u8],
    at: usize,
    board: usize,
    c: Console,
    boards: &[u8],
    words: &[u16],
) -> usize
    requires board_bound { board < 16 }
    requires boards_len { length boards.now ≡ length words.now }
    requires words_in_bounds { at + 98 + size board boards.now words.now ≤ length out.old }
    ensures stored { Stored at (board_lines (told_by c boards.now words.now) board)
        out.old result out.new }
    ensures upper_bound { result ≤ at + 98 + size board boards.now words.now }
{
    let waiting = keylog::waiting(c.row[board].resting);
    put_stage(out, at, board, boards, words, waiting, c.seats[board].stage)
}

// What is printed of the keyboards, in order.
fn put_boards(out: &mut [u8], c: Console, boards: &[u8], words: &[u16]) -> usize
    requires boards_len { length boards.now ≡ length words.now }
    requires words_in_bounds { 1568 + 3 * length words.now ≤ length out.old }
    ensures stored { Stored 0 (lines_below (told_by c boards.now words.now) 16)
        out.old result out.new }
    ensures upper_bound { result ≤ 1568 + 3 * length words.now }
{
    let mut at = 0;
    for board in 0..KEYBOARDS {
        at = put_board(out, at, board, c, boards, words);
    }
    at
}

// `refused N at OFFSET` of the whole log, if it was.
fn put_refusal(out: &mut [u8], at: usize, refusal: Option<Refusal>, offset: usize) -> usize
    requires { at + 53 ≤ length out.old }
    ensures stored { Stored at (refusal_line (number_of (told refusal)) offset) out.old result out.new }
    ensures upper_bound { result ≤ at + 53 }
{
    let Some(refusal) = refusal else {
        return at;
    };
    let first = status_line::put_status(out, at, refusal.number() as u64, 0, offset as u64);
    status_line::put_bytes(out, first, b"\n")
}

fn put_console(out: &mut [u8], c: Console, boards: &[u8], words: &[u16]) -> usize
    requires boards_len { length boards.now ≡ length words.now }
    requires words_in_bounds { 1621 + 3 * length words.now ≤ length out.old }
    ensures stored { Stored 0 (console_lines (told_by c boards.now words.now))
        out.old result out.new }
    ensures upper_bound { result ≤ 1621 + 3 * length words.now }
{
    let first = put_boards(out, c, boards, words);
    put_refusal(out, first, c.refusal, c.offset)
}

// A log read where there is room for its text.
fn put_log(log: &[u8], out: &mut [u8]) -> usize
    requires { text_room ≤ length out.old }
    ensures stored { Stored 0 (shown log.now) out.old result out.new }
    ensures upper_bound { result ≤ text_room }
{
    let mut boards: [u8; WORD_ROOM] = buffer(0);
    let mut words: [u16; WORD_ROOM] = buffer(0);
    let c = console_log::read_console(log, &mut boards, &mut words);
    let n = c.words;
    put_console(out, c, &boards[..n], &words[..n])
}

// A console's log: how many bytes the text that the program prints has, at the front of a run of at least `TEXT_ROOM` bytes. None where the
// log is longer than `LONGEST_LOG`, or the run is shorter: nothing was read, and nothing was written.
pub fn show(log: &[u8], out: &mut [u8]) -> Option<usize>
    ensures shows { Shows log.now out.old result out.new }
    ensures within { Within (length out.old) result }
{
    if LONGEST_LOG < log.len() || out.len() < TEXT_ROOM {
        return None;
    }
    Some(put_log(log, out))
}
