// What the program `opinion` prints of a log, as text in a lent run. specs/Verdict.antt says what it is.
#![tactic(auto)]

ghost use Rattle.std.specs.Prelude.{◌+◌, ◌*◌, ◌/◌, ◌≤◌, ◌≡◌, length, Some};
ghost use Rattle.filled.specs.Filled.{Stored};
ghost use Rattle.text.specs.Text as texts;
ghost use Rattle.opinion_text.specs.Verdict.{unpacked, lines};
ghost use Rattle.opinion_text.specs.Shows.{longest_log, packed_room, text_room, Shows, Within};

use status_line::Printed;

// The longest log that is read.
pub const LONGEST_LOG: usize = 1048576;
// A run of this length has room for the text of every such log.
pub const TEXT_ROOM: usize = 484011;
// A run of this length has room for its words, two bytes each.
const PACKED_ROOM: usize = 322638;

// A buffer of zeros: a result's length is known by its type, that of a new array would take too long to compute.
fn buffer() -> [u8; PACKED_ROOM]
    ensures { packed_room ≡ length result }
{
    [0; PACKED_ROOM]
}

// A word of two bytes.
fn word(high: u8, low: u8) -> u16
    ensures { result ≡ high * 256 + low }
{
    u16::from_be_bytes([high, low])
}

// The text of words at the front of a run. Answers the place behind it.
fn put_words(out: &mut [u8], packed: &[u8]) -> usize
    requires { 3 * (length packed.now / 2) ≤ length out.old }
    ensures stored { Stored 0 (texts.text (unpacked packed.now)) out.old result out.new }
    ensures upper_bound { result ≤ 3 * (length packed.now / 2) }
{
    let mut rest = packed;
    let mut at = 0;
    while 2 <= rest.len() {
        at = text::put(out, at, word(rest[0], rest[1]));
        rest = &rest[2..];
    }
    at
}

// The whole text: the words, and what follows the line.
fn put_lines(out: &mut [u8], packed: &[u8], number: u32, waiting: u32, offset: usize) -> usize
    requires { 3 * (length packed.now / 2) + 54 ≤ length out.old }
    ensures stored { Stored 0 (lines (unpacked packed.now) number waiting offset) out.old result out.new }
    ensures upper_bound { result ≤ length out.old }
{
    let first = put_words(out, packed);
    status_line::put_below(out, first, number as u64, waiting as u64, offset as u64)
}

// A log looked over where there is room for its text.
fn put_log(log: &[u8], out: &mut [u8]) -> Printed
    requires log_len_bound { length log.now ≤ longest_log }
    requires text_room_in_bounds { text_room ≤ length out.old }
    ensures shows { Shows log.now out.old (Some result) out.new }
    ensures within { result.bytes ≤ length out.old }
{
    let mut packed = buffer();
    let answer = second_opinion::opine(log, &mut packed);
    let n = 2 * answer.words;
    let bytes = put_lines(
        out,
        &packed[..n],
        answer.number,
        answer.waiting,
        answer.offset,
    );
    Printed {
        bytes,
        number: answer.number,
        offset: answer.offset,
    }
}

// A log: the text that the program prints, at the front of a run of at least `TEXT_ROOM` bytes. None where the log is longer than
// `LONGEST_LOG`, or the run is shorter: nothing was read, and nothing was written.
pub fn show(log: &[u8], out: &mut [u8]) -> Option<Printed>
    ensures shows { Shows log.now out.old result out.new }
    ensures within { Within (length out.old) result }
{
    if LONGEST_LOG < log.len() || out.len() < TEXT_ROOM {
        return None;
    }
    Some(put_log(log, out))
}
