// Reads keystrokes as text from a file or standard input and writes their log to standard output.
//
// The text is read whole, into one buffer of 4,194,432 bytes, as long as `notate` makes one, and the log is made in one of 1,048,576.
// Where a text is no notation, or is longer, or its log is, nothing is written to standard output, and standard error says why. So it is
// where the text can't be opened, or read to its end. Where standard output can't be written, standard error says why, and some of the log
// may have been written.
#![tactic(auto)]

mod messages;

ghost use Rattle.std.specs.Prelude.{◌≡◌, length};
ghost use Rattle.transcribe.specs.Answers.{text_room, log_room};

use input::{Failure, Program, Source};
use transcriber::Untranscribed;

const TEXT_ROOM: usize = 4194432;

const LOG_ROOM: usize = 1048576;

const TRANSCRIBE: Program = Program {
    name: "transcribe",
    usage: &[
        "usage: transcribe [TEXT] > LOG\n",
        "Writes the log of keystrokes that are written as text, with commas or line ends between them:\n",
        "T=100 J=50 L=50 solo=0, T_s=100 N=50 21+24=U+30F4, 21@0, 21 up@59, L@30, R up@60, fn@70, tick 99\n",
        "# begins a comment. Whether a log is accepted is not asked here: play tells. A text has at most 4194432\n",
        "bytes, and its log 1048576. Without TEXT, standard input is read.\n",
    ],
};

// A buffer that the longest text fills.
fn text_buffer() -> [u8; TEXT_ROOM]
    ensures { text_room ≡ length result }
{
    input::buffer(0)
}

// A buffer that the longest log fills.
fn log_buffer() -> [u8; LOG_ROOM]
    ensures { log_room ≡ length result }
{
    input::buffer(0)
}

fn transcribe(rt: &(impl Print + Eprint), from: &mut Source) -> Result<(), Failure> {
    let mut buf = text_buffer();
    let mut log = log_buffer();
    let Some(text) = input::read(from, &mut buf)? else {
        messages::print_longer(rt, &buf);
        return Ok(());
    };
    match transcriber::transcribe(text, &mut log) {
        Ok(n) => rt.write_all(&log[..n]).map_err(Failure::Output)?,
        Err(Untranscribed::Wrong(place, expected)) => messages::print_wrong(rt, place, expected),
        Err(Untranscribed::NoRoom) => messages::print_no_room(rt, &log),
        Err(Untranscribed::Unread) => unreachable!(),
    }
    Ok(())
}

fn main(rt: HostRuntime) {
    TRANSCRIBE.run(rt, |from| transcribe(&rt, from));
}
