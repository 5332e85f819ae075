// Reads a log from a file or standard input and writes its keystrokes as text to standard output, as `transcribe` reads them.
//
// The log is read whole, into one buffer of 1,048,576 bytes, and the text is made in one of 4,194,432. Of a refused log the text is that of
// the records before the refused one; a comment in the last line, and standard error, say which record is refused and why. Of a log that
// is longer nothing is written, and standard error says so. So it is where the log can't be opened, or read to its end. Where standard
// output can't be written, standard error says why, and some of the text may have been written.
#![tactic(auto)]

ghost use Rattle.std.specs.Prelude.{◌≤◌, ◌≡◌, length};
ghost use Rattle.notator.specs.Notates.{longest_log};
ghost use Rattle.notate.specs.Texts.{text_room};

use input::{Failure, Program, Source};
use meanings::Meaning;
use notator::{LONGEST_LOG, ROOM_BESIDES, ROOM_PER_BYTE};
use status_line::Printed;

// Room for the text of every log that is read.
const TEXT_ROOM: usize = ROOM_PER_BYTE * LONGEST_LOG + ROOM_BESIDES;

const NOTATE: Program = Program {
    name: "notate",
    usage: &[
        "usage: notate [LOG] > TEXT\n",
        "Writes the keystrokes of a recorded log as text, one record a line:\n",
        "T=100 J=50 L=50 solo=0, T_s=100 N=50 21+24=U+30F4, 21@0, 21 up@59, L@30, R up@60, fn@70, tick 99\n",
        "`transcribe` makes the log of it again. A refused log is written up to the record that is refused, and\n",
        "a last line `# refused N at OFFSET: ..`, and standard error, say why. A log has at most 1048576 bytes.\n",
        "Without LOG, standard input is read.\n",
    ],
};

// A buffer that the longest log fills.
fn log_buffer() -> [u8; LONGEST_LOG]
    ensures { longest_log ≡ length result }
{
    input::buffer(0)
}

// Room for the text of any log.
fn text_buffer() -> [u8; TEXT_ROOM]
    ensures { text_room ≡ length result }
{
    input::buffer(0)
}

// Says that a log that begins with these bytes and has more is too long.
fn print_longer(rt: &impl Eprint, start: &[u8])
    requires { longest_log ≤ length start.now }
{
    let _ = eprintln!(rt;
        "notate: the log is longer than 1048576 bytes, nothing is written: `head -c 1048576` takes its front"
    );
}

// What a log's number means, on standard error, in parts (docs/DECISIONS.md). Nothing for 0.
fn explain(rt: &impl Eprint, number: u32, offset: usize) {
    if number != 0 {
        let _ = eprint!(rt; "notate: record at byte {offset}: ");
        let _ = eprintln!(rt; "{}", Meaning(number as u64));
    }
}

fn notate(rt: &(impl Print + Eprint), from: &mut Source) -> Result<(), Failure> {
    let mut buf = log_buffer();
    let mut out = text_buffer();
    let Some(log) = input::read(from, &mut buf)? else {
        print_longer(rt, &buf);
        return Ok(());
    };
    let Printed {
        bytes,
        number,
        offset,
    } = notator::notate(log, &mut out).unwrap();
    rt.write_all(&out[..bytes]).map_err(Failure::Output)?;
    explain(rt, number, offset);
    Ok(())
}

fn main(rt: HostRuntime) {
    NOTATE.run(rt, |from| notate(&rt, from));
}
