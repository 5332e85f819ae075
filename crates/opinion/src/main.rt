// Reads a log from a file or standard input and prints the second opinion on it, in the form in which `play` prints what the reader says.
//
// The log is read whole, into one buffer of 1,048,576 bytes. Of a longer one nothing is read: `refused 9 at 1048576`. Where the log
// can't be opened, or read to its end, standard error says why, and nothing is printed. Where standard output can't be written, standard
// error says why, and some of the text may have been written.
#![tactic(auto)]

ghost use Rattle.std.specs.Prelude.{◌≤◌, ◌≡◌, length};
ghost use Rattle.opinion_text.specs.Shows.{longest_log, text_room};

use input::{Failure, Program, Source};
use meanings::Meaning;
use opinion_text::{LONGEST_LOG, TEXT_ROOM};
use status_line::Printed;

const OPINION: Program = Program {
    name: "opinion",
    usage: &[
        "usage: opinion [LOG]\n",
        "Prints the second opinion on a recorded log, which is what `play` prints of it: the line, and below it\n",
        "`waiting N`, or `refused N at OFFSET`, where standard error says what the refusal means. A log with\n",
        "pairs is refused 14. A log of more than 1048576 bytes is refused 9. Without LOG, standard input is read.\n",
    ],
};

// A buffer that the longest log fills.
fn log_buffer() -> [u8; LONGEST_LOG]
    ensures { longest_log ≡ length result }
{
    input::buffer(0)
}

// Room for the text of any log.
fn text_buffer() -> [u8; TEXT_ROOM]
    ensures { text_room ≡ length result }
{
    input::buffer(0)
}

// Prints what is said of a log that begins with these bytes and has more.
fn print_longer(rt: &(impl Print + Eprint), start: &[u8]) -> Result<(), Failure>
    requires { longest_log ≤ length start.now }
{
    rt.write_all(b"refused 9 at 1048576\n")
        .map_err(Failure::Output)?;
    let _ = eprintln!(rt; "opinion: the log is longer than 1048576 bytes");
    Ok(())
}

// What a log's number means, on standard error, in parts (docs/DECISIONS.md). Nothing for 0. There is room for all words, so 8 does not
// come.
fn explain(rt: &impl Eprint, number: u32, offset: usize) {
    if number != 0 {
        let _ = eprint!(rt; "opinion: record at byte {offset}: ");
        let _ = eprintln!(rt; "{}", Meaning(number as u64));
    }
}

fn print_opinion(rt: &(impl Print + Eprint), from: &mut Source) -> Result<(), Failure> {
    let mut buf = log_buffer();
    let mut out = text_buffer();
    let Some(log) = input::read(from, &mut buf)? else {
        return print_longer(rt, &buf);
    };
    let Printed {
        bytes,
        number,
        offset,
    } = opinion_text::show(log, &mut out).unwrap();
    rt.write_all(&out[..bytes]).map_err(Failure::Output)?;
    explain(rt, number, offset);
    Ok(())
}

fn main(rt: HostRuntime) {
    OPINION.run(rt, |from| print_opinion(&rt, from));
}
