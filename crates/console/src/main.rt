// Reads a console's log from a file or standard input and prints, for each keyboard that it names, its line and what waits there or was
// refused.
//
// The log is read whole, into one buffer of 1,048,576 bytes. Of a longer one nothing is read: `refused 9 at 1048576`. Where the log
// can't be opened, or read to its end, standard error says why, and nothing is printed. Where standard output can't be written, standard
// error says why, and some of the text may have been written.
#![tactic(auto)]

ghost use Rattle.std.specs.Prelude.{◌≤◌, ◌≡◌, length};
ghost use Rattle.console_text.specs.Shows.{longest_log, text_room};

use console_text::{LONGEST_LOG, TEXT_ROOM};
use input::{Failure, Program, Source};

const CONSOLE: Program = Program {
    name: "console",
    usage: &[
        "usage: console [LOG]\n",
        "Prints, for each keyboard K that a console's log names, `K: ` and its line, and below it `K: ` and\n",
        "`waiting N` or `refused N at OFFSET`; last, if the whole log was refused, `refused N at OFFSET`.\n",
        "A log of more than 1048576 bytes is refused 9. Without LOG, standard input is read.\n",
    ],
};

// A buffer that the longest log fills.
fn log_buffer() -> [u8; LONGEST_LOG]
    ensures { longest_log ≡ length result }
{
    input::buffer(0)
}

// Room for the text of any log.
fn text_buffer() -> [u8; TEXT_ROOM]
    ensures { text_room ≡ length result }
{
    input::buffer(0)
}

// Prints what is said of a log that begins with these bytes and has more.
fn print_longer(rt: &impl Print, start: &[u8]) -> Result<(), Failure>
    requires { longest_log ≤ length start.now }
{
    rt.write_all(b"refused 9 at 1048576\n")
        .map_err(Failure::Output)
}

fn print_console(rt: &impl Print, from: &mut Source) -> Result<(), Failure> {
    let mut buf = log_buffer();
    let mut out = text_buffer();
    let Some(log) = input::read(from, &mut buf)? else {
        return print_longer(rt, &buf);
    };
    let bytes = console_text::show(log, &mut out).unwrap();
    rt.write_all(&out[..bytes]).map_err(Failure::Output)
}

fn main(rt: HostRuntime) {
    CONSOLE.run(rt, |from| print_console(&rt, from));
}
