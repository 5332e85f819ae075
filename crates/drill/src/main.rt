// Reads a line of text from a file or standard input and writes the log that plays it to standard output.
//
// Where a text has no log, or the arguments are no settings, nothing is written to standard output, and standard error says why.
// So it is where the text can't be opened, or read to its end. Where standard output can't be written, standard error says why, and some
// of the log may have been written.
#![tactic(auto)]

mod arguments;
mod lines;
mod messages;

ghost use Rattle.std.specs.Prelude.{◌≡◌, length};
ghost use Rattle.drill.specs.Texts.{longest_text};
ghost use Rattle.drill.specs.Room.{log_room};

use input::{Failure, Program, Source};
use lines::LONGEST_TEXT;
use rules::Settings;

// An accepted character has three bytes of UTF-8, so a text of 65,536 bytes has at most 21,845 of them. The strokes of one take at
// most 65 bytes, and the settings take 8.
const LOG_ROOM: usize = 1419933;

const DRILL: Program = Program {
    name: "drill",
    usage: &[
        "usage: drill [T J L SOLO] [LINE] > LOG\n",
        "Writes the log that plays a line of UTF-8 text. T is 50 to 1000 milliseconds, J and L are 1\n",
        "to 99 percent, SOLO is 0 or 1; without them they are 100 50 50 0. The line has at most 65536\n",
        "bytes with its line end, that is at most 21845 characters. Where a line has no log, nothing is\n",
        "written, and standard error says why. LINE is a file with the line; without it, standard input is read.\n",
    ],
};

// The buffer into which the text is read.
fn text_buffer() -> [u8; LONGEST_TEXT]
    ensures { longest_text ≡ length result }
{
    input::buffer(0)
}

// Room for the log of any text.
fn log_buffer() -> [u8; LOG_ROOM]
    ensures { log_room ≡ length result }
{
    input::buffer(0)
}

fn drill(rt: &(impl Print + Eprint), settings: Settings, from: &mut Source) -> Result<(), Failure> {
    let mut buf = text_buffer();
    let mut log = log_buffer();
    let Some(text) = input::read(from, &mut buf)? else {
        messages::print_longer(rt, &buf);
        return Ok(());
    };
    match lines::write(settings, text, &mut log) {
        Ok(n) => rt.write_all(&log[..n]).map_err(Failure::Output)?,
        Err(why) => messages::print_unwritten(rt, why, lines::line(text)),
    }
    Ok(())
}

fn main(rt: HostRuntime) {
    match arguments::read(&rt) {
        Ok((settings, file)) => DRILL.run_on(rt, file, move |from| drill(&rt, settings, from)),
        Err(usage) => DRILL.print_usage(rt, usage),
    }
}
