// Reads a log from a file or standard input and prints its line, and what waits or was refused.
//
// The log is read through one buffer, filled again and again, and what a piece brings is printed before the next is read. So a log of
// any length takes the same memory, and a slow line is printed as it comes. What a refusal means is said on standard error. Where the
// log can't be opened, or read to its end, standard error says why, and the line as far as it was printed stands, with no status below
// it: what was read is not the log. Where standard output can't be written, standard error says why, and some of the text may have been
// written.
#![tactic(auto)]

mod messages;

ghost use Rattle.std.specs.Prelude.{◌≤◌, ◌≡◌, length};
ghost use Rattle.input.specs.Reads.{Taken};
ghost use Rattle.log_reader.specs.Listed.{room};
ghost use Rattle.log_reader.specs.Views.{reader_of};
ghost use Rattle.play_text.specs.Played.{buffer, text_room, played};
ghost use Rattle.play_text.specs.HoweverPlayed.{Reached};
ghost use Rattle.play.specs.Turns.{Turns};

use input::{Failure, Program, Source};
use log_reader::Reader;
use play_text::{BUFFER, Piece, TEXT_ROOM};
use status_line::Printed;
use std::ops::ControlFlow;

const PLAY: Program = Program {
    name: "play",
    usage: &[
        "usage: play [LOG]\n",
        "Prints the line that a recorded log gives, and below it `waiting N`, or `refused N at OFFSET`,\n",
        "where standard error says what the refusal means. The line is printed as the log arrives.\n",
        "Without LOG, standard input is read.\n",
    ],
};

// The buffer through which the log is read.
fn log_buffer() -> [u8; BUFFER]
    ensures { buffer ≡ length result }
{
    input::buffer(0)
}

// Room for the text of any piece, and of the end.
fn text_buffer() -> [u8; TEXT_ROOM]
    ensures { text_room ≡ length result }
{
    input::buffer(0)
}

// Reads what there is of the log into the whole buffer.
fn read_piece(from: &mut Source, log: &mut [u8]) -> std::io::Result<Option<usize>>
    requires { buffer ≡ length log.old }
    ensures { Taken (length log.old) result }
{
    input::read_from(from, log)
}

// Reads a piece and prints the text that it brings: the log goes on, or a record was refused and nothing behind it is read. The log's list
// of pairs lives in a run of its own.
fn play_piece(
    rt: &impl Print,
    reader: Reader,
    list: &mut [u32],
    piece: &[u8],
    out: &mut [u8],
) -> Result<ControlFlow<Reader, Reader>, Failure>
    requires piece_len_bound { length piece.now ≤ buffer }
    requires room_in_bounds { room ≤ length list.old }
    requires text_room_in_bounds { text_room ≤ length out.old }
    ensures { Turns list.new (played (reader_of list.old reader) piece.now).reader result }
{
    let Piece { next, bytes } = play_text::show_piece(reader, list, piece, out).unwrap();
    rt.write_all(&out[..bytes]).map_err(Failure::Output)?;
    Ok(match next.told {
        None => ControlFlow::Continue(next),
        Some(_) => ControlFlow::Break(next),
    })
}

// The log has ended, or was refused: prints what follows the line, and what a refusal means.
fn finish(
    rt: &(impl Print + Eprint),
    reader: Reader,
    list: &[u32],
    out: &mut [u8],
) -> Result<(), Failure>
    requires reached { Reached (reader_of list.now reader) }
    requires room_in_bounds { room ≤ length list.now }
    requires text_room_in_bounds { text_room ≤ length out.old }
{
    let Printed {
        bytes,
        number,
        offset,
    } = play_text::show_end(reader, list, out).unwrap();
    rt.write_all(&out[..bytes]).map_err(Failure::Output)?;
    messages::explain(rt, number, offset);
    Ok(())
}

// Reads a log piece by piece to its end. It comes to one: each piece has a byte at least, and the reader counts them.
fn play(rt: &(impl Print + Eprint), from: &mut Source) -> Result<(), Failure> {
    let mut log = log_buffer();
    let mut list = log_reader::pair_buffer();
    let mut out = text_buffer();
    let mut reader = log_reader::fresh();
    while let Some(n) = read_piece(from, &mut log)? {
        match play_piece(rt, reader, &mut list, &log[..n], &mut out)? {
            ControlFlow::Continue(next) => reader = next,
            ControlFlow::Break(last) => return finish(rt, last, &list, &mut out),
        }
    }
    finish(rt, reader, &list, &mut out)
}

fn main(rt: HostRuntime) {
    PLAY.run(rt, |from| play(&rt, from));
}
