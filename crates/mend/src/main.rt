// Reads a damaged log from a file or standard input and writes the mended one to standard output. Standard error says what was dropped.
//
// The log is read whole, into one buffer of 1,048,576 bytes. Of a longer one nothing is read, and standard error says so. Where the log
// can't be opened, or read to its end, standard error says why, and nothing is written. Where standard output can't be written, standard
// error says why, and some of the log may have been written.
#![tactic(auto)]

ghost use Rattle.std.specs.Prelude.{◌≤◌, ◌≡◌, length};
ghost use Rattle.mend.specs.Buffers.{longest};

use input::{Failure, Program, Source};
use meanings::Meaning;

// The longest log that is mended.
const LONGEST: usize = 1_048_576;

// Two numbers for each of 1,000 dropped records.
const LIST_ROOM: usize = 2_000;

const MEND: Program = Program {
    name: "mend",
    usage: &[
        "usage: mend [DAMAGED] > LOG\n",
        "Copies the records of a log that the reader accepts after the ones already copied, and drops the others.\n",
        "Standard error lists the first 1000 dropped, `dropped N at OFFSET`, and says how many were dropped in all.\n",
        "If the first record is not good settings, or the second is a list of pairs that is not accepted, the log\n",
        "is refused: nothing is written, and standard error says `refused N`. So is one of more than 1048576 bytes.\n",
        "Without DAMAGED, standard input is read.\n",
    ],
};

// A buffer that the longest log that is mended fills.
fn log_buffer() -> [u8; LONGEST]
    ensures { longest ≡ length result }
{
    input::buffer(0)
}

// Says that a log that begins with these bytes and has more is too long.
fn print_longer(rt: &impl Eprint, start: &[u8])
    requires { longest ≤ length start.now }
{
    let _ = eprintln!(rt;
        "mend: refused 9, nothing is written: the log is longer than 1048576 bytes"
    );
}

// Mends a log into a run that has room for all that is copied: it is no more than the log. A message comes in parts (docs/DECISIONS.md).
fn mend_log(rt: &(impl Print + Eprint), log: &[u8], out: &mut [u8]) -> Result<(), Failure>
    requires { length log.now ≤ length out.old }
{
    let mut list = [0; LIST_ROOM];
    let mended = mender::mend(log, out, &mut list);
    let number = mended.number;
    if number != 0 {
        let _ = eprint!(rt; "mend: refused {number}, nothing is written: ");
        let _ = eprintln!(rt; "{}", Meaning(number as u64));
        return Ok(());
    }
    rt.write_all(&out[..mended.bytes]).map_err(Failure::Output)?;
    let (records, _) = list.as_chunks::<2>();
    for [offset, number] in records.iter().take(mended.listed) {
        let _ = eprint!(rt; "mend: dropped {number} at {offset}: ");
        let _ = eprintln!(rt; "{}", Meaning(*number));
    }
    let _ = eprintln!(rt; "mend: {} dropped in all", mended.dropped);
    Ok(())
}

fn mend(rt: &(impl Print + Eprint), from: &mut Source) -> Result<(), Failure> {
    let mut buf = log_buffer();
    let mut out = log_buffer();
    let Some(log) = input::read(from, &mut buf)? else {
        print_longer(rt, &buf);
        return Ok(());
    };
    mend_log(rt, log, &mut out)
}

fn main(rt: HostRuntime) {
    MEND.run(rt, |from| mend(&rt, from));
}
