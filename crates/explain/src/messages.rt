// What the program says on standard error, in parts (docs/DECISIONS.md), and how to use it.
use crate::words::Counted;
use meanings::Meaning;
use std::io::Stderr;

pub const USAGE: &str =
    "usage: explain [--lines A..B] [--from STAMP] [--to STAMP] [--why N | --svg | --margins] [--progress] [LOG]
Prints, for each event of a log, what it did and why: the numbers that were compared, and how many
milliseconds sooner or later would have decided otherwise; below them what was committed in all, and the
closest calls of the events shown. Without LOG, standard input is read.
  --lines A..B  events number A to B only, the first accepted one being 1
  --from STAMP  events from that stamp on
  --to STAMP    events up to that stamp
  --why N       the reason of committed character or mark number N only, the first one being 1
  --svg         a picture of at most 256 events instead: presses, deadlines, what was committed, and by what
  --margins     how close the decisions were instead, and how many presses T 10 ms, or J or L 5 percent, less
                or more would have changed
  --progress    a line on standard error for each MiB read, also where that is no terminal
Example: explain --why 3 < examples/saikai.log
";

pub fn print_progress(stderr: Stderr, mib: u64) {
    let _ = println!(stderr; "explain: {mib} MiB read");
}

// More events than a picture has room for.
pub fn print_too_many(stderr: Stderr, events: u64) {
    let _ = println!(stderr;
        "explain: a picture has room for 256 events, and these are {events}: choose some with --lines, --from or --to"
    );
}

// Why a log is refused.
pub fn print_refused(stderr: Stderr, number: u32, offset: usize) {
    let meaning = Meaning(number as u64);
    let _ = print!(stderr; "explain: record at byte {offset}: ");
    let _ = println!(stderr; "{meaning}");
}

pub fn print_not_there(stderr: Stderr, committed: u64) {
    let characters = Counted(committed, " character", " characters");
    let _ = print!(stderr; "explain: the log commits {committed}");
    let _ = println!(stderr; "{} and no more", characters.name());
}
