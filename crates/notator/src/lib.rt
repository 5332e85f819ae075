// A log notated: its keystrokes as text in a lent run. crates/notation says what the notation of a log is.
#![tactic(auto)]

mod log;
mod page;
mod records;
mod refusal;

ghost use Rattle.std.specs.Prelude.{length};
ghost use Rattle.notator.specs.Notates.{Notates, Within};

use log::put_log;
use status_line::Printed;

// Why a log was not notated. Nothing was read, and nothing was written.
#[derive(Clone, Copy)]
pub enum Unnotated {
    // The run is shorter than `ROOM_PER_BYTE` for each of the log's bytes and `ROOM_BESIDES`.
    NoRoom,
    // The log is longer than `LONGEST_LOG`.
    Unread,
}

// The longest log that is read.
pub const LONGEST_LOG: usize = 1048576;

// A run of so many bytes for each of the log's, and so many besides, has room for its text.
pub const ROOM_PER_BYTE: usize = 4;

pub const ROOM_BESIDES: usize = 128;

// A log, notated at the front of a run.
pub fn notate(log: &[u8], out: &mut [u8]) -> Result<Printed, Unnotated>
    ensures notates { Notates log.now out.old result out.new }
    ensures within { Within (length out.old) result }
{
    if LONGEST_LOG < log.len() {
        return Err(Unnotated::Unread);
    }
    if out.len() < ROOM_PER_BYTE * log.len() + ROOM_BESIDES {
        return Err(Unnotated::NoRoom);
    }
    Ok(put_log(log, out))
}
