// The whole face for a C host, as one library: libtrabeculon.a. Each function is that of `host`, `keyboard` or `keyboard_row` under
// the same name, with its contract: a static library exports the functions that it has itself.
#![tactic(auto)]

ghost use Rattle.std.specs.Prelude.{◌/◌, ◌≡◌, length};
ghost use Rattle.rules.specs.Numbers.{settings_of};
ghost use Rattle.rules.specs.States.{opening};
ghost use Rattle.keylog.specs.Runs.{high_first, Reads};
ghost use Rattle.log_opinions.specs.OfLog.{opined};
ghost use Rattle.second_opinion.specs.Whole.{Gives};
ghost use Rattle.writer.specs.Writes.{Writes};
ghost use Rattle.host.specs.Face.{told};
ghost use Rattle.host.specs.Drills.{drilled};
ghost use Rattle.log_reader.specs.Readers.{accepted};
ghost use Rattle.host.specs.InPieces.{fresh_numbers, GivesPiece, GivesEnd};
ghost use Rattle.keyboard.specs.Keyboard.{lent_of, event_of, open_numbers, step_numbers, distance_numbers};
ghost use Rattle.mender.specs.Runs.{Mends};
ghost use Rattle.host.specs.Mending.{mended};
ghost use Rattle.keyboard_row.specs.Keyboards.{row_numbers, row_step_numbers, row_distance_numbers};

use host::{Answer, Drill, MendAnswer, PieceRead, ReaderNumbers};
use keyboard::{DistanceAnswer, OpenAnswer, StepAnswer};
use keyboard_row::RowStepAnswer;
use machine_numbers::MachineNumbers;
use rules::Stamp;

#[unsafe(no_mangle)]
pub extern "C" fn trabeculon_read_log(log: &[u8], out: &mut [u8]) -> Answer
    ensures { Reads high_first (length out.old / 2) log.now out.old (told result) out.new }
{
    host::trabeculon_read_log(log, out)
}

#[unsafe(no_mangle)]
pub extern "C" fn trabeculon_second_opinion(log: &[u8], out: &mut [u8]) -> Answer
    ensures { Gives (opined (length out.old / 2) log.now) out.old (told result) out.new }
{
    host::trabeculon_second_opinion(log, out)
}

#[unsafe(no_mangle)]
pub extern "C" fn trabeculon_write_drill(
    t: u16,
    j: u8,
    l: u8,
    solo: u8,
    line: &[u16],
    out: &mut [u8],
) -> Drill
    ensures { Writes (settings_of t j l solo) line.now out.old (drilled result) out.new }
{
    host::trabeculon_write_drill(t, j, l, solo, line, out)
}

#[unsafe(no_mangle)]
pub extern "C" fn trabeculon_reader_fresh() -> ReaderNumbers
    ensures { result ≡ fresh_numbers }
{
    host::trabeculon_reader_fresh()
}

#[unsafe(no_mangle)]
pub extern "C" fn trabeculon_reader_piece(
    reader: ReaderNumbers,
    list: &mut [u32],
    piece: &[u8],
    out: &mut [u8],
) -> PieceRead
    ensures { GivesPiece reader list.old piece.now out.old
        (accepted list.old reader) result list.new out.new }
{
    host::trabeculon_reader_piece(reader, list, piece, out)
}

#[unsafe(no_mangle)]
pub extern "C" fn trabeculon_reader_end(reader: ReaderNumbers, list: &[u32]) -> PieceRead
    ensures { GivesEnd reader list.now (accepted list.now reader) result }
{
    host::trabeculon_reader_end(reader, list)
}

#[unsafe(no_mangle)]
pub extern "C" fn trabeculon_open(t: u16, j: u8, l: u8, solo: u8) -> OpenAnswer
    ensures { result ≡ open_numbers (opening (settings_of t j l solo)) }
{
    keyboard::trabeculon_open(t, j, l, solo)
}

#[unsafe(no_mangle)]
pub extern "C" fn trabeculon_step(
    machine: MachineNumbers,
    pairs: &[u32],
    ts: u16,
    n: u8,
    kind: u8,
    key: u8,
    stamp: Stamp,
) -> StepAnswer
    ensures { result ≡ step_numbers (lent_of pairs.now ts n) machine (event_of kind key stamp) }
{
    keyboard::trabeculon_step(machine, pairs, ts, n, kind, key, stamp)
}

#[unsafe(no_mangle)]
pub extern "C" fn trabeculon_distance(
    machine: MachineNumbers,
    pairs: &[u32],
    ts: u16,
    n: u8,
    stamp: Stamp,
) -> DistanceAnswer
    ensures { result ≡ distance_numbers (lent_of pairs.now ts n) machine stamp }
{
    keyboard::trabeculon_distance(machine, pairs, ts, n, stamp)
}

#[unsafe(no_mangle)]
pub extern "C" fn trabeculon_row_step(
    row: &mut [MachineNumbers],
    pairs: &[u32],
    ts: u16,
    n: u8,
    board: u32,
    kind: u8,
    key: u8,
    stamp: Stamp,
) -> RowStepAnswer
    ensures { row_numbers result row.new
        ≡ row_step_numbers (lent_of pairs.now ts n) row.old board (event_of kind key stamp) }
{
    keyboard_row::trabeculon_row_step(row, pairs, ts, n, board, kind, key, stamp)
}

#[unsafe(no_mangle)]
pub extern "C" fn trabeculon_row_distance(
    row: &[MachineNumbers],
    pairs: &[u32],
    ts: u16,
    n: u8,
    board: u32,
    stamp: Stamp,
) -> DistanceAnswer
    ensures { result ≡ row_distance_numbers (lent_of pairs.now ts n) row.now board stamp }
{
    keyboard_row::trabeculon_row_distance(row, pairs, ts, n, board, stamp)
}

#[unsafe(no_mangle)]
pub extern "C" fn trabeculon_mend(log: &[u8], out: &mut [u8], list: &mut [u64]) -> MendAnswer
    ensures { Mends log.now out.old list.old (mended result) out.new list.new }
{
    host::trabeculon_mend(log, out, list)
}
