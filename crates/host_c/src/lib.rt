// The functions of `host` alone, as a static library, libhost_c.a: the reader that bench/combined sets beside the whole face.
// Each function is that of `host` under the same name, with its contract: a static library exports the functions that it has itself.
#![tactic(auto)]

ghost use Rattle.std.specs.Prelude.{◌/◌, ◌≡◌, length};
ghost use Rattle.rules.specs.Numbers.{settings_of};
ghost use Rattle.keylog.specs.Runs.{high_first, Reads};
ghost use Rattle.log_opinions.specs.OfLog.{opined};
ghost use Rattle.second_opinion.specs.Whole.{Gives};
ghost use Rattle.writer.specs.Writes.{Writes};
ghost use Rattle.host.specs.Face.{told};
ghost use Rattle.host.specs.Drills.{drilled};
ghost use Rattle.log_reader.specs.Readers.{accepted};
ghost use Rattle.host.specs.InPieces.{fresh_numbers, GivesPiece, GivesEnd};
ghost use Rattle.mender.specs.Runs.{Mends};
ghost use Rattle.host.specs.Mending.{mended};

use host::{Answer, Drill, MendAnswer, PieceRead, ReaderNumbers};

#[unsafe(no_mangle)]
pub extern "C" fn trabeculon_read_log(log: &[u8], out: &mut [u8]) -> Answer
    ensures { Reads high_first (length out.old / 2) log.now out.old (told result) out.new }
{
    host::trabeculon_read_log(log, out)
}

#[unsafe(no_mangle)]
pub extern "C" fn trabeculon_second_opinion(log: &[u8], out: &mut [u8]) -> Answer
    ensures { Gives (opined (length out.old / 2) log.now) out.old (told result) out.new }
{
    host::trabeculon_second_opinion(log, out)
}

#[unsafe(no_mangle)]
pub extern "C" fn trabeculon_write_drill(
    t: u16,
    j: u8,
    l: u8,
    solo: u8,
    line: &[u16],
    out: &mut [u8],
) -> Drill
    ensures { Writes (settings_of t j l solo) line.now out.old (drilled result) out.new }
{
    host::trabeculon_write_drill(t, j, l, solo, line, out)
}

#[unsafe(no_mangle)]
pub extern "C" fn trabeculon_reader_fresh() -> ReaderNumbers
    ensures { result ≡ fresh_numbers }
{
    host::trabeculon_reader_fresh()
}

#[unsafe(no_mangle)]
pub extern "C" fn trabeculon_reader_piece(
    reader: ReaderNumbers,
    list: &mut [u32],
    piece: &[u8],
    out: &mut [u8],
) -> PieceRead
    ensures { GivesPiece reader list.old piece.now out.old
        (accepted list.old reader) result list.new out.new }
{
    host::trabeculon_reader_piece(reader, list, piece, out)
}

#[unsafe(no_mangle)]
pub extern "C" fn trabeculon_reader_end(reader: ReaderNumbers, list: &[u32]) -> PieceRead
    ensures { GivesEnd reader list.now (accepted list.now reader) result }
{
    host::trabeculon_reader_end(reader, list)
}

#[unsafe(no_mangle)]
pub extern "C" fn trabeculon_mend(log: &[u8], out: &mut [u8], list: &mut [u64]) -> MendAnswer
    ensures { Mends log.now out.old list.old (mended result) out.new list.new }
{
    host::trabeculon_mend(log, out, list)
}
