// A log that arrives in pieces, for the console's C host. The reader goes in and comes out as numbers (crate pieces), a log's list of
// pairs stands in a run that the host lends with it, and nothing is kept here.
ghost use Rattle.std.specs.Prelude.{◌≡◌};
ghost use Rattle.host.specs.Face.{told};
ghost use Rattle.log_reader.specs.Readers.{accepted};
ghost use Rattle.host.specs.InPieces.{fresh_numbers, GivesPiece, GivesEnd};

use crate::Answer;
use log_reader::{FedNumbers, ReaderNumbers};

// The reader after a call, and what the call answers.
#[repr(C)]
#[derive(Clone, Copy)]
pub struct PieceRead {
    pub reader: ReaderNumbers,
    pub answer: Answer,
}

impl From<FedNumbers> for PieceRead {
    ghost from_gives = { λ fed given. (given.reader ≡ fed.reader) × (told given.answer ≡ fed.answer) };

    fn from(fed: FedNumbers) -> PieceRead {
        PieceRead {
            reader: fed.reader,
            answer: fed.answer.into(),
        }
    }
}

// The reader before the first piece.
#[unsafe(no_mangle)]
pub extern "C" fn trabeculon_reader_fresh() -> ReaderNumbers
    ensures { result ≡ fresh_numbers }
{
    ReaderNumbers {
        machine: machine_numbers::no_machine(),
        offset: 0,
        words: 0,
        count: 0,
        header: 0,
        front: 0,
        tail: 0,
        told: 0,
        number: 0,
        pairs: 0,
        ts: 0,
        n: 0,
        opened: 0,
    }
}

// A piece of a log read into a run of bytes. The list's run, of 64 numbers or more, is lent with each call as the one before left it.
#[unsafe(no_mangle)]
pub extern "C" fn trabeculon_reader_piece(
    reader: ReaderNumbers,
    list: &mut [u32],
    piece: &[u8],
    out: &mut [u8],
) -> PieceRead
    ensures { GivesPiece reader list.old piece.now out.old
        (accepted list.old reader) result list.new out.new }
{
    log_reader::feed_numbers(reader, list, piece, out).into()
}

// The log has ended.
#[unsafe(no_mangle)]
pub extern "C" fn trabeculon_reader_end(reader: ReaderNumbers, list: &[u32]) -> PieceRead
    ensures { GivesEnd reader list.now (accepted list.now reader) result }
{
    log_reader::end_numbers(reader, list).into()
}
