// The mender (12/12), for the console's C host.
ghost use Rattle.std.specs.Prelude.{◌≡◌};
ghost use Rattle.mender.specs.Runs.{Mends};
ghost use Rattle.host.specs.Mending.{mended};

use mender::Mended;

// The answer of the mender: the number, how many dropped records are listed, how many bytes the mended log has, and how many records were
// dropped.
#[repr(C)]
#[derive(Clone, Copy)]
pub struct MendAnswer {
    pub number: u64,
    pub bytes: u64,
    pub listed: u64,
    pub dropped: u64,
}

impl From<Mended> for MendAnswer {
    ghost from_gives = { λ done answer. mended answer ≡ done };

    fn from(done: Mended) -> MendAnswer {
        MendAnswer {
            number: done.number as u64,
            bytes: done.bytes as u64,
            listed: done.listed as u64,
            dropped: done.dropped as u64,
        }
    }
}

// A damaged log mended into a run of bytes, with a run of numbers for the list of what was dropped.
#[unsafe(no_mangle)]
pub extern "C" fn trabeculon_mend(log: &[u8], out: &mut [u8], list: &mut [u64]) -> MendAnswer
    ensures { Mends log.now out.old list.old (mended result) out.new list.new }
{
    mender::mend(log, out, list).into()
}
