// The writer of drills for the console's C host.
ghost use Rattle.std.specs.Prelude.{◌≡◌};
ghost use Rattle.rules.specs.Numbers.{settings_of};
ghost use Rattle.writer.specs.Writes.{Writes};
ghost use Rattle.host.specs.Drills.{drilled};

use rules::Settings;
use writer::Drilled;

// The answer of the writer: the number, the bytes written and a position (`Drilled` of the writer says which).
#[repr(C)]
#[derive(Clone, Copy)]
pub struct Drill {
    pub number: u64,
    pub bytes: u64,
    pub position: u64,
}

impl From<Drilled> for Drill {
    ghost from_gives = { λ written answer. drilled answer ≡ written };

    fn from(written: Drilled) -> Drill {
        Drill {
            number: written.number as u64,
            bytes: written.bytes as u64,
            position: written.position as u64,
        }
    }
}

#[unsafe(no_mangle)]
pub extern "C" fn trabeculon_write_drill(
    t: u16,
    j: u8,
    l: u8,
    solo: u8,
    line: &[u16],
    out: &mut [u8],
) -> Drill
    ensures { Writes (settings_of t j l solo) line.now out.old (drilled result) out.new }
{
    writer::write(Settings { t, j, l, solo }, line, out).into()
}
