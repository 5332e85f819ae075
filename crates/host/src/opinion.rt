// The second opinion on a log (11/12), for the console's C host.
ghost use Rattle.std.specs.Prelude.{◌/◌, length};
ghost use Rattle.log_opinions.specs.OfLog.{opined};
ghost use Rattle.second_opinion.specs.Whole.{Gives};
ghost use Rattle.host.specs.Face.{told};

use crate::Answer;

// A whole log looked over, and its words written into a run of bytes if they all fit.
#[unsafe(no_mangle)]
pub extern "C" fn trabeculon_second_opinion(log: &[u8], out: &mut [u8]) -> Answer
    ensures { Gives (opined (length out.old / 2) log.now) out.old (told result) out.new }
{
    second_opinion::opine(log, out).into()
}
