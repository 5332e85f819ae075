// What the program says besides the text, in parts (docs/DECISIONS.md).
ghost use Rattle.std.specs.Prelude.{◌≢◌};

use meanings::Meaning;

// What a log's number means, on standard error. Nothing for 0. The reader is well formed and has room, so 2 and 8 don't come, and 10 is
// a drill's.
pub fn explain(rt: &impl Eprint, number: u32, offset: usize)
    requires { (number ≢ 2) × (number ≢ 8) × (number ≢ 10) }
{
    let _ = match number {
        0 => Ok(()),
        9 => eprintln!(rt; "play: the log is longer than 1000000000000 bytes"),
        _ => {
            let _ = eprint!(rt; "play: record at byte {offset}: ");
            eprintln!(rt; "{}", Meaning(number as u64))
        }
    };
}
