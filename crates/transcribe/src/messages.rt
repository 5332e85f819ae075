// What the program says on standard error, in parts (docs/DECISIONS.md).
ghost use Rattle.std.specs.Prelude.{◌≤◌, length};
ghost use Rattle.transcribe.specs.Answers.{text_room, log_room};

use notation::{Expected, Field};
use transcriber::Place;

// Says that a text that begins with these bytes and has more is too long.
pub fn print_longer(rt: &impl Eprint, start: &[u8])
    requires { text_room ≤ length start.now }
{
    let _ = eprintln!(rt; "transcribe: the text is longer than 4194432 bytes");
}

// Says that a log does not fit this run.
pub fn print_no_room(rt: &impl Eprint, log: &[u8])
    requires { log_room ≤ length log.now }
{
    let _ = eprintln!(rt; "transcribe: the log is longer than 1048576 bytes");
}

// What may stand behind a field.
fn after(field: Field) -> &'static str {
    match field {
        Field::Start =>
            "T=, T_s=, a key's number, L@, L up@, R@, R up@, fn@ or tick, and then a number",
        Field::T => "J= and a number",
        Field::J => "L= and a number",
        Field::L => "solo= and a number",
        Field::Solo => "the end of the settings",
        Field::Key => "@ or up@, and then a stamp",
        Field::Stamp => "the end of the event",
        Field::Ts => "N= and a number",
        Field::N => "a pair, or the end of the list",
        Field::First => "+ and a key's number",
        Field::Second => "=U+ and a code point",
        Field::Character => "a pair, or the end of the list",
    }
}

pub fn print_wrong(rt: &impl Eprint, place: Place, expected: Expected) {
    let _ = eprint!(rt;
        "transcribe: line {}, column {}: ",
        place.line, place.column
    );
    let _ = match expected {
        Expected::After(field) => {
            let _ = eprint!(rt; "before this, expected ");
            eprint!(rt; "{}", after(field))
        }
        Expected::AtMost(most) => eprint!(rt; "expected a number of at most {most}"),
        Expected::FewerPairs => eprint!(rt; "expected at most 16383 pairs"),
    };
    let _ = eprintln!(rt; "");
}
