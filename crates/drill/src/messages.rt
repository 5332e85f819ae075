// What the program says on standard error, in parts (docs/DECISIONS.md).
ghost use Rattle.std.specs.Prelude.{◌≤◌, length};
ghost use Rattle.drill.specs.Texts.{longest_text};

use crate::lines::Unwritten;

// Says that a text that begins with these bytes and has more is too long.
pub fn print_longer(rt: &impl Eprint, start: &[u8])
    requires { longest_text ≤ length start.now }
{
    let _ = eprintln!(rt; "drill: the text is longer than 65536 bytes");
}

// Whether the refused character is a carriage return at the line's end. Each one before it is on a face and has three bytes.
fn ends_in_return(line: &[u8], position: usize) -> bool {
    match line {
        [front @ .., b'\r'] => front.len() % 3 == 0 && front.len() / 3 == position,
        _ => false,
    }
}

// What a character on no face is, and where that is known, how to mend the line.
fn stranger(line: &[u8], position: usize) -> &'static str {
    if ends_in_return(line, position) {
        "a carriage return: a line ends in a line feed alone, not in CRLF"
    } else if position == 0 && line.starts_with("\u{feff}".as_bytes()) {
        "a byte order mark: a line has none"
    } else {
        "on no face of the layout"
    }
}

// What a refusal of a line means.
fn explain(rt: &impl Eprint, number: u32, position: usize, line: &[u8]) {
    let _ = match number {
        1 => eprintln!(rt;
            "drill: settings out of range: T is 50 to 1000, J and L are 1 to 99, SOLO is 0 or 1"
        ),
        4 => eprintln!(rt;
            "drill: the line is too long: a stamp is above the largest, 1000000000000"
        ),
        8 => eprintln!(rt; "drill: too little room for the log"),
        10 => {
            let _ = eprint!(rt; "drill: character {position}");
            eprintln!(rt; " (from 0) is {}", stranger(line, position))
        }
        _ => eprintln!(rt; "drill: refused"),
    };
}

// Why a line has no log.
pub fn print_unwritten(rt: &impl Eprint, why: Unwritten, line: &[u8]) {
    match why {
        Unwritten::Refused(number, position) => {
            let _ = eprint!(rt; "refused {number}");
            let _ = eprintln!(rt; " at {position}");
            explain(rt, number, position, line);
        }
        Unwritten::Damaged(position) => {
            let _ = eprint!(rt; "not UTF-8");
            let _ = eprintln!(rt; " at {position}");
        }
    }
}
