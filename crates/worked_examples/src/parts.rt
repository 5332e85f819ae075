// Standard output in parts, each in a write of its own. A part that is not taken is passed over, and those behind it are tried all the
// same: where there is little room and writing doesn't wait, what still fits comes. So the cut is part of what the program does
// (docs/DECISIONS.md, "Why do the programs write so many small parts?"); `tests/in_parts` holds it.
use std::fmt;
use std::fmt::Formatter;
use std::io::Stdout;

// How a text is cut.
#[derive(Clone, Copy)]
pub enum Cut {
    // As it is put together: its words and its numbers are the parts.
    Words,
    // Byte by byte, its numbers whole.
    Bytes,
}

#[derive(Drop)]
struct Parts {
    out: Stdout,
    cut: Cut,
}

impl Parts {
    fn put(&mut self, part: &[u8]) {
        let _ = self.out.write_all(part);
    }
}

impl fmt::Write for Parts {
    fn write_str(&mut self, text: &str) -> fmt::Result {
        match (self.cut, text.as_bytes()) {
            (Cut::Words, part) | (Cut::Bytes, part @ [b'0'..=b'9', ..]) => self.put(part),
            (Cut::Bytes, bytes) => {
                for byte in bytes {
                    self.put(&[*byte]);
                }
            }
        }
        Ok(())
    }
}

pub fn say<T: fmt::Display + Drop>(out: Stdout, cut: Cut, text: T) {
    let _ = Formatter::new(Parts { out, cut }).write(text);
}
