// Standard output in parts, each in a write of its own. A part that is not taken is passed over, and those behind it are tried all the
// same: where there is little room and writing doesn't wait, what still fits comes. So the cut is part of what the program does
// (docs/DECISIONS.md, "Why do the programs write so many small parts?"); `tests/in_parts` holds it.
use std::fmt;
use std::fmt::Formatter;
use std::io::Stdout;

#[derive(Drop)]
struct Parts(Stdout);

impl fmt::Write for Parts {
    fn write_str(&mut self, part: &str) -> fmt::Result {
        let _ = self.0.write_all(part.as_bytes());
        Ok(())
    }
}

// A text as it is put together: its words and its numbers are the parts.
pub fn say<T: fmt::Display + Drop>(out: Stdout, text: T) {
    let _ = Formatter::new(Parts(out)).write(text);
}
