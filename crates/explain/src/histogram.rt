// How many decisions have which margin.
use crate::steps::Closeness;
use std::fmt;
use std::fmt::Formatter;

const BARS: usize = 9;

const NAMES: [&str; BARS] = [
    "  1 ms         ",
    "  2 ms         ",
    "  3 to 4 ms    ",
    "  5 to 9 ms    ",
    "  10 to 19 ms  ",
    "  20 to 49 ms  ",
    "  50 to 99 ms  ",
    "  from 100 ms  ",
    "  none         ",
];

// The margins from which on the next bar counts.
const ENDS: [u64; BARS - 2] = [2, 3, 5, 10, 20, 50, 100];

// The longest bar.
const BAR: &str = "##################################################";

#[derive(Clone, Copy)]
pub struct Histogram([u64; BARS]);

impl Histogram {
    pub fn empty() -> Histogram {
        Histogram([0; BARS])
    }

    pub fn count(&mut self, closeness: Closeness) {
        let bar = match closeness {
            Closeness::Undecided => return,
            Closeness::Certain => BARS - 1,
            Closeness::By(margin) => {
                let ms = margin.shift.by.0;
                ENDS.iter().position(|end| ms < *end).unwrap_or(BARS - 2)
            }
        };
        self.0[bar] = self.0[bar].saturating_add(1);
    }
}

impl fmt::Display for Histogram {
    fn fmt<W: fmt::Write>(&self, f: &mut Formatter<W>) -> fmt::Result {
        let most = self.0.iter().copied().max().unwrap_or(0).max(1);
        for (name, count) in NAMES.iter().zip(self.0) {
            let length = count.saturating_mul(BAR.len() as u64).div_ceil(most) as usize;
            writeln!(f, "{name}{} {count}", BAR.get(..length).unwrap_or(BAR))?;
        }
        Ok(())
    }
}
