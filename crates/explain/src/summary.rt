// What was committed in all, and the closest calls: the decisions that the fewest milliseconds would have turned.
use crate::steps::{Margin, Shift, Stake, Step, in_order};
use crate::words::{Counted, Word};
use rules::{Face, Item, Items, Stamp};
use std::fmt;
use std::fmt::Formatter;

// So many closest calls are kept.
const CALLS: usize = 5;

// How much was committed. No count comes near its end: a log has at most 10^12 bytes.
#[derive(Clone, Copy, Default)]
pub struct Totals {
    events: u64,
    pub committed: u64,
    chords: u64,
    marks: u64,
    pairs: u64,
}

impl Totals {
    // One event more, and what it committed.
    pub fn count(&mut self, items: Items) {
        self.events = self.events.saturating_add(1);
        for item in in_order(items).into_iter().flatten() {
            self.committed = self.committed.saturating_add(1);
            match item {
                Item::Character(_, Face::Plain) => {}
                Item::Character(_, Face::With(_)) => self.chords = self.chords.saturating_add(1),
                Item::Mark(_) => self.marks = self.marks.saturating_add(1),
                Item::Together(..) => self.pairs = self.pairs.saturating_add(1),
            }
        }
    }
}

impl fmt::Display for Totals {
    fn fmt<W: fmt::Write>(&self, f: &mut Formatter<W>) -> fmt::Result {
        let events = Counted(self.events, " event accepted; ", " events accepted; ");
        let marks = Counted(self.marks, " mark\n", " marks\n");
        write!(f, "{events}{} committed: ", self.committed)?;
        write!(f, "{} with a thumb, ", self.chords)?;
        write!(f, "{} of two letters, {marks}", self.pairs)
    }
}

// A decision that was close: what turns it, its stamp, the number of its character, and its word; of one that committed nothing, the word
// that it might have committed.
#[derive(Clone, Copy)]
pub struct Call {
    shift: Shift,
    stamp: Stamp,
    character: Option<u64>,
    word: u16,
}

impl Call {
    // A decision with its margin, behind so many committed characters.
    pub fn new(step: &Step, margin: Margin, committed: u64) -> Call {
        let (character, word) = match step.items {
            Items::None => (None, margin.word),
            Items::One(item) => (Some(committed.saturating_add(1)), layout::word(item)),
            Items::Two(first, second) => match margin.stake {
                Stake::First => (Some(committed.saturating_add(1)), layout::word(first)),
                Stake::Second => (Some(committed.saturating_add(2)), layout::word(second)),
            },
        };
        Call {
            shift: margin.shift,
            stamp: step.event.stamp,
            character,
            word,
        }
    }
}

impl fmt::Display for Call {
    fn fmt<W: fmt::Write>(&self, f: &mut Formatter<W>) -> fmt::Result {
        let word = Word(self.word);
        write!(f, "{}", self.shift)?;
        match self.character {
            Some(number) => write!(f, ": character {number}, {word}")?,
            None => write!(f, ": {word} not yet")?,
        }
        write!(f, ", at {}", self.stamp.0)
    }
}

// The closest calls, closest first. Of equal margins the first in the log comes first.
#[derive(Clone, Copy)]
pub struct Calls([Option<Call>; CALLS]);

impl Calls {
    pub fn none() -> Calls {
        Calls([None; CALLS])
    }

    // One more, behind all of the log before it; the last one is forgotten.
    pub fn note(&mut self, call: Call) {
        let place = self.0.iter().position(|kept| match kept {
            Some(kept) => call.shift.by < kept.shift.by,
            None => true,
        });
        if let Some(i) = place {
            self.0[i..].rotate_right(1);
            self.0[i] = Some(call);
        }
    }
}

impl fmt::Display for Calls {
    fn fmt<W: fmt::Write>(&self, f: &mut Formatter<W>) -> fmt::Result {
        if self.0[0].is_some() {
            f.write_str(
                "closest calls, by how much sooner or later would have decided otherwise:\n",
            )?;
        }
        for call in self.0.iter().flatten() {
            writeln!(f, "  {call}")?;
        }
        Ok(())
    }
}
