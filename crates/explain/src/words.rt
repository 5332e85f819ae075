// The words of an explanation: how what is named in a sentence is printed.
use rules::{Item, Items, Key, Lag, Thumb};
use std::fmt;
use std::fmt::Formatter;

// Something as a sentence names it.
#[derive(Clone, Copy)]
pub struct Said<T>(pub T);

impl fmt::Display for Said<Key> {
    fn fmt<W: fmt::Write>(&self, f: &mut Formatter<W>) -> fmt::Result {
        write!(f, "key {}", self.0.0)
    }
}

impl fmt::Display for Said<Thumb> {
    fn fmt<W: fmt::Write>(&self, f: &mut Formatter<W>) -> fmt::Result {
        f.write_str(match self.0 {
            Thumb::Left => "left thumb",
            Thumb::Right => "right thumb",
        })
    }
}

// A thumb with its article.
#[derive(Clone, Copy)]
pub struct The(pub Thumb);

impl fmt::Display for The {
    fn fmt<W: fmt::Write>(&self, f: &mut Formatter<W>) -> fmt::Result {
        write!(f, "the {}", Said(self.0))
    }
}

impl fmt::Display for Said<Lag> {
    fn fmt<W: fmt::Write>(&self, f: &mut Formatter<W>) -> fmt::Result {
        write!(f, "{} ms", self.0.0)
    }
}

impl fmt::Display for Said<Item> {
    fn fmt<W: fmt::Write>(&self, f: &mut Formatter<W>) -> fmt::Result {
        match layout::word(self.0) {
            0 => f.write_str("an empty face"),
            word => write!(f, "{}", Word(word)),
        }
    }
}

impl fmt::Display for Said<Items> {
    fn fmt<W: fmt::Write>(&self, f: &mut Formatter<W>) -> fmt::Result {
        match self.0 {
            Items::None => f.write_str("nothing yet"),
            Items::One(item) => write!(f, "{}", Said(item)),
            Items::Two(item, other) => write!(f, "{}{}", Said(item), Said(other)),
        }
    }
}

// A word as it is printed; an empty face as `-`.
#[derive(Clone, Copy)]
pub struct Word(pub u16);

impl Word {
    // The columns that it takes: a character of the layout two, a mark three, an empty face one.
    fn columns(self) -> usize {
        match self.0 {
            0 => 1,
            1 | 2 => 3,
            _ => 2,
        }
    }
}

impl fmt::Display for Word {
    fn fmt<W: fmt::Write>(&self, f: &mut Formatter<W>) -> fmt::Result {
        match self.0 {
            0 => f.write_str("-"),
            1 => f.write_str("<L>"),
            2 => f.write_str("<R>"),
            // No pair of an accepted list, and no face, has a surrogate.
            word => f.write_char(char::from_u32(word as u32).unwrap_or('?')),
        }
    }
}

// A count, and behind it the words for one and for more.
#[derive(Clone, Copy)]
pub struct Counted(pub u64, pub &'static str, pub &'static str);

impl Counted {
    pub fn name(self) -> &'static str {
        let Counted(count, one, more) = self;
        if count == 1 { one } else { more }
    }
}

impl fmt::Display for Counted {
    fn fmt<W: fmt::Write>(&self, f: &mut Formatter<W>) -> fmt::Result {
        write!(f, "{}{}", self.0, self.name())
    }
}

// A field of a table, and the columns that what is written there takes.
#[derive(Drop)]
pub struct Field<'a, W> {
    f: &'a mut Formatter<W>,
    columns: usize,
}

impl<'a, W: fmt::Write> Field<'a, W> {
    pub fn new(f: &'a mut Formatter<W>) -> Field<'a, W> {
        Field { f, columns: 0 }
    }

    pub fn put<T: fmt::Display + Drop>(&mut self, text: T, columns: usize) -> fmt::Result {
        self.columns = self.columns.saturating_add(columns);
        write!(self.f, "{text}")
    }

    pub fn word(&mut self, word: u16) -> fmt::Result {
        self.put(Word(word), Word(word).columns())
    }

    // Blanks up to a width; where that is passed, one.
    pub fn pad(self, width: usize) -> fmt::Result {
        let Field { f, columns } = self;
        f.write_repeated(" ", width.saturating_sub(columns).max(1))
    }
}
