// What the screen shows: the end of the committed line, and what waits, in brackets.
use crate::steps::words;
use crate::words::Field;
use rules::{Face, Items, Resting};
use std::fmt;
use std::fmt::Formatter;

// So many words of the line are shown.
const TAIL: usize = 8;

// So many columns it takes in a table.
const WIDTH: usize = 23;

// The end of the committed line; 0 where it is shorter.
#[derive(Clone, Copy)]
pub struct Tail([u16; TAIL]);

impl Tail {
    pub fn empty() -> Tail {
        Tail([0; TAIL])
    }

    // Words behind the others; the first ones are forgotten. An empty face gives no word.
    pub fn push(&mut self, items: Items) {
        for word in words(items).into_iter().flatten() {
            if word != 0 {
                self.0.rotate_left(1);
                self.0[TAIL - 1] = word;
            }
        }
    }
}

#[derive(Clone, Copy)]
pub struct Screen {
    pub tail: Tail,
    pub resting: Resting,
}

// The waiting characters, 0 for none as for an empty face: one, or two of a pair.
fn waiting(resting: Resting) -> [u16; 2] {
    match resting {
        Resting::S1 | Resting::S3(..) => [0, 0],
        Resting::S2(key, _) | Resting::S4(key, ..) => [layout::code_point(key, Face::Plain), 0],
        Resting::S5(thumb, _, key, _) | Resting::S6(thumb, _, key, ..) => {
            [layout::code_point(key, Face::With(thumb)), 0]
        }
        Resting::S7(key, _, second, _) | Resting::S8(key, _, second, ..) => {
            [
                layout::code_point(key, Face::Plain),
                layout::code_point(second, Face::Plain),
            ]
        }
    }
}

impl fmt::Display for Screen {
    fn fmt<W: fmt::Write>(&self, f: &mut Formatter<W>) -> fmt::Result {
        let mut field = Field::new(f);
        for word in self.tail.0.iter().filter(|word| **word != 0) {
            field.word(*word)?;
        }
        let waiting = waiting(self.resting);
        if waiting[0] != 0 {
            field.put("[", 1)?;
            for word in waiting.iter().filter(|word| **word != 0) {
                field.word(*word)?;
            }
            field.put("]", 1)?;
        }
        field.pad(WIDTH)
    }
}
