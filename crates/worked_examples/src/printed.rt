// How the answers are printed.
use crate::parts::Cut::{Bytes, Words};
use crate::parts::say;
use engine::{Items, Sendings};
use rules::{Event, Refusal};
use std::fmt;
use std::io::Stdout;

// A sign: a character of the layout or of a pair, a mark, or an empty face.
#[derive(Clone, Copy)]
struct Sign(u16);

impl fmt::Display for Sign {
    fn fmt<W: fmt::Write>(&self, f: &mut fmt::Formatter<W>) -> fmt::Result {
        match self.0 {
            0 => f.write_str("-"),
            1 => f.write_str("<L>"),
            2 => f.write_str("<R>"),
            word => write!(f, "{}", char::from_u32(word as u32).unwrap_or('?')),
        }
    }
}

#[derive(Clone, Copy)]
struct Commits(Items);

impl fmt::Display for Commits {
    fn fmt<W: fmt::Write>(&self, f: &mut fmt::Formatter<W>) -> fmt::Result {
        match self.0 {
            Items::None => f.write_str(" nothing"),
            Items::One(item) => write!(f, " {}", Sign(layout::word(item))),
            Items::Two(item, other) => write!(
                f,
                " {} {}",
                Sign(layout::word(item)),
                Sign(layout::word(other))
            ),
        }
    }
}

#[derive(Clone, Copy)]
struct Sends(Sendings);

// The signs are packed to the front, 0 behind the last.
impl fmt::Display for Sends {
    fn fmt<W: fmt::Write>(&self, f: &mut fmt::Formatter<W>) -> fmt::Result {
        let Sendings { backspaces, signs } = self.0;
        if backspaces == 0 && signs.first == 0 {
            return f.write_str(" nothing");
        }
        for _ in 0..backspaces {
            f.write_str(" <-")?;
        }
        for word in [signs.first, signs.second, signs.third, signs.fourth] {
            if word != 0 {
                write!(f, " {}", Sign(word))?;
            }
        }
        Ok(())
    }
}

// An event and what it gave back.
#[derive(Clone, Copy)]
pub struct Given {
    pub event: Event,
    pub answer: Result<(Items, Sendings), Refusal>,
}

// The number, the items and what is sent.
pub fn say_given(stdout: Stdout, given: Given) {
    let Event { kind, key, stamp } = given.event;
    let number = given.answer.map_or_else(|refusal| refusal.number(), |_| 0);
    let (key, stamp) = (key.0, stamp.0);
    say(
        stdout,
        Bytes,
        format_args!(" kind {kind} key {key} @{stamp}: {number}, commits"),
    );
    match given.answer {
        Ok((items, sent)) => say(
            stdout,
            Words,
            format_args!("{}, sends{}", Commits(items), Sends(sent)),
        ),
        Err(_) => {
            for part in [" nothing", ", sends", " nothing"] {
                say(stdout, Words, part);
            }
        }
    }
}

// How far a deadline lies, with its sign, or why that is refused, at the end of a line.
pub fn say_asked(stdout: Stdout, asked: Result<Option<i64>, Refusal>) {
    match asked {
        Ok(None) => say(stdout, Words, "none"),
        Ok(Some(0)) => say(stdout, Words, "0"),
        Ok(Some(milliseconds)) => say(stdout, Words, format_args!("{milliseconds:+}")),
        Err(refusal) => say(stdout, Bytes, format_args!("refused {}", refusal.number())),
    }
    say(stdout, Words, "\n");
}
