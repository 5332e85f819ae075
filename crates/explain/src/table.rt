// The table: a row for each event, and below it what was committed in all and the closest calls.
use crate::parts::say;
use crate::report::Report;
use crate::screen::{Screen, Tail};
use crate::sentence::Sentence;
use crate::steps::{Step, number_of, words};
use crate::summary::{Call, Calls, Totals};
use crate::words::Field;
use keylog::LogAnswer;
use pairs::Lent;
use rules::{Event, Key, Kind, Refusal, Stamp};
use std::fmt;
use std::fmt::Formatter;
use std::io::{Stderr, Stdout};

// The columns of an event, and of what was late.
const EVENT_WIDTH: usize = 9;

const LATE_WIDTH: usize = 11;

// What the table has of a log so far.
#[derive(Clone, Copy)]
pub struct Table {
    totals: Totals,
    tail: Tail,
    calls: Calls,
}

impl Table {
    pub fn new() -> Table {
        Table {
            totals: Totals::default(),
            tail: Tail::empty(),
            calls: Calls::none(),
        }
    }
}

impl Report for Table {
    fn begin(&self, out: Stdout) {
        say(
            out,
            "stamp         event    late       state due           screen                 what and why\n",
        );
    }

    fn accepted(&mut self, out: Stdout, lent: Lent<'_>, step: &Step, shown: bool) {
        let committed = self.totals.committed;
        self.totals.count(step.items);
        self.tail.push(step.items);
        if !shown {
            return;
        }
        if let Some(margin) = step.closeness(lent).margin() {
            self.calls.note(Call::new(step, margin, committed));
        }
        let sentence = Sentence::new(lent, *step);
        let columns = Columns {
            step: *step,
            late: if sentence.numbers.late {
                words(step.items)
            } else {
                [None; 2]
            },
            due: step.deadline(lent),
            screen: Screen {
                tail: self.tail,
                resting: step.after.resting,
            },
        };
        let _ = print!(out; "{columns}");
        say(out, format_args!("{sentence}\n"));
    }

    fn refused(&mut self, out: Stdout, event: Event, refusal: Refusal) {
        let why = match refusal {
            Refusal::KeyNotAllowed => ": kind or key not allowed\n",
            Refusal::AboveLargest => ": stamp above the largest\n",
            Refusal::BeforeLast => ": stamp before the last accepted one\n",
            Refusal::TooManyHeld => ": press of a new key while 6 are held\n",
            _ => "\n",
        };
        let _ = print!(out; "{}", Front(event));
        say(out, format_args!("refused {}{why}", refusal.number()));
    }

    fn end(&self, out: Stdout, _err: Stderr, answer: LogAnswer) {
        match answer.number {
            0 => say(out, format_args!("waiting {}\n", answer.waiting)),
            number => say(out, format_args!("refused {number} at {}\n", answer.offset)),
        }
        say(out, self.totals);
        say(out, self.calls);
    }
}

// What stands before the sentence of a row.
#[derive(Clone, Copy)]
struct Columns {
    step: Step,
    // the words of what was late
    late: [Option<u16>; 2],
    // the deadline of what rests behind it
    due: Option<Stamp>,
    screen: Screen,
}

impl fmt::Display for Columns {
    fn fmt<W: fmt::Write>(&self, f: &mut Formatter<W>) -> fmt::Result {
        write!(f, "{}", Front(self.step.event))?;
        let mut late = Field::new(f);
        for word in self.late.into_iter().flatten() {
            late.word(word)?;
        }
        late.pad(LATE_WIDTH)?;
        write!(f, "S{:<5}", number_of(self.step.after.resting))?;
        match self.due {
            Some(due) => write!(f, "{:<13} ", due.0)?,
            None => write!(f, "{:<13} ", "-")?,
        }
        write!(f, "{}", self.screen)
    }
}

// An event's stamp, and the event in columns of their own: `21`, `21 up`, `R`, `R up`, `fn`, `tick`; one that is none of these by its kind
// and key.
#[derive(Clone, Copy)]
struct Front(Event);

impl fmt::Display for Front {
    fn fmt<W: fmt::Write>(&self, f: &mut Formatter<W>) -> fmt::Result {
        let Event {
            kind,
            key: Key(key),
            stamp: Stamp(stamp),
        } = self.0;
        write!(f, "{stamp:<13} ")?;
        let name = match (Kind::try_from(kind), key) {
            (Ok(Kind::CharacterDown), _) => return write!(f, "{key:<8} "),
            (Ok(Kind::CharacterUp), _) => {
                let mut up = Field::new(f);
                up.put(key, digits(key))?;
                up.put(" up", 3)?;
                return up.pad(EVENT_WIDTH);
            }
            (Ok(Kind::ThumbDown), 0) => "L",
            (Ok(Kind::ThumbDown), 1) => "R",
            (Ok(Kind::ThumbUp), 0) => "L up",
            (Ok(Kind::ThumbUp), 1) => "R up",
            (Ok(Kind::FunctionDown), 0) => "fn",
            (Ok(Kind::Tick), 0) => "tick",
            _ => return write!(f, "kind {kind} key {key} "),
        };
        write!(f, "{name:<8} ")
    }
}

fn digits(key: u8) -> usize {
    match key {
        0..10 => 1,
        10..100 => 2,
        _ => 3,
    }
}
