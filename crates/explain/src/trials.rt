// The same events at other settings: for T, J and L one step down and one up, how many presses would have been committed otherwise.
use crate::steps::{Character, Step, in_order};
use crate::words::Counted;
use pairs::Lent;
use rules::{Event, Item, Items, Machine, Settings};
use std::fmt;
use std::fmt::Formatter;

const TRIALS: usize = 6;

// The steps, in milliseconds and in percent.
const T_STEP: u16 = 10;

const PERCENT_STEP: u8 = 5;

// No more presses are answered by one machine and not by the other.
const AHEAD: usize = 4;

// Whose answer it is: the log's own machine's, or that of one with other settings.
#[derive(Clone, Copy, PartialEq, Eq)]
enum By {
    Own,
    Other,
}

// What a press is answered with.
#[derive(Clone, Copy)]
struct Answer {
    character: Character,
    counted: bool,
}

// Both machines answer the presses in order. The answers of the one that is ahead wait here for the other's.
#[derive(Clone, Copy)]
struct Answers {
    waiting: [Option<Answer>; AHEAD],
    ahead: By,
    // presses that both answered, and those among them that they answered otherwise
    presses: u64,
    otherwise: u64,
}

impl Answers {
    fn none() -> Answers {
        Answers {
            waiting: [None; AHEAD],
            ahead: By::Own,
            presses: 0,
            otherwise: 0,
        }
    }

    // Presses answered by one of the machines: a mark answers none, the character of a pair two.
    fn take(&mut self, by: By, items: Items, counted: bool) {
        for item in in_order(items).into_iter().flatten() {
            let answer = Answer {
                character: Character::from(item),
                counted,
            };
            match item {
                Item::Mark(_) => {}
                Item::Character(..) => self.answer(by, answer),
                Item::Together(..) => {
                    self.answer(by, answer);
                    self.answer(by, answer);
                }
            }
        }
    }

    fn answer(&mut self, by: By, answer: Answer) {
        match self.waiting[0] {
            Some(first) if by != self.ahead => {
                self.waiting[0] = None;
                self.waiting.rotate_left(1);
                match by {
                    By::Own => self.compare(answer, first),
                    By::Other => self.compare(first, answer),
                }
            }
            _ => {
                self.ahead = by;
                if let Some(free) = self.waiting.iter().position(|place| place.is_none()) {
                    self.waiting[free] = Some(answer);
                }
            }
        }
    }

    // A press that both answered counts where the log's own answer does.
    fn compare(&mut self, own: Answer, other: Answer) {
        if own.counted {
            self.presses = self.presses.saturating_add(1);
            if own.character != other.character {
                self.otherwise = self.otherwise.saturating_add(1);
            }
        }
    }
}

// So many of all presses, and so many in a hundred, with a digit behind the point.
impl fmt::Display for Answers {
    fn fmt<W: fmt::Write>(&self, f: &mut Formatter<W>) -> fmt::Result {
        let (presses, otherwise) = (self.presses, self.otherwise);
        write!(
            f,
            "{otherwise} of {}",
            Counted(presses, " press", " presses")
        )?;
        if presses == 0 {
            return Ok(());
        }
        let tenths = otherwise.saturating_mul(1000).saturating_add(presses / 2) / presses;
        write!(f, ", {}.{} percent", tenths / 10, tenths % 10)
    }
}

// One setting changed.
#[derive(Clone, Copy)]
struct Trial {
    name: &'static str,
    value: u16,
    machine: Machine,
    answers: Answers,
}

// A machine with these settings, unless they are out of range.
fn tried(name: &'static str, value: u16, settings: Settings) -> Option<Trial> {
    Some(Trial {
        name,
        value,
        machine: Machine::open(settings).ok()?,
        answers: Answers::none(),
    })
}

fn with_t(t: u16, settings: Settings) -> Option<Trial> {
    tried("  T=", t, Settings { t, ..settings })
}

fn with_j(j: u8, settings: Settings) -> Option<Trial> {
    tried("  J=", j as u16, Settings { j, ..settings })
}

fn with_l(l: u8, settings: Settings) -> Option<Trial> {
    tried("  L=", l as u16, Settings { l, ..settings })
}

#[derive(Clone, Copy)]
pub struct Trials([Option<Trial>; TRIALS]);

impl Trials {
    // The trials of a log with these settings.
    pub fn new(settings: Settings) -> Trials {
        Trials([
            with_t(settings.t.saturating_sub(T_STEP), settings),
            with_t(settings.t.saturating_add(T_STEP), settings),
            with_j(settings.j.saturating_sub(PERCENT_STEP), settings),
            with_j(settings.j.saturating_add(PERCENT_STEP), settings),
            with_l(settings.l.saturating_sub(PERCENT_STEP), settings),
            with_l(settings.l.saturating_add(PERCENT_STEP), settings),
        ])
    }

    // An event that the log's own machine accepted, and what it committed there; `counted` says whether its answers count.
    pub fn take(&mut self, lent: Lent<'_>, event: Event, items: Items, counted: bool) {
        for trial in self.0.iter_mut().flatten() {
            trial.answers.take(By::Own, items, counted);
            if let Ok(step) = Step::take(lent, trial.machine, event) {
                trial.machine = step.after;
                trial.answers.take(By::Other, step.items, true);
            }
        }
    }
}

impl fmt::Display for Trials {
    fn fmt<W: fmt::Write>(&self, f: &mut Formatter<W>) -> fmt::Result {
        for trial in self.0.iter().flatten() {
            writeln!(f, "{}{}: {}", trial.name, trial.value, trial.answers)?;
        }
        Ok(())
    }
}
