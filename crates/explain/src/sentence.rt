// One event in a sentence: what was late before it, what it did, by which numbers, and what would have been a little sooner or later. Every
// number comes from `why`, every decision from `engine`.
use crate::steps::{Step, is_none, words};
use crate::words::{Said, The};
use margins::{Compared, began};
use pairs::Lent;
use rules::{Input, Item, Items, Key, Lag, Resting, Stamp, Thumb};
use std::fmt;
use std::fmt::Formatter;
use waits::lag;
use why::Numbers;

#[derive(Clone, Copy)]
pub struct Sentence {
    step: Step,
    pub numbers: Numbers,
    // the same event at the next stamp that decides otherwise, and at the last one before
    later: Option<Step>,
    sooner: Option<Step>,
}

impl Sentence {
    pub fn new(lent: Lent<'_>, step: Step) -> Sentence {
        let numbers = step.numbers(lent);
        Sentence {
            step,
            numbers,
            later: step.at(lent, numbers.later),
            sooner: step.at(lent, numbers.sooner),
        }
    }

    // What was late, and then the event itself, at which nothing rests any more.
    fn late<W: fmt::Write>(&self, f: &mut Formatter<W>) -> fmt::Result {
        if let Some(deadline) = self.numbers.due {
            write!(f, "{}", Missed(self.step.machine.resting, deadline))?;
        }
        write!(f, "{}; then {}", self.committed(), self.what(Resting::S1))
    }

    // The event in time.
    fn in_time<W: fmt::Write>(&self, f: &mut Formatter<W>) -> fmt::Result {
        let resting = self.step.machine.resting;
        write!(f, "{}", self.what(resting))?;
        self.when(f)?;
        self.compared(f)?;
        write!(f, "{}", self.committed())
    }

    fn committed(&self) -> Behind {
        Behind(": ", self.step.items)
    }

    fn what(&self, resting: Resting) -> What {
        What {
            held: self.step.machine.held,
            resting,
            input: self.step.input(),
        }
    }

    // When the event came: after what began the state, or how long that was down.
    fn when<W: fmt::Write>(&self, f: &mut Formatter<W>) -> fmt::Result {
        let resting = self.step.machine.resting;
        let stamp = self.step.event.stamp;
        if is_own(resting, self.step.input()) {
            write!(f, " after {}", Said(lag(began(resting), stamp)))
        } else {
            write!(f, "{}", After(resting, stamp))
        }
    }

    // What was compared.
    fn compared<W: fmt::Write>(&self, f: &mut Formatter<W>) -> fmt::Result {
        match self.numbers.compared {
            Compared::Nothing => Ok(()),
            Compared::TakesThumb(a, b) | Compared::TakesCharacter(a, b) | Compared::Stays(a, b) => {
                self.gaps(f, a, b)
            }
            Compared::Overlaps(..) | Compared::OverlapsAsPair(..) => match self.enough() {
                Some(stamp) => {
                    let needed = lag(began(self.step.machine.resting), stamp);
                    write!(f, "; {} were needed", Said(needed))
                }
                None => Ok(()),
            },
            Compared::OverlapsOf(percent, overlap, whole) => {
                let (part, whole) = (overlap.0, Said(whole));
                write!(f, "; both keys were down for {part} of the second one's ")?;
                write!(f, "{whole}; {percent} percent were needed")
            }
        }
    }

    // The two gaps of an event between two others.
    fn gaps<W: fmt::Write>(&self, f: &mut Formatter<W>, a: Lag, b: Lag) -> fmt::Result {
        let gap = Said(a);
        match self.step.machine.resting {
            // Whether a second character takes the thumb.
            Resting::S4(key, ..) => {
                let key = Said(key);
                let nearer = nearer(waits::second_character_takes_thumb(a, b));
                write!(f, ", which came {gap} after {key}")?;
                write!(f, "; the thumb is {nearer}this press than to {key}")
            }
            // Whether a second thumb takes the character.
            Resting::S5(thumb, _, key, _) => {
                let (thumb, key) = (The(thumb), Said(key));
                let nearer = nearer(!waits::second_thumb_takes_character(a, b));
                write!(f, ", which came {gap} after {thumb}")?;
                write!(f, "; {key} is {nearer}{thumb} than to this press")
            }
            // Whether a pair stays together.
            Resting::S7(key, _, second, _) => write!(f, "{}", Stays { key, second, a, b }),
            // The event came after the first key's release; it is compared from the second key on.
            Resting::S8(key, _, second, ..) => {
                write!(f, " and {} after {}", Said(b), Said(second))?;
                write!(f, "{}", Stays { key, second, a, b })
            }
            _ => Ok(()),
        }
    }

    // The stamp from which on the overlap suffices.
    fn enough(&self) -> Option<Stamp> {
        let sooner = self.numbers.sooner.map(|stamp| waits::later(stamp, Lag(1)));
        self.numbers.later.or(sooner)
    }

    // Whether what is measured is an overlap: a release that came too early, or late enough.
    fn is_overlap(&self) -> bool {
        matches!(
            self.numbers.compared,
            Compared::Overlaps(..) | Compared::OverlapsAsPair(..)
        )
    }

    // What is missing of an overlap, and what of it was not needed: `, not が; 10 ms too early`, `, not か; 0 ms to spare`.
    fn overlap<W: fmt::Write>(&self, f: &mut Formatter<W>) -> fmt::Result {
        let stamp = self.step.event.stamp;
        if let Some(later) = self.later {
            let missing = lag(stamp, later.event.stamp);
            self.wanted(f, later.items)?;
            write!(f, "; {} too early", Said(missing))?;
        }
        if let Some(sooner) = self.sooner {
            let spare = lag(waits::later(sooner.event.stamp, Lag(1)), stamp);
            write!(f, "{}; {} to spare", not(sooner.items), Said(spare))?;
        }
        Ok(())
    }

    // What a longer overlap would have given, where this one committed nothing: `: が not yet`.
    fn wanted<W: fmt::Write>(&self, f: &mut Formatter<W>, items: Items) -> fmt::Result {
        match (self.step.items, items) {
            (Items::None, Items::None) => write!(f, ": {}", Said(items)),
            (Items::None, _) => write!(f, ": {} not yet", Said(items)),
            _ => write!(f, "{}", not(items)),
        }
    }

    // Both other decisions; where they are the same, it is said once.
    fn others<W: fmt::Write>(&self, f: &mut Formatter<W>) -> fmt::Result {
        match (self.later, self.sooner) {
            (Some(later), Some(sooner)) if words(later.items) == words(sooner.items) => {
                self.other(f, sooner)?;
                write!(f, " or {}", self.step.shift_to(&later))
            }
            (later, sooner) => {
                for other in [later, sooner].into_iter().flatten() {
                    self.other(f, other)?;
                }
                Ok(())
            }
        }
    }

    // `; が if 10 ms later`.
    fn other<W: fmt::Write>(&self, f: &mut Formatter<W>, other: Step) -> fmt::Result {
        f.write_str("; ")?;
        if is_none(other.items) {
            write!(f, "{}", Left(other))?;
        } else {
            write!(f, "{}", Said(other.items))?;
            // Where it reads as the event's own, also whose character it is.
            if words(self.step.items) == words(other.items) {
                write!(f, "{}", Whose(other.items))?;
            }
        }
        write!(f, " if {}", self.step.shift_to(&other))
    }
}

impl fmt::Display for Sentence {
    fn fmt<W: fmt::Write>(&self, f: &mut Formatter<W>) -> fmt::Result {
        if self.numbers.late {
            self.late(f)?;
        } else {
            self.in_time(f)?;
        }
        if self.step.acts_as_tick() {
            f.write_str(", as a tick")?;
        }
        if self.is_overlap() {
            self.overlap(f)
        } else {
            self.others(f)
        }
    }
}

// What happened: `key 21 released`.
#[derive(Clone, Copy)]
struct What {
    held: u32,
    resting: Resting,
    input: Input,
}

impl fmt::Display for What {
    fn fmt<W: fmt::Write>(&self, f: &mut Formatter<W>) -> fmt::Result {
        match self.input {
            Input::CharacterDown(key) => {
                let held = held::is_held(self.held, key);
                let pressed = if held { " repeated" } else { " pressed" };
                write!(f, "{}{pressed}", Said(key))
            }
            Input::CharacterUp(key) => {
                let held = held::is_held(self.held, key);
                let released = if held {
                    " released"
                } else {
                    ", not held, released"
                };
                write!(f, "{}{released}", Said(key))
            }
            Input::ThumbDown(thumb) => {
                let pressed = if is_set(self.resting, thumb) {
                    " pressed again"
                } else {
                    " pressed"
                };
                write!(f, "{}{pressed}", Said(thumb))
            }
            Input::ThumbUp(thumb) => write!(f, "{} released", Said(thumb)),
            Input::FunctionDown => f.write_str("function key pressed"),
            Input::Tick => f.write_str("tick"),
        }
    }
}

// Whether a thumb is set.
fn is_set(resting: Resting, thumb: Thumb) -> bool {
    match resting {
        Resting::S3(own, _) | Resting::S4(_, _, own, _) | Resting::S5(own, ..) => own == thumb,
        _ => false,
    }
}

// Whether an event is of the key or thumb whose press began the state.
fn is_own(resting: Resting, input: Input) -> bool {
    match resting {
        Resting::S2(key, _) | Resting::S5(_, _, key, _) | Resting::S7(_, _, key, _) => match input {
            Input::CharacterDown(own) | Input::CharacterUp(own) => own == key,
            _ => false,
        },
        Resting::S3(thumb, _) | Resting::S4(_, _, thumb, _) => match input {
            Input::ThumbDown(own) | Input::ThumbUp(own) => own == thumb,
            _ => false,
        },
        _ => false,
    }
}

// What began a state that rests.
#[derive(Clone, Copy)]
struct Began(Resting);

impl fmt::Display for Began {
    fn fmt<W: fmt::Write>(&self, f: &mut Formatter<W>) -> fmt::Result {
        match self.0 {
            Resting::S1 => Ok(()),
            Resting::S2(key, _) | Resting::S5(_, _, key, _) | Resting::S7(_, _, key, _) => {
                write!(f, "{}", Said(key))
            }
            Resting::S3(thumb, _) | Resting::S4(_, _, thumb, _) => write!(f, "{}", The(thumb)),
            Resting::S6(thumb, ..) => write!(f, "{}'s release", The(thumb)),
            Resting::S8(key, ..) => write!(f, "{}'s release", Said(key)),
        }
    }
}

// How long after what began a state: ` 20 ms after the right thumb`.
#[derive(Clone, Copy)]
struct After(Resting, Stamp);

impl fmt::Display for After {
    fn fmt<W: fmt::Write>(&self, f: &mut Formatter<W>) -> fmt::Result {
        let After(resting, stamp) = *self;
        match resting {
            Resting::S1 => Ok(()),
            _ => {
                let gap = lag(began(resting), stamp);
                write!(f, " {} after {}", Said(gap), Began(resting))
            }
        }
    }
}

// What stayed as it was until the deadline: `key 21 was still down 30 ms after the right thumb`, `nothing joined key 21 within 100 ms`.
#[derive(Clone, Copy)]
struct Missed(Resting, Stamp);

impl fmt::Display for Missed {
    fn fmt<W: fmt::Write>(&self, f: &mut Formatter<W>) -> fmt::Result {
        let Missed(resting, deadline) = *self;
        match resting {
            Resting::S2(..) | Resting::S3(..) => {
                let wait = lag(began(resting), deadline);
                return write!(f, "nothing joined {} within {}", Began(resting), Said(wait));
            }
            Resting::S4(key, ..) | Resting::S6(_, _, key, ..) | Resting::S8(_, _, key, ..) => {
                write!(f, "{} was still down", Said(key))?;
            }
            Resting::S5(thumb, ..) => write!(f, "{} was still down", The(thumb))?,
            Resting::S7(..) => f.write_str("both keys were still down")?,
            Resting::S1 => f.write_str("nothing followed")?,
        }
        write!(f, "{}", After(resting, deadline))
    }
}

fn nearer(is: bool) -> &'static str {
    if is { "nearer to " } else { "no nearer to " }
}

// Whether a pair stays together.
#[derive(Clone, Copy)]
struct Stays {
    key: Key,
    second: Key,
    a: Lag,
    b: Lag,
}

impl fmt::Display for Stays {
    fn fmt<W: fmt::Write>(&self, f: &mut Formatter<W>) -> fmt::Result {
        let (key, second) = (Said(self.key), Said(self.second));
        let nearer = nearer(waits::pair_stays(self.a, self.b));
        write!(f, ", which came {} after {key}", Said(self.a))?;
        write!(f, "; {second} is {nearer}{key} than to this press")
    }
}

// Items with words before them, as `: が` or `, not が`; nothing where there are none.
#[derive(Clone, Copy)]
struct Behind(&'static str, Items);

impl fmt::Display for Behind {
    fn fmt<W: fmt::Write>(&self, f: &mut Formatter<W>) -> fmt::Result {
        match *self {
            Behind(_, Items::None) => Ok(()),
            Behind(words, items) => write!(f, "{words}{}", Said(items)),
        }
    }
}

fn not(items: Items) -> Behind {
    Behind(", not ", items)
}

// What a decision that commits nothing leaves: two that wait together, or all as it was.
#[derive(Clone, Copy)]
struct Left(Step);

impl fmt::Display for Left {
    fn fmt<W: fmt::Write>(&self, f: &mut Formatter<W>) -> fmt::Result {
        match self.0.after.resting {
            _ if self.0.stays() => f.write_str("nothing yet"),
            Resting::S4(key, _, thumb, _) | Resting::S5(thumb, _, key, _) => {
                write!(f, "{} and {} together", Said(key), The(thumb))
            }
            Resting::S7(key, _, second, _) => {
                write!(f, "{} and {} together", Said(key), Said(second))
            }
            _ => f.write_str("nothing yet"),
        }
    }
}

// Whose character it is.
#[derive(Clone, Copy)]
struct Whose(Items);

impl fmt::Display for Whose {
    fn fmt<W: fmt::Write>(&self, f: &mut Formatter<W>) -> fmt::Result {
        match self.0 {
            Items::One(Item::Character(key, _)) => write!(f, " for {}", Said(key)),
            Items::One(Item::Together(..)) => f.write_str(" for both keys"),
            _ => Ok(()),
        }
    }
}
