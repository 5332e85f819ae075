// An accepted event, what the same event would have decided at another stamp, and so how close its decision was.
use crate::words::Said;
use pairs::Lent;
use rules::{Event, Input, Item, Items, Kind, Lag, Machine, Refusal, Resting, Stamp, Thumb};
use std::fmt;
use std::fmt::Formatter;
use waits::lag;
use why::Numbers;

// An accepted event: the machine before it, what it committed, and the machine behind it.
#[derive(Clone, Copy)]
pub struct Step {
    pub machine: Machine,
    pub event: Event,
    pub items: Items,
    pub after: Machine,
}

// How far from an event the same one would have decided otherwise.
#[derive(Clone, Copy)]
pub struct Shift {
    pub by: Lag,
    pub side: Side,
}

#[derive(Clone, Copy)]
pub enum Side {
    Sooner,
    Later,
}

// Which item of a decision another one does not commit at its place.
#[derive(Clone, Copy)]
pub enum Stake {
    First,
    Second,
}

// What turns a decision: the nearest shift, the item at stake, and the first word of what would have been committed.
#[derive(Clone, Copy)]
pub struct Margin {
    pub shift: Shift,
    pub stake: Stake,
    pub word: u16,
}

// How close the decision of an event was.
#[derive(Clone, Copy)]
pub enum Closeness {
    // It decided nothing.
    Undecided,
    // No other stamp would have turned it.
    Certain,
    By(Margin),
}

// An item as it is compared: a pair's character is another one than a key's.
#[derive(Clone, Copy, PartialEq, Eq)]
pub struct Character {
    pub word: u16,
    pub of_pair: bool,
}

// The items in order.
pub fn in_order(items: Items) -> [Option<Item>; 2] {
    match items {
        Items::None => [None, None],
        Items::One(item) => [Some(item), None],
        Items::Two(item, other) => [Some(item), Some(other)],
    }
}

pub fn words(items: Items) -> [Option<u16>; 2] {
    in_order(items).map(|item| item.map(layout::word))
}

pub fn is_none(items: Items) -> bool {
    matches!(items, Items::None)
}

// A state's number: 4 is that of S4.
pub fn number_of(resting: Resting) -> u8 {
    match resting {
        Resting::S1 => 1,
        Resting::S2(..) => 2,
        Resting::S3(..) => 3,
        Resting::S4(..) => 4,
        Resting::S5(..) => 5,
        Resting::S6(..) => 6,
        Resting::S7(..) => 7,
        Resting::S8(..) => 8,
    }
}

// Whether the first of two was let go, and what it means is still open.
pub fn is_released(resting: Resting) -> bool {
    matches!(resting, Resting::S6(..) | Resting::S8(..))
}

impl From<Item> for Character {
    fn from(item: Item) -> Character {
        Character {
            word: layout::word(item),
            of_pair: matches!(item, Item::Together(..)),
        }
    }
}

impl fmt::Display for Shift {
    fn fmt<W: fmt::Write>(&self, f: &mut Formatter<W>) -> fmt::Result {
        let side = match self.side {
            Side::Sooner => " ms sooner",
            Side::Later => " ms later",
        };
        write!(f, "{}{side}", self.by.0)
    }
}

impl Closeness {
    pub fn margin(self) -> Option<Margin> {
        match self {
            Closeness::By(margin) => Some(margin),
            Closeness::Undecided | Closeness::Certain => None,
        }
    }
}

impl Step {
    // One event at a machine.
    pub fn take(lent: Lent<'_>, machine: Machine, event: Event) -> Result<Step, Refusal> {
        let stepped = engine::step(lent, machine, event)?;
        Ok(Step {
            machine,
            event,
            items: stepped.items,
            after: stepped.machine,
        })
    }

    // The same event at another stamp, if it can have come then.
    pub fn at(&self, lent: Lent<'_>, stamp: Option<Stamp>) -> Option<Step> {
        let event = Event {
            stamp: stamp?,
            ..self.event
        };
        Step::take(lent, self.machine, event).ok()
    }

    // The numbers of its reason.
    pub fn numbers(&self, lent: Lent<'_>) -> Numbers {
        why::numbers_at(lent, self.machine, self.event)
    }

    // The deadline of what rests behind it.
    pub fn deadline(&self, lent: Lent<'_>) -> Option<Stamp> {
        why::deadline_of(lent, self.after)
    }

    // The input that the event is.
    pub fn input(&self) -> Input {
        let key = self.event.key;
        let thumb = if key.0 == 0 {
            Thumb::Left
        } else {
            Thumb::Right
        };
        match Kind::try_from(self.event.kind) {
            Ok(Kind::CharacterDown) => Input::CharacterDown(key),
            Ok(Kind::CharacterUp) => Input::CharacterUp(key),
            Ok(Kind::ThumbDown) => Input::ThumbDown(thumb),
            Ok(Kind::ThumbUp) => Input::ThumbUp(thumb),
            Ok(Kind::FunctionDown) => Input::FunctionDown,
            Ok(Kind::Tick) | Err(_) => Input::Tick,
        }
    }

    // A key of the held set pressed again, or one released that is not in it, does what a tick does.
    pub fn acts_as_tick(&self) -> bool {
        match self.input() {
            Input::CharacterDown(key) => held::is_held(self.machine.held, key),
            Input::CharacterUp(key) => !held::is_held(self.machine.held, key),
            _ => false,
        }
    }

    // Whether the state stayed as it was. Where another stamp decides otherwise, none leads to another state of the same name.
    pub fn stays(&self) -> bool {
        number_of(self.machine.resting) == number_of(self.after.resting)
    }

    // Whether it changed more than the last stamp.
    pub fn changes(&self) -> bool {
        !is_none(self.items)
            || self.machine.held != self.after.held
            || !self.stays()
            // S3, another thumb.
            || margins::began(self.machine.resting) < margins::began(self.after.resting)
    }

    // The first item that another decision does not commit too. One that commits nothing and leaves all as it was turns nothing.
    fn stake(&self, other: &Step) -> Option<Stake> {
        if is_none(other.items) && other.stays() {
            return None;
        }
        let own = in_order(self.items).map(|item| item.map(Character::from));
        let others = in_order(other.items).map(|item| item.map(Character::from));
        if own[0] != others[0] {
            Some(Stake::First)
        } else if own[1].is_some() && own[1] != others[1] {
            Some(Stake::Second)
        } else {
            None
        }
    }

    // How far away the same event is at another stamp.
    pub fn shift_to(&self, other: &Step) -> Shift {
        let (own, turn) = (self.event.stamp, other.event.stamp);
        if own < turn {
            Shift {
                by: lag(own, turn),
                side: Side::Later,
            }
        } else {
            Shift {
                by: lag(turn, own),
                side: Side::Sooner,
            }
        }
    }

    // How far away another decision was, if it turned this one.
    fn turned_by(&self, other: Option<Step>) -> Option<Margin> {
        let other = other?;
        Some(Margin {
            shift: self.shift_to(&other),
            stake: self.stake(&other)?,
            word: words(other.items)[0].unwrap_or(0),
        })
    }

    // How many milliseconds later or sooner would have turned its decision.
    fn margin(&self, lent: Lent<'_>) -> Option<Margin> {
        let numbers = self.numbers(lent);
        let later = self.turned_by(self.at(lent, numbers.later));
        let sooner = self.turned_by(self.at(lent, numbers.sooner));
        match (later, sooner) {
            (Some(a), Some(b)) if a.shift.by < b.shift.by => later,
            (_, Some(_)) => sooner,
            (_, None) => later,
        }
    }

    // The same of an event that decides something: it commits, or leads to another state where it might have committed.
    pub fn closeness(&self, lent: Lent<'_>) -> Closeness {
        match self.margin(lent) {
            Some(margin) if !is_none(self.items) || !self.stays() => Closeness::By(margin),
            None if !is_none(self.items) => Closeness::Certain,
            _ => Closeness::Undecided,
        }
    }
}
