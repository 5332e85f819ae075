// Decisions of the second opinion: what is decided from a place, and from where to go on. Each function looks forward with what is set and
// decides by the event that it sees.
ghost use Rattle.std.specs.Prelude.{◌∷◌, ◌++◌, [], ◌≡◌};
ghost use Rattle.rules.specs.Items.{listed};
ghost use Rattle.rules.specs.Refusal.{kind_number};
ghost use Rattle.opinions.specs.Opinion as opinions;
ghost use Rattle.second_opinion.specs.Views.{maybe, ListFrom, from};
ghost use Rattle.second_opinion.specs.Decided.{marks, still_set, waiting, decided};

use crate::due_stamps::{Opened, gap, released_due};
use crate::looking::{Waiting, is_late};
use crate::places::{Heard, is};
use rules::{Face, Item, Items, Key, Kind, Stamp, Thumb};
use waits::short_overlap;

// What is set at a place: nothing, a thumb, or a thumb that was given to the letter there.
#[derive(Clone, Copy)]
pub enum Set {
    Free,
    Thumb(Heard),
    Given(Heard),
}

// How one goes on: the list is over, and a letter may wait; or from a place.
#[derive(Clone, Copy)]
pub enum Next {
    Over(Option<Heard>),
    On(Set, usize),
}

// What is committed, and how one goes on.
#[derive(Clone, Copy)]
pub struct Decision {
    pub items: Items,
    pub next: Next,
}

fn over(items: Items, letter: Option<Heard>) -> Decision
    ensures { (from : ListFrom) → decided from result ≡ opinions.over (listed items) (waiting letter) }
{
    Decision {
        items,
        next: Next::Over(letter),
    }
}

fn on(items: Items, set: Set, at: usize) -> Decision
    ensures { (from : ListFrom) → decided from result ≡ opinions.on (listed items) (still_set set) (from at) }
{
    Decision {
        items,
        next: Next::On(set, at),
    }
}

fn which(thumb: Heard) -> Thumb
    ensures { result ≡ opinions.which thumb.event }
{
    if thumb.event.key == Key(0) {
        return Thumb::Left;
    }
    Thumb::Right
}

fn alone(letter: Heard) -> Item
    ensures { (result ∷ []) ≡ opinions.alone letter.event }
{
    Item::Character(letter.event.key, Face::Plain)
}

fn together(letter: Heard, thumb: Heard) -> Item
    ensures { (result ∷ []) ≡ opinions.together letter.event thumb.event }
{
    Item::Character(letter.event.key, Face::With(which(thumb)))
}

// A mark or none.
fn only(first: Option<Thumb>) -> Items
    ensures { listed result ≡ marks first }
{
    match first {
        None => Items::None,
        Some(thumb) => Items::One(Item::Mark(thumb)),
    }
}

// A mark or none, and then an item.
fn items(first: Option<Thumb>, item: Item) -> Items
    ensures { listed result ≡ marks first ++ (item ∷ []) }
{
    match first {
        None => Items::One(item),
        Some(thumb) => Items::Two(Item::Mark(thumb), item),
    }
}

// Whether an event of a kind comes in time.
fn in_time(kind: Kind, due: Option<Stamp>, e: Heard) -> bool
    ensures { result ≡ opinions.in_time (kind_number kind) (maybe due) e.event }
{
    !is_late(due, e) && is(kind, e.event)
}

impl Opened<'_> {
    // The mark of a thumb alone, if one is wanted.
    fn mark(self, thumb: Heard) -> Option<Thumb>
        ensures { marks result ≡ opinions.mark self.entry.settings thumb.event }
    {
        if self.settings.solo == 1 {
            return Some(which(thumb));
        }
        None
    }

    // S6: thumb, then letter, and the thumb was released.
    fn from_released(self, thumb: Heard, letter: Heard, release: Heard, at: usize) -> Decision
        ensures { decided (from self.entry.events) result
            ≡ opinions.from_released self.entry.settings thumb.event letter.event release.event (from self.entry.events at) }
    {
        let due = released_due(letter, release);
        let waiting = Waiting {
            letter: Some(letter),
            thumb: None,
            due,
        };
        let Some((i, e)) = self.events.ahead(at, waiting) else {
            return over(Items::None, Some(letter));
        };
        if is_late(due, e) || is(Kind::FunctionDown, e.event) {
            return on(items(self.mark(thumb), alone(letter)), Set::Free, i);
        }
        on(Items::One(together(letter, thumb)), Set::Free, i)
    }

    // S4: letter, then thumb. A mark may have come before.
    #[tactic(auto, unfolding(rules::specs::OneEvent::short_overlap, opinions::specs::Opinion::short))]
    fn from_letter_first(
        self,
        first: Option<Thumb>,
        letter: Heard,
        thumb: Heard,
        at: usize,
    ) -> Decision
        ensures { decided (from self.entry.events) result
            ≡ opinions.after (marks first)
            (opinions.from_letter_first self.entry.settings letter.event thumb.event (from self.entry.events at)) }
    {
        let due = self.letter_first_due(letter, thumb);
        let waiting = Waiting {
            letter: Some(letter),
            thumb: Some(thumb),
            due,
        };
        let Some((i, e)) = self.events.ahead(at, waiting) else {
            return over(only(first), Some(letter));
        };
        if in_time(Kind::CharacterDown, due, e) && gap(thumb, e) < gap(letter, thumb) {
            return on(items(first, alone(letter)), Set::Given(thumb), i);
        }
        if in_time(Kind::CharacterUp, due, e)
            && short_overlap(self.settings.j, gap(letter, thumb), gap(thumb, e))
        {
            return on(items(first, alone(letter)), Set::Thumb(thumb), i + 1);
        }
        on(items(first, together(letter, thumb)), Set::Free, i)
    }

    // S5: thumb, then letter.
    #[tactic(auto, unfolding(rules::specs::OneEvent::short_overlap, opinions::specs::Opinion::short))]
    fn from_thumb_first(self, thumb: Heard, letter: Heard, at: usize) -> Decision
        ensures { decided (from self.entry.events) result
            ≡ opinions.from_thumb_first self.entry.settings thumb.event letter.event (from self.entry.events at) }
    {
        let due = self.thumb_first_due(thumb, letter);
        let waiting = Waiting {
            letter: Some(letter),
            thumb: Some(thumb),
            due,
        };
        let Some((i, e)) = self.events.ahead(at, waiting) else {
            return over(Items::None, Some(letter));
        };
        if in_time(Kind::ThumbDown, due, e) && gap(letter, e) <= gap(thumb, letter) {
            return self.from_letter_first(self.mark(thumb), letter, e, i + 1);
        }
        if in_time(Kind::ThumbUp, due, e)
            && short_overlap(self.settings.l, gap(thumb, letter), gap(letter, e))
        {
            return self.from_released(thumb, letter, e, i + 1);
        }
        on(Items::One(together(letter, thumb)), Set::Free, i)
    }

    // S2: a letter, and no thumb set.
    fn from_letter(self, letter: Heard, at: usize) -> Decision
        ensures { decided (from self.entry.events) result
            ≡ opinions.from_letter self.entry.settings letter.event (from self.entry.events at) }
    {
        let due = self.letter_due(letter);
        let waiting = Waiting {
            letter: Some(letter),
            thumb: None,
            due,
        };
        let Some((i, e)) = self.events.ahead(at, waiting) else {
            return over(Items::None, Some(letter));
        };
        if in_time(Kind::ThumbDown, due, e) {
            return self.from_letter_first(None, letter, e, i + 1);
        }
        on(Items::One(alone(letter)), Set::Free, i)
    }

    // S3: a thumb set.
    fn with_thumb(self, thumb: Heard, at: usize) -> Decision
        ensures { decided (from self.entry.events) result
            ≡ opinions.decide self.entry.settings (opinions.thumb thumb.event) (from self.entry.events at) }
    {
        let due = self.thumb_due(thumb);
        let waiting = Waiting {
            letter: None,
            thumb: Some(thumb),
            due,
        };
        let Some((i, e)) = self.events.ahead(at, waiting) else {
            return over(Items::None, None);
        };
        if in_time(Kind::CharacterDown, due, e) {
            return self.from_thumb_first(thumb, e, i + 1);
        }
        on(only(self.mark(thumb)), Set::Free, i)
    }

    // S1: nothing set.
    #[tactic(auto, using(crate::proofs::Forward::past))]
    fn with_nothing(self, at: usize) -> Decision
        ensures { decided (from self.entry.events) result
            ≡ opinions.decide self.entry.settings opinions.free (from self.entry.events at) }
    {
        if self.events.n <= at {
            return over(Items::None, None);
        }
        let e = self.events.heard_at(at);
        if is(Kind::CharacterDown, e.event) {
            return self.from_letter(e, at + 1);
        }
        if is(Kind::ThumbDown, e.event) {
            return on(Items::None, Set::Thumb(e), at + 1);
        }
        on(Items::None, Set::Free, at + 1)
    }

    // A thumb that was given to the letter at a place.
    #[tactic(auto, using(crate::proofs::Forward::past))]
    fn with_given(self, thumb: Heard, at: usize) -> Decision
        ensures { decided (from self.entry.events) result
            ≡ opinions.decide self.entry.settings (opinions.given thumb.event) (from self.entry.events at) }
    {
        if self.events.n <= at {
            return over(Items::None, None);
        }
        let letter = self.events.heard_at(at);
        self.from_thumb_first(thumb, letter, at + 1)
    }

    // The next decision from a place.
    pub fn decide(self, set: Set, at: usize) -> Decision
        ensures { decided (from self.entry.events) result
            ≡ opinions.decide self.entry.settings (still_set set) (from self.entry.events at) }
    {
        match set {
            Set::Free => self.with_nothing(at),
            Set::Thumb(thumb) => self.with_thumb(thumb, at),
            Set::Given(thumb) => self.with_given(thumb, at),
        }
    }
}
