// What a rule can do: commit nothing, a character, a mark, both, two characters or that of a pair, and leave a state. Key is a character
// key, second another, thumb a thumb.
#![tactic(auto)]

ghost use Rattle.std.specs.Prelude.{◌≡◌, ◌++◌, eqb};
ghost use Rattle.rules.specs.OneEvent.{◌leaving◌, nothing, mark, plain, chord, together};
ghost use Rattle.rules.specs.declared.Resting.TheVariants.{S1};
ghost use Rattle.pairs.specs.Lent.{lent_by};
ghost use Rattle.effects.specs.Views.{done};

use pairs::{Lent, pair_character};
use rules::{Face, Item, Items, Key, Resting, Settings, Thumb};

// What a rule does: the items that it commits, and the state that it leaves.
#[derive(Clone, Copy)]
pub struct Effect {
    pub items: Items,
    pub resting: Resting,
}

// Whether a lone thumb press yields a mark.
fn yields_mark(s: Settings) -> bool
    ensures { result ≡ eqb s.solo 1 }
{
    s.solo == 1
}

// Nothing is committed.
pub fn goes_to(resting: Resting) -> Effect
    ensures { done result ≡ (nothing leaving resting) }
{
    Effect {
        items: Items::None,
        resting,
    }
}

// M alone is committed.
pub fn commits_plain(key: Key, resting: Resting) -> Effect
    ensures { done result ≡ (plain key leaving resting) }
{
    Effect {
        items: Items::One(Item::Character(key, Face::Plain)),
        resting,
    }
}

// M+O is committed.
pub fn commits_chord(key: Key, thumb: Thumb, resting: Resting) -> Effect
    ensures { done result ≡ (chord key thumb leaving resting) }
{
    Effect {
        items: Items::One(Item::Character(key, Face::With(thumb))),
        resting,
    }
}

// The mark of O is committed, with solo 1.
#[tactic(auto, unfolding(rules::specs::OneEvent::mark))]
pub fn commits_mark(s: Settings, thumb: Thumb, resting: Resting) -> Effect
    ensures { done result ≡ (mark s thumb leaving resting) }
{
    if yields_mark(s) {
        return Effect {
            items: Items::One(Item::Mark(thumb)),
            resting,
        };
    }
    goes_to(resting)
}

// The mark of O, with solo 1, then M alone.
#[tactic(auto, unfolding(rules::specs::OneEvent::mark))]
pub fn commits_both(s: Settings, thumb: Thumb, key: Key) -> Effect
    ensures { done result ≡ ((mark s thumb ++ plain key) leaving S1) }
{
    if yields_mark(s) {
        return Effect {
            items: Items::Two(Item::Mark(thumb), Item::Character(key, Face::Plain)),
            resting: Resting::S1,
        };
    }
    commits_plain(key, Resting::S1)
}

// M alone, then K alone.
pub fn commits_two(key: Key, second: Key, resting: Resting) -> Effect
    ensures { done result ≡ ((plain key ++ plain second) leaving resting) }
{
    Effect {
        items: Items::Two(
            Item::Character(key, Face::Plain),
            Item::Character(second, Face::Plain),
        ),
        resting,
    }
}

// The character that the list gives M and K is committed.
pub fn commits_pair(given: Lent<'_>, key: Key, second: Key, resting: Resting) -> Effect
    ensures { done result ≡ (together (lent_by given.entry) key second leaving resting) }
{
    Effect {
        items: Items::One(Item::Together(key, second, pair_character(given.list, key, second))),
        resting,
    }
}
