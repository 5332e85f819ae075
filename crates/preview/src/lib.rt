// Zero delay: what a step sends, from what was shown before it, what it commits and what is shown after it.
#![tactic(auto)]

ghost use Rattle.std.specs.Prelude.{◌≡◌, ◌++◌};
ghost use Rattle.rules.specs.ZeroDelay.{sign_unless_0, character, signs, shown, sent};
ghost use Rattle.rules.specs.Items.{listed};
ghost use Rattle.rules.specs.declared.Face.TheVariants.{Plain};
ghost use Rattle.preview.specs.Views.{shown_list, put_before, behind_first, sign_list, packed, Holds, Sends};

use layout::word;
use rules::{Face, Items, Key, Resting};

// Up to four signs as words, in order: a character's code point, 1 for the left mark, 2 for the right one. They are packed to
// the front, 0 behind the last. They are four fields, since a host in C is given them as fields (`packed`, `answer_numbers`).
#[derive(Clone, Copy)]
pub struct Signs {
    pub first: u16,
    pub second: u16,
    pub third: u16,
    pub fourth: u16,
}

// What a step sends: so many backspaces, then signs.
#[derive(Clone, Copy)]
pub struct Sendings {
    pub backspaces: u8,
    pub signs: Signs,
}

// What is shown while one or two characters wait: their words in order, 0 for none.
#[derive(Clone, Copy)]
struct Shown {
    first: u16,
    second: u16,
}

// One character is shown, by its key and face.
fn shows_one(key: Key, face: Face) -> Shown
    ensures { shown_list result ≡ character key face }
{
    Shown {
        first: layout::code_point(key, face),
        second: 0,
    }
}

// Two letters are shown, both plain.
fn shows_two(key: Key, second: Key) -> Shown
    ensures { shown_list result ≡ (character key Plain ++ character second Plain) }
{
    Shown {
        first: layout::code_point(key, Face::Plain),
        second: layout::code_point(second, Face::Plain),
    }
}

fn shows_nothing() -> Shown
    ensures { result ≡ record { first = 0; second = 0 } }
{
    Shown {
        first: 0,
        second: 0,
    }
}

// What is shown while a resting state waits.
fn shown_words(resting: Resting) -> Shown
    ensures { shown_list result ≡ shown resting }
{
    match resting {
        Resting::S1 => shows_nothing(),
        Resting::S2(key, _) => shows_one(key, Face::Plain),
        Resting::S3(_, _) => shows_nothing(),
        Resting::S4(key, _, _, _) => shows_one(key, Face::Plain),
        Resting::S5(thumb, _, key, _) => shows_one(key, Face::With(thumb)),
        Resting::S6(thumb, _, key, _, _) => shows_one(key, Face::With(thumb)),
        Resting::S7(key, _, second, _) => shows_two(key, second),
        Resting::S8(key, _, second, _, _) => shows_two(key, second),
    }
}

// A word in front of up to three signs; 0 is no sign.
fn put_before(word: u16, q: Signs) -> Signs
    ensures { result ≡ put_before word q }
{
    if word == 0 {
        return q;
    }
    Signs {
        first: word,
        second: q.first,
        third: q.second,
        fourth: q.third,
    }
}

// The signs behind the first.
fn behind_first(q: Signs) -> Signs
    ensures { result ≡ behind_first q }
{
    Signs {
        first: q.second,
        second: q.third,
        third: q.fourth,
        fourth: 0,
    }
}

// What is shown, as signs.
fn shown_signs(shown: Shown) -> Signs
    ensures { Holds result (shown_list shown) }
{
    let none = Signs {
        first: 0,
        second: 0,
        third: 0,
        fourth: 0,
    };
    put_before(shown.first, put_before(shown.second, none))
}

// The signs of a step: those of its items, then what is shown after it.
fn step_signs(items: Items, after: Resting) -> Signs
    ensures { Holds result (signs (listed items) ++ shown after) }
{
    let last = shown_signs(shown_words(after));
    match items {
        Items::None => last,
        Items::One(item) => put_before(word(item), last),
        Items::Two(item, other) => put_before(word(item), put_before(word(other), last)),
    }
}

// What is sent where p was shown (0 for nothing) and the signs q follow: a p that q begins with stays, any other is taken back.
fn instead_of_one(p: u16, q: Signs) -> Sendings
    requires { q ≡ packed (sign_list q) }
    ensures { Sends result (sent (sign_unless_0 p) (sign_list q)) }
{
    if p == 0 {
        return Sendings {
            backspaces: 0,
            signs: q,
        };
    }
    if p == q.first {
        return Sendings {
            backspaces: 0,
            signs: behind_first(q),
        };
    }
    Sendings {
        backspaces: 1,
        signs: q,
    }
}

// The same where up to two were shown: if the first does not stay, both are taken back.
fn instead_of(p: Shown, q: Signs) -> Sendings
    requires { q ≡ packed (sign_list q) }
    ensures { Sends result (sent (shown_list p) (sign_list q)) }
{
    if p.first == 0 {
        return instead_of_one(p.second, q);
    }
    if p.first == q.first {
        return instead_of_one(p.second, behind_first(q));
    }
    if p.second == 0 {
        return Sendings {
            backspaces: 1,
            signs: q,
        };
    }
    Sendings {
        backspaces: 2,
        signs: q,
    }
}

// What a step sends that commits items and goes from one resting state to another.
pub fn sent(before: Resting, items: Items, after: Resting) -> Sendings
    ensures { Sends result (sent (shown before) (signs (listed items) ++ shown after)) }
{
    instead_of(shown_words(before), step_signs(items, after))
}
