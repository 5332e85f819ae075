// Decision after decision over the whole list: the words are counted, and then written.
ghost use Rattle.std.specs.Prelude.{◌+◌, ◌*◌, ◌≤◌, ◌≡◌, length};
ghost use Rattle.filled.specs.Filled.{filled, Stored};
ghost use Rattle.keylog.specs.Runs.{high_first};
ghost use Rattle.rules.specs.Items.{listed};
ghost use Rattle.second_opinion.specs.Telling.{packed, words_of, Counts, told_in, untold, Tells};

use crate::decisions::{Next, Set};
use crate::due_stamps::Opened;
use crate::words::of_items;
use keylog::Words;

// How many words there are, and how many characters wait.
#[derive(Clone, Copy)]
pub struct Total {
    pub words: usize,
    pub waiting: u32,
}

// What is told decision after decision: so many more at most, from a place on.
#[derive(Clone, Copy)]
pub struct Telling<'a> {
    pub opened: Opened<'a>,
    pub left: usize,
    pub next: Next,
}

impl<'a> Telling<'a> {
    // Two decisions for each event, and one, are enough.
    fn all(opened: Opened<'a>) -> Telling<'a>
        ensures told { untold result ≡ told_in opened.entry }
        ensures left { result.left ≡ 2 * opened.entry.events.n + 1 }
    {
        Telling {
            opened,
            left: 2 * opened.events.n + 1,
            next: Next::On(Set::Free, 0),
        }
    }

    // The words of the next decision, if there is one.
    fn next_words(&mut self) -> Option<Words>
        ensures { Tells self.old result self.new }
    {
        let Next::On(set, at) = self.next else {
            return None;
        };
        if self.left == 0 {
            return None;
        }
        self.left -= 1;
        let decision = self.opened.decide(set, at);
        self.next = decision.next;
        Some(of_items(decision.items))
    }
}

fn how_many(words: Words) -> usize
    ensures { result ≡ length (listed words) }
{
    match words {
        Words::None => 0,
        Words::One(_) => 1,
        Words::Two(_, _) => 2,
    }
}

// A word at a place: two bytes, the high one first. Answers the place behind it.
fn put_word(out: &mut [u8], at: usize, word: u16) -> usize
    requires { at + 2 ≤ length out.old }
    ensures { Stored at (high_first word) out.old result out.new }
{
    let behind = at + 2;
    out[at..behind].copy_from_slice(&word.to_be_bytes());
    behind
}

#[tactic(auto, using(crate::proofs::Sizes::none_stored, filled::proofs::Filling::stored_both), unfolding(keylog::specs::Runs::encoded))]
fn put_words(out: &mut [u8], at: usize, words: Words) -> usize
    requires { at + length (packed (listed words)) ≤ length out.old }
    ensures { Stored at (packed (listed words)) out.old result out.new }
{
    match words {
        Words::None => at,
        Words::One(word) => put_word(out, at, word),
        Words::Two(word, other) => {
            let behind = put_word(out, at, word);
            put_word(out, behind, other)
        }
    }
}

// Counts the words of a log.
pub fn count(opened: Opened<'_>) -> Total
    ensures { Counts opened.entry result }
{
    let mut telling = Telling::all(opened);
    let mut words = 0;
    while let Some(more) = telling.next_words() {
        words += how_many(more);
    }
    Total {
        words,
        waiting: matches!(telling.next, Next::Over(Some(_))) as u32,
    }
}

// Writes them at the front of a run that has room for them.
pub fn write(opened: Opened<'_>, out: &mut [u8])
    requires { length (packed (words_of opened)) ≤ length out.old }
    ensures { out.new ≡ filled (packed (words_of opened.entry)) out.old }
{
    let mut telling = Telling::all(opened);
    let mut behind = 0;
    while let Some(words) = telling.next_words() {
        behind = put_words(out, behind, words);
    }
}
