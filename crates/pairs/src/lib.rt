// A lent list of pairs, T_s and N (9/12): whether they are accepted, and what is read off the list. Every function answers for any
// list and any keys. A pair is one number; specs/Lent.antt says which.
#![tactic(auto)]

ghost use Rattle.std.specs.Prelude.{◌≡◌, leb, length};
ghost use Rattle.rules.specs.Pairs.{pairs_most, names, is_of, pair_of, is_pair, pair_character, in_some_pair};
ghost use Rattle.rules.specs.Pairs.{none_twice, is_pair_character, pair_good, each_good, lent_good};
ghost use Rattle.pairs.specs.Lent.{pair_in, pairs_in, lent_by, paired};

use rules::Key;
use waits::is_key;

// So many pairs are accepted.
pub const PAIRS_MOST: usize = 64;

// The bounds of T_s, and of N.
pub const T_S_LEAST: u16 = 50;

pub const T_S_MOST: u16 = 1000;

pub const N_LEAST: u8 = 1;

pub const N_MOST: u8 = 99;

// What is lent beside the list: T_s in milliseconds, N in percent.
#[derive(Clone, Copy)]
pub struct Times {
    pub ts: u16,
    pub n: u8,
}

// What is lent to the events of a keyboard: a list of pairs, T_s and N.
#[derive(Clone, Copy)]
pub struct Lent<'a> {
    pub list: &'a [u32],
    pub times: Times,
}

fn first(word: u32) -> Key
    ensures { result ≡ (pair_in word).first }
{
    Key((word >> 24) as u8)
}

fn second(word: u32) -> Key
    ensures { result ≡ (pair_in word).second }
{
    Key(((word >> 16) & 0xFF) as u8)
}

fn character(word: u32) -> u16
    ensures { result ≡ (pair_in word).character }
{
    (word & 0xFFFF) as u16
}

#[tactic(auto, unfolding(rules::specs::Pairs::names, rules::specs::Pairs::same_key))]
fn names(word: u32, a: Key, b: Key) -> bool
    ensures { result ≡ names (pair_in word) a b }
{
    first(word) == a && second(word) == b
}

#[tactic(auto, unfolding(rules::specs::Pairs::is_of))]
fn is_of(word: u32, a: Key, b: Key) -> bool
    ensures { result ≡ is_of (pair_in word) a b }
{
    names(word, a, b) || names(word, b, a)
}

pub fn pair_of(list: &[u32], a: Key, b: Key) -> Option<u16>
    ensures { paired result ≡ pair_of (pairs_in list.now) a b }
{
    for word in list {
        if is_of(*word, a, b) {
            return Some(character(*word));
        }
    }
    None
}

pub fn is_pair(list: &[u32], a: Key, b: Key) -> bool
    ensures { result ≡ is_pair (pairs_in list.now) a b }
{
    pair_of(list, a, b).is_some()
}

// The character that a list gives two keys, 0 where they are no pair.
pub fn pair_character(list: &[u32], a: Key, b: Key) -> u16
    ensures { result ≡ pair_character (pairs_in list.now) a b }
{
    pair_of(list, a, b).unwrap_or(0)
}

pub fn in_some_pair(list: &[u32], k: Key) -> bool
    ensures { result ≡ in_some_pair (pairs_in list.now) k }
{
    list.iter()
        .any(|word| first(*word) == k || second(*word) == k)
}

fn none_twice(list: &[u32]) -> bool
    ensures { result ≡ none_twice (pairs_in list.now) }
{
    let mut rest = list;
    while let Some((word, behind)) = rest.split_first() {
        if is_pair(behind, first(*word), second(*word)) {
            return false;
        }
        rest = behind;
    }
    true
}

#[tactic(auto, unfolding(rules::specs::Pairs::is_pair_character))]
fn is_pair_character(c: u16) -> bool
    ensures { result ≡ is_pair_character c }
{
    (0x20..=0xFFFF).contains(&c) && !(0xD800..=0xDFFF).contains(&c)
}

#[tactic(auto, unfolding(rules::specs::Pairs::pair_good, rules::specs::Pairs::same_key))]
fn pair_good(word: u32) -> bool
    ensures { result ≡ pair_good (pair_in word) }
{
    let x = first(word);
    let y = second(word);
    x != y && is_key(x) && is_key(y) && is_pair_character(character(word))
}

fn each_good(list: &[u32]) -> bool
    ensures { result ≡ each_good (pairs_in list.now) }
{
    list.iter().all(|word| pair_good(*word))
}

#[tactic(auto, using(crate::proofs::Laws::length_pairs))]
fn few(list: &[u32]) -> bool
    ensures { result ≡ leb (length (pairs_in list.now)) pairs_most }
{
    list.len() <= PAIRS_MOST
}

// Whether what is lent is accepted; else the refusal is 12.
#[tactic(auto, unfolding(rules::specs::Pairs::lent_good))]
pub fn lent_good(given: Lent<'_>) -> bool
    ensures { result ≡ lent_good (lent_by given.entry) }
{
    few(given.list)
        && none_twice(given.list)
        && each_good(given.list)
        && (T_S_LEAST..=T_S_MOST).contains(&given.times.ts)
        && (N_LEAST..=N_MOST).contains(&given.times.n)
}
