// Whether a resting state is due, how far its deadline lies from a stamp, and whether a machine is well formed. key is M, a
// character key pressed at m, second is K, one pressed at k, thumb is O, a thumb pressed at o, r is the release of the thumb in S6,
// of M in S8. What is lent (9/12) comes first; every function answers for any list, accepted or not.
#![tactic(auto)]

ghost use Rattle.std.specs.Prelude.{◌≡◌};
ghost use Rattle.rules.specs.Pairs.{alone};
ghost use Rattle.rules.specs.States.{well_formed};
ghost use Rattle.rules.specs.OneEvent.{due_by};
ghost use Rattle.rules.specs.Distance.{at_stamp, asking_with, asking};
ghost use Rattle.pairs.specs.Lent.{pairs_in, lent_by, of_list};
ghost use Rattle.deadlines.specs.Views.{when, asked};
ghost use Rattle.deadlines.specs.ByState.{in_turn, four_in_turn, two_letters, rests_well};
ghost use Rattle.deadlines.specs.Capped.{until_S2, until_S3, until_S4, until_S5, until_S6, until_S7, until_S8};
ghost use Rattle.deadlines.specs.Capped.{deadline_at_most, distance_to_at_most};

use held::held_formed;
use pairs::{Lent, Times, in_some_pair, is_pair, lent_good};
use rules::{Key, Lag, Machine, Refusal, Resting, Settings, Stamp};
use waits::{
    character_first_wait, character_first_wait_below, character_wait, character_wait_below, is_key,
    lag, later, pair_wait, pair_wait_below, released_wait, released_wait_below, since,
    thumb_first_wait, thumb_first_wait_below, thumb_wait, thumb_wait_below,
};

// The wait of a character alone: of one that is in some pair the longer of two.
#[tactic(auto, unfolding(rules::specs::Pairs::alone, rules::specs::Pairs::P))]
fn alone(given: Lent<'_>, s: Settings, key: Key) -> Lag
    ensures { result.0 ≡ alone (lent_by given.entry) s key }
{
    let wait = character_wait(s);
    if in_some_pair(given.list, key) {
        wait.max(pair_wait(given.times.ts, given.times.n))
    } else {
        wait
    }
}

// The deadline of a resting state, if it has one. It does not leave this crate: a caller is told a distance.
fn deadline(given: Lent<'_>, s: Settings, resting: Resting) -> Option<Stamp>
    ensures { when result ≡ deadline_at_most (lent_by given.entry) s resting }
{
    match resting {
        Resting::S1 => None,
        Resting::S2(key, m) => Some(later(m, alone(given, s, key))),
        Resting::S3(_, o) => {
            if s.solo == 1 {
                Some(later(o, thumb_wait(s)))
            } else {
                None
            }
        }
        Resting::S4(_, m, _, o) => Some(later(o, character_first_wait(s, lag(m, o)))),
        // The wait is that of a lone thumb at most, however long the thumb was held before M.
        Resting::S5(_, o, _, m) => {
            Some(later(m, thumb_first_wait(s, lag(o, m).min(thumb_wait(s)))))
        }
        Resting::S6(_, _, _, m, r) => Some(later(r, lag(m, r))),
        Resting::S7(_, _, _, k) => Some(later(k, Lag(given.times.ts as u64))),
        Resting::S8(_, _, _, k, r) => Some(later(r, released_wait(given.times.n, lag(k, r)))),
    }
}

// Stamps in the order of events, none after the last one.
#[tactic(auto, unfolding(crate::specs::ByState::in_turn))]
fn in_turn(a: Stamp, b: Stamp, last: Stamp) -> bool
    ensures { result ≡ in_turn a b last }
{
    a <= b && b <= last
}

#[tactic(auto, unfolding(crate::specs::ByState::four_in_turn))]
fn four_in_turn(a: Stamp, b: Stamp, c: Stamp, last: Stamp) -> bool
    ensures { result ≡ four_in_turn a b c last }
{
    a <= b && in_turn(b, c, last)
}

// Two waiting letters: keys, and a pair of the list.
#[tactic(auto, unfolding(crate::specs::ByState::two_letters))]
fn two_letters(list: &[u32], key: Key, second: Key) -> bool
    ensures { result ≡ two_letters (pairs_in list.now) key second }
{
    is_key(key) && is_key(second) && is_pair(list, key, second)
}

// Whether what rests is as a well-formed machine with that last stamp has it.
fn rests_well(list: &[u32], last: Stamp, resting: Resting) -> bool
    ensures { result ≡ rests_well (pairs_in list.now) last resting }
{
    match resting {
        Resting::S1 => true,
        Resting::S2(key, m) => is_key(key) && m <= last,
        Resting::S3(_, o) => o <= last,
        Resting::S4(key, m, _, o) => is_key(key) && in_turn(m, o, last),
        Resting::S5(_, o, key, m) => is_key(key) && in_turn(o, m, last),
        Resting::S6(_, o, key, m, r) => is_key(key) && four_in_turn(o, m, r, last),
        Resting::S7(key, m, second, k) => in_turn(m, k, last) && two_letters(list, key, second),
        Resting::S8(key, m, second, k, r) => {
            four_in_turn(m, k, r, last) && two_letters(list, key, second)
        }
    }
}

// T_s and N have no part in it.
#[tactic(auto, using(crate::proofs::WellFormed::well_formed_by_state))]
pub fn well_formed(list: &[u32], machine: Machine) -> bool
    ensures { result ≡ well_formed (of_list list.now) machine }
{
    machine.settings.in_range()
        && machine.last <= Machine::LARGEST
        && held_formed(machine.held)
        && rests_well(list, machine.last, machine.resting)
}

// Whether each state is due at a stamp. It is decided by products, since it is asked at every event: a wait is worked out only of a
// thumb that was held long before M.
#[inline(always)]
pub fn due_in_s2(given: Lent<'_>, s: Settings, now: Stamp, key: Key, m: Stamp) -> bool
    ensures { result ≡ due_by now (until_S2 (lent_by given.entry) s key m) }
{
    let waited = since(m, now);
    character_wait_below(s, waited)
        && (!in_some_pair(given.list, key)
            || pair_wait_below(given.times.ts, given.times.n, waited))
}

#[inline(always)]
pub fn due_in_s3(s: Settings, now: Stamp, o: Stamp) -> bool
    ensures { result ≡ due_by now (until_S3 s o) }
{
    s.solo == 1 && thumb_wait_below(s, since(o, now))
}

#[inline(always)]
pub fn due_in_s4(s: Settings, now: Stamp, m: Stamp, o: Stamp) -> bool
    ensures { result ≡ due_by now (until_S4 s m o) }
{
    character_first_wait_below(s, lag(m, o), since(o, now))
}

#[inline(always)]
pub fn due_in_s5(s: Settings, now: Stamp, o: Stamp, m: Stamp) -> bool
    ensures { result ≡ due_by now (until_S5 s o m) }
{
    thumb_first_wait_below(s, lag(o, m), since(m, now))
}

#[inline(always)]
pub fn due_in_s6(now: Stamp, m: Stamp, r: Stamp) -> bool
    ensures { result ≡ due_by now (until_S6 m r) }
{
    later(r, lag(m, r)) <= now
}

#[inline(always)]
pub fn due_in_s7(times: Times, now: Stamp, k: Stamp) -> bool
    ensures { result ≡ due_by now (until_S7 times.ts k) }
{
    later(k, Lag(times.ts as u64)) <= now
}

#[inline(always)]
pub fn due_in_s8(times: Times, now: Stamp, k: Stamp, r: Stamp) -> bool
    ensures { result ≡ due_by now (until_S8 times.n k r) }
{
    released_wait_below(times.n, lag(k, r), since(r, now))
}

// Whether a resting state is due at a stamp.
pub fn is_due(given: Lent<'_>, s: Settings, now: Stamp, resting: Resting) -> bool
    ensures { result ≡ due_by now (deadline_at_most (lent_by given.entry) s resting) }
{
    match resting {
        Resting::S1 => false,
        Resting::S2(key, m) => due_in_s2(given, s, now, key, m),
        Resting::S3(_, o) => due_in_s3(s, now, o),
        Resting::S4(_, m, _, o) => due_in_s4(s, now, m, o),
        Resting::S5(_, o, _, m) => due_in_s5(s, now, o, m),
        Resting::S6(_, _, _, m, r) => due_in_s6(now, m, r),
        Resting::S7(_, _, _, k) => due_in_s7(given.times, now, k),
        Resting::S8(_, _, _, k, r) => due_in_s8(given.times, now, k, r),
    }
}

// The answer at any stamp, whatever was accepted last, for a deadline.
fn at_stamp(last: Stamp, now: Stamp, due: Option<Stamp>) -> Result<Option<i64>, Refusal>
    ensures { asked result ≡ at_stamp last now (distance_to_at_most now (when due)) }
{
    if Machine::LARGEST < now {
        return Err(Refusal::AboveLargest);
    }
    if now < last {
        return Err(Refusal::BeforeLast);
    }
    Ok(due.map(|stamp| waits::distance(now, stamp)))
}

// How far the next deadline of any machine lies from any stamp, in milliseconds: positive still to wait, 0 due now, negative overdue.
// For a caller who knows that what is lent is accepted: it is not asked again.
#[tactic(auto, unfolding(rules::specs::Distance::asking_with))]
pub fn distance_with(given: Lent<'_>, machine: Machine, now: Stamp) -> Result<Option<i64>, Refusal>
    ensures { asked result ≡ asking_with (lent_by given.entry) machine now }
{
    if !well_formed(given.list, machine) {
        return Err(Refusal::NotWellFormed);
    }
    let due = deadline(given, machine.settings, machine.resting);
    at_stamp(machine.last, now, due)
}

// How far the next deadline of any machine lies from any stamp.
#[tactic(auto, unfolding(rules::specs::Distance::asking))]
pub fn distance(given: Lent<'_>, machine: Machine, now: Stamp) -> Result<Option<i64>, Refusal>
    ensures { asked result ≡ asking (lent_by given.entry) machine now }
{
    if !lent_good(given) {
        return Err(Refusal::ListNotGood);
    }
    distance_with(given, machine, now)
}
