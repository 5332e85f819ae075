// The numbers of a reason, in code: what an event compares, and from which stamps on it would be decided otherwise. key is M, a
// character key pressed at m, second is K, one pressed at k, thumb is O, a thumb pressed at o, r is the release of the thumb in S6, of M
// in S8; `at` is the event's stamp. Every function answers for any state, list and numbers.
#![tactic(auto)]

ghost use Rattle.std.specs.Prelude.{◌≡◌, ◌*◌, ◌/◌, min};
ghost use Rattle.waits.specs.Capped.{lag_at_most};
ghost use Rattle.pairs.specs.Lent.{pairs_in, lent_by};
ghost use Rattle.reasons.specs.Turning.{at_deadline, at_or_late, at_and_late, turns_in_S2, turns_in_S3, turns_in_S4, turns_in_S5};
ghost use Rattle.reasons.specs.Turning.{turns_in_S6, turns_in_S7, turns_in_S8, since, next_turn, last_turn};
ghost use Rattle.reasons.specs.Reason.{compared_in_S4, compared_in_S5, compared_in_S7, compared_in_S8, compared, sooner_at};
ghost use Rattle.margins.specs.Views.{when, stamps, test, of_times};
ghost use Rattle.margins.specs.Capped.{parts_at_most, short_at_most, share_at_most, turns_at_most};

use pairs::{Lent, Times, is_pair};
use rules::{Few, Input, Key, Lag, Machine, Resting, Settings, Stamp, Thumb};
use waits::{lag, later, together};

// Turning stamps, in order.
pub type Turns = Few<Stamp>;

// What an event's line compares: nothing, or the gaps a and b by one of document 01's tests. Nothing is one of the kinds and no
// Option, as in the definition of a test (`Test`): so that one match names each kind once.
#[derive(Clone, Copy)]
pub enum Compared {
    Nothing,
    // S4, a second character: a against b.
    TakesThumb(Lag, Lag),
    // S5, another thumb: a against b.
    TakesCharacter(Lag, Lag),
    // S4, M up, and S5, O up: the percentage, a and b.
    Overlaps(u8, Lag, Lag),
    // S7 and S8, a third key: a against b.
    Stays(Lag, Lag),
    // S7, M up: N, T_s, a and b.
    OverlapsAsPair(u8, u16, Lag, Lag),
    // S8, K up: L, the overlap, and the time that K was down.
    OverlapsOf(u8, Lag, Lag),
}

#[tactic(auto, unfolding(rules::specs::OneEvent::same_key))]
fn compared_in_s4(s: Settings, at: Stamp, key: Key, m: Stamp, o: Stamp, input: Input) -> Compared
    ensures { test result ≡ compared_in_S4 s at key m o input }
{
    let a = lag(m, o);
    let b = lag(o, at);
    match input {
        Input::CharacterDown(_) => Compared::TakesThumb(a, b),
        Input::CharacterUp(n) if n == key => Compared::Overlaps(s.j, a, b),
        _ => Compared::Nothing,
    }
}

#[tactic(auto, unfolding(rules::specs::OneEvent::same_thumb))]
fn compared_in_s5(
    s: Settings,
    at: Stamp,
    thumb: Thumb,
    o: Stamp,
    m: Stamp,
    input: Input,
) -> Compared
    ensures { test result ≡ compared_in_S5 s at thumb o m input }
{
    let a = lag(o, m);
    let b = lag(m, at);
    match input {
        Input::ThumbDown(p) if p != thumb => Compared::TakesCharacter(a, b),
        Input::ThumbUp(p) if p == thumb => Compared::Overlaps(s.l, a, b),
        _ => Compared::Nothing,
    }
}

#[tactic(auto, unfolding(rules::specs::OneEvent::same_key))]
fn compared_in_s7(times: Times, at: Stamp, key: Key, m: Stamp, k: Stamp, input: Input) -> Compared
    ensures { test result ≡ compared_in_S7 (of_times times) at key m k input }
{
    let a = lag(m, k);
    let b = lag(k, at);
    match input {
        Input::CharacterDown(_) | Input::ThumbDown(_) => Compared::Stays(a, b),
        Input::CharacterUp(n) if n == key => Compared::OverlapsAsPair(times.n, times.ts, a, b),
        _ => Compared::Nothing,
    }
}

#[tactic(auto, unfolding(rules::specs::OneEvent::same_key))]
fn compared_in_s8(
    s: Settings,
    at: Stamp,
    m: Stamp,
    second: Key,
    k: Stamp,
    r: Stamp,
    input: Input,
) -> Compared
    ensures { test result ≡ compared_in_S8 s at m second k r input }
{
    let b = lag(k, at);
    match input {
        Input::CharacterDown(_) | Input::ThumbDown(_) => Compared::Stays(lag(m, k), b),
        Input::CharacterUp(n) if n == second => Compared::OverlapsOf(s.l, lag(k, r), b),
        _ => Compared::Nothing,
    }
}

// What the line of an event compares. The list of pairs has no part in it.
pub fn comparing(times: Times, s: Settings, at: Stamp, resting: Resting, input: Input) -> Compared
    ensures { test result ≡ compared (of_times times) s at resting input }
{
    match resting {
        Resting::S4(key, m, _, o) => compared_in_s4(s, at, key, m, o, input),
        Resting::S5(thumb, o, _, m) => compared_in_s5(s, at, thumb, o, m, input),
        Resting::S7(key, m, _, k) => compared_in_s7(times, at, key, m, k, input),
        Resting::S8(_, m, second, k, r) => compared_in_s8(s, at, m, second, k, r, input),
        Resting::S1 | Resting::S2(..) | Resting::S3(..) | Resting::S6(..) => Compared::Nothing,
    }
}

// At the deadline, if there is one.
fn at_deadline(due: Option<Stamp>) -> Turns
    ensures { stamps result ≡ at_deadline (when due) }
{
    match due {
        None => Turns::None,
        Some(d) => Turns::One(d),
    }
}

// At v, or at the deadline where that is sooner.
fn at_or_late(v: Stamp, due: Option<Stamp>) -> Turns
    ensures { stamps result ≡ at_or_late v (when due) }
{
    match due {
        None => Turns::One(v),
        Some(d) => Turns::One(v.min(d)),
    }
}

// At v and then at the deadline, where v comes first; else at the deadline, or never.
fn at_and_late(v: Stamp, due: Option<Stamp>, behind: Turns) -> Turns
    ensures { stamps result ≡ at_and_late v (when due) (stamps behind) }
{
    match due {
        None => Turns::One(v),
        Some(d) if v < d => Turns::Two(v, d),
        Some(_) => behind,
    }
}

#[tactic(auto, unfolding(rules::specs::OneEvent::same_key))]
fn turns_in_s2(list: &[u32], due: Option<Stamp>, key: Key, input: Input) -> Turns
    ensures { stamps result ≡ turns_in_S2 (pairs_in list.now) (when due) key input }
{
    match input {
        Input::CharacterDown(n) if !is_pair(list, key, n) => Turns::None,
        Input::CharacterUp(n) if n == key => Turns::None,
        Input::FunctionDown => Turns::None,
        _ => at_deadline(due),
    }
}

#[tactic(auto, unfolding(rules::specs::OneEvent::same_thumb))]
fn turns_in_s3(due: Option<Stamp>, thumb: Thumb, input: Input) -> Turns
    ensures { stamps result ≡ turns_in_S3 (when due) thumb input }
{
    match input {
        Input::ThumbDown(p) if p != thumb => Turns::None,
        Input::ThumbUp(p) if p == thumb => Turns::None,
        Input::FunctionDown => Turns::None,
        _ => at_deadline(due),
    }
}

#[tactic(auto, unfolding(rules::specs::OneEvent::same_key, rules::specs::OneEvent::same_thumb))]
fn turns_in_s4(
    due: Option<Stamp>,
    v: Stamp,
    w: Stamp,
    key: Key,
    thumb: Thumb,
    input: Input,
) -> Turns
    ensures { stamps result ≡ turns_in_S4 (when due) v w key thumb input }
{
    match input {
        Input::CharacterDown(_) => at_or_late(v, due),
        Input::CharacterUp(n) if n == key => at_or_late(w, due),
        Input::ThumbDown(p) if p != thumb => Turns::None,
        Input::ThumbUp(p) if p == thumb => Turns::None,
        Input::FunctionDown => Turns::None,
        _ => at_deadline(due),
    }
}

#[tactic(auto, unfolding(rules::specs::OneEvent::same_key, rules::specs::OneEvent::same_thumb))]
fn turns_in_s5(
    due: Option<Stamp>,
    v: Stamp,
    w: Stamp,
    thumb: Thumb,
    key: Key,
    input: Input,
) -> Turns
    ensures { stamps result ≡ turns_in_S5 (when due) v w thumb key input }
{
    match input {
        Input::CharacterDown(_) => Turns::None,
        Input::CharacterUp(n) if n == key => Turns::None,
        Input::ThumbDown(p) if p != thumb => at_or_late(v, due),
        Input::ThumbUp(p) if p == thumb => at_or_late(w, due),
        Input::FunctionDown => Turns::None,
        _ => at_deadline(due),
    }
}

fn turns_in_s6(due: Option<Stamp>, input: Input) -> Turns
    ensures { stamps result ≡ turns_in_S6 (when due) input }
{
    match input {
        Input::FunctionDown => Turns::None,
        _ => at_deadline(due),
    }
}

#[tactic(auto, unfolding(rules::specs::OneEvent::same_key))]
fn turns_in_s7(due: Option<Stamp>, v: Stamp, w: Stamp, key: Key, second: Key, input: Input) -> Turns
    ensures { stamps result ≡ turns_in_S7 (when due) v w key second input }
{
    match input {
        Input::CharacterDown(_) | Input::ThumbDown(_) => at_or_late(v, due),
        Input::CharacterUp(n) if n == key => at_or_late(w, due),
        Input::CharacterUp(n) if n == second => Turns::None,
        Input::FunctionDown => Turns::None,
        _ => at_deadline(due),
    }
}

#[tactic(auto, unfolding(rules::specs::OneEvent::same_key))]
fn turns_in_s8(
    list: &[u32],
    due: Option<Stamp>,
    v: Stamp,
    w: Stamp,
    second: Key,
    input: Input,
) -> Turns
    ensures { stamps result ≡ turns_in_S8 (pairs_in list.now) (when due) v w second input }
{
    match input {
        Input::CharacterDown(n) if !is_pair(list, second, n) => at_and_late(v, due, Turns::None),
        Input::CharacterDown(_) | Input::ThumbDown(_) => at_and_late(v, due, at_deadline(due)),
        Input::CharacterUp(n) if n == second => at_or_late(w, due),
        _ => at_deadline(due),
    }
}

// A millisecond behind the stamp at which the gap to it is as long as the one from m to k.
fn parts_before(m: Stamp, k: Stamp) -> Stamp
    ensures { result ≡ parts_at_most m k }
{
    later(later(k, lag(m, k)), Lag(1))
}

// The overlap that is N percent of the whole.
fn short_before(n: u8, m: Stamp, k: Stamp) -> Stamp
    ensures { result ≡ short_at_most n m k }
{
    later(k, together(lag(m, k), n))
}

// The time of which an overlap x is L percent, 100x/L, rounded down.
#[tactic(auto, unfolding(waits::specs::Capped::lag_at_most))]
fn whole_of(x: Lag, l: u8) -> Lag
    ensures { result.0 ≡ (100 * lag_at_most x.0) / l }
{
    if l == 0 {
        return Lag(0);
    }
    Lag(100 * x.0.min(Machine::LARGEST.0) / (l as u64))
}

// A millisecond behind the stamp at which the overlap is L percent of the time that K was down.
fn share_before(l: u8, k: Stamp, r: Stamp) -> Stamp
    ensures { result ≡ share_at_most l k r }
{
    later(later(k, whole_of(lag(k, r), l)), Lag(1))
}

// The turning stamps of a state and an event, with the state's deadline.
pub fn turnings(
    given: Lent<'_>,
    s: Settings,
    due: Option<Stamp>,
    resting: Resting,
    input: Input,
) -> Turns
    ensures { stamps result ≡ turns_at_most (lent_by given.entry) s (when due) resting input }
{
    match resting {
        Resting::S1 => Turns::None,
        Resting::S2(key, _) => turns_in_s2(given.list, due, key, input),
        Resting::S3(thumb, _) => turns_in_s3(due, thumb, input),
        Resting::S4(key, m, thumb, o) => {
            turns_in_s4(
                due,
                later(o, lag(m, o)),
                later(o, Settings::SHORT_OVERLAP),
                key,
                thumb,
                input,
            )
        }
        Resting::S5(thumb, o, key, m) => {
            turns_in_s5(
                due,
                parts_before(o, m),
                later(m, Settings::SHORT_OVERLAP),
                thumb,
                key,
                input,
            )
        }
        Resting::S6(..) => turns_in_s6(due, input),
        Resting::S7(key, m, second, k) => {
            turns_in_s7(
                due,
                parts_before(m, k),
                short_before(given.times.n, m, k),
                key,
                second,
                input,
            )
        }
        Resting::S8(_, m, second, k, r) => {
            turns_in_s8(
                given.list,
                due,
                parts_before(m, k),
                share_before(s.l, k, r),
                second,
                input,
            )
        }
    }
}

// The last stamp of a state: no event of it comes before.
pub fn began(resting: Resting) -> Stamp
    ensures { result ≡ since resting }
{
    match resting {
        Resting::S1 => Stamp(0),
        Resting::S2(_, at)
        | Resting::S3(_, at)
        | Resting::S4(_, _, _, at)
        | Resting::S5(_, _, _, at)
        | Resting::S6(_, _, _, _, at)
        | Resting::S7(_, _, _, at)
        | Resting::S8(_, _, _, _, at) => at,
    }
}

// The first turning stamp behind a stamp.
pub fn next_turn(at: Stamp, turns: Turns) -> Option<Stamp>
    ensures { when result ≡ next_turn at (stamps turns) }
{
    match turns {
        Turns::One(v) | Turns::Two(v, _) if at < v => Some(v),
        Turns::Two(_, w) if at < w => Some(w),
        _ => None,
    }
}

// The last turning stamp at or before a stamp.
pub fn last_turn(at: Stamp, turns: Turns) -> Option<Stamp>
    ensures { when result ≡ last_turn at (stamps turns) }
{
    match turns {
        Turns::Two(v, w) if v <= at && w <= at => Some(w),
        Turns::One(v) | Turns::Two(v, _) if v <= at => Some(v),
        _ => None,
    }
}

// The nearest stamp before the last turning stamp, unless that is before the state began.
pub fn sooner_at(start: Stamp, last: Option<Stamp>) -> Option<Stamp>
    ensures { when result ≡ sooner_at start (when last) }
{
    match last {
        Some(v) if start < v => Some(Stamp(v.0 - 1)),
        _ => None,
    }
}
