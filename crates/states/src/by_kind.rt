// What each resting state does when it is late and at each event: one function for each state, in the order of document 01.
// key is M, a character key pressed at m, second is K, a second one pressed at k, thumb is O, a thumb pressed at o, r is the release of
// the thumb in S6, of M in S8; p is the thumb of the event; a is the gap between the two presses and b the one from the second press to
// the event, worked out once in a state. Where a list of pairs is lent (9/12), `at` is the event's stamp.
//
// An event comes as its kind and key n (`meant`). An enum of inputs would be taken apart a second time here, which costs the reader a
// jump for each event.
ghost use Rattle.std.specs.Prelude.{◌≡◌, ◌++◌};
ghost use Rattle.choice.specs.Choice.{if◌then◌orelse◌};
ghost use Rattle.rules.specs.States.{lag};
ghost use Rattle.rules.specs.OneEvent.{◌leaving◌, nothing, mark, plain, chord, together, second_thumb_takes_character, short_overlap};
ghost use Rattle.rules.specs.OneEvent.{short_pair, short_of, late, in_S1, in_S2, in_S3, in_S4, in_S5, in_S6};
ghost use Rattle.rules.specs.OneEvent.{third, third_thumb, in_S7, in_S8, act};
ghost use Rattle.rules.specs.declared.Resting.TheVariants.{S1, S3, S4, S6, S8};
ghost use Rattle.pairs.specs.Lent.{lent_by};
ghost use Rattle.effects.specs.Views.{done};
ghost use Rattle.states.specs.Meant.{thumb_of, meant};

use effects::{
    Effect, commits_both, commits_chord, commits_mark, commits_pair, commits_plain, commits_two,
    goes_to,
};
use pairs::{Lent, is_pair};
use rules::{Key, Kind, Lag, Resting, Settings, Stamp, Thumb};
use waits::{
    lag, pair_stays, second_character_takes_thumb, second_thumb_takes_character, short_of,
    short_overlap, short_pair,
};

// The thumb that a key number of kind 3 or 4 names.
pub fn thumb_of(n: Key) -> Thumb
    ensures { result ≡ thumb_of n }
{
    if n == Key(0) {
        Thumb::Left
    } else {
        Thumb::Right
    }
}

pub fn late(given: Lent<'_>, s: Settings, resting: Resting) -> Effect
    ensures { done result ≡ late (lent_by given.entry) s resting }
{
    match resting {
        Resting::S1 => goes_to(Resting::S1),
        Resting::S2(key, _) => commits_plain(key, Resting::S1),
        Resting::S3(thumb, _) => commits_mark(s, thumb, Resting::S1),
        Resting::S4(key, _, thumb, _) => commits_chord(key, thumb, Resting::S1),
        Resting::S5(thumb, _, key, _) => commits_chord(key, thumb, Resting::S1),
        Resting::S6(thumb, _, key, _, _) => commits_both(s, thumb, key),
        Resting::S7(key, _, second, _) => commits_pair(given, key, second, Resting::S1),
        Resting::S8(key, _, second, _, _) => commits_two(key, second, Resting::S1),
    }
}

#[inline(always)]
pub fn in_s1(now: Stamp, kind: Kind, n: Key) -> Effect
    ensures { done result ≡ in_S1 now (meant kind n) }
{
    match kind {
        Kind::CharacterDown => goes_to(Resting::S2(n, now)),
        Kind::ThumbDown => goes_to(Resting::S3(thumb_of(n), now)),
        _ => goes_to(Resting::S1),
    }
}

#[inline(always)]
#[tactic(auto, unfolding(rules::specs::OneEvent::same_key))]
pub fn in_s2(given: Lent<'_>, at: Stamp, key: Key, m: Stamp, kind: Kind, n: Key) -> Effect
    ensures { done result ≡ in_S2 (lent_by given.entry) at key m (meant kind n) }
{
    let same = Resting::S2(key, m);
    match kind {
        Kind::CharacterDown => {
            if is_pair(given.list, key, n) {
                goes_to(Resting::S7(key, m, n, at))
            } else {
                commits_plain(key, Resting::S2(n, at))
            }
        }
        Kind::CharacterUp => {
            if n == key {
                commits_plain(key, Resting::S1)
            } else {
                goes_to(same)
            }
        }
        Kind::ThumbDown => goes_to(Resting::S4(key, m, thumb_of(n), at)),
        Kind::ThumbUp => goes_to(same),
        Kind::FunctionDown => commits_plain(key, Resting::S1),
        Kind::Tick => goes_to(same),
    }
}

#[inline(always)]
#[tactic(auto, unfolding(rules::specs::OneEvent::same_thumb))]
pub fn in_s3(s: Settings, now: Stamp, thumb: Thumb, o: Stamp, kind: Kind, n: Key) -> Effect
    ensures { done result ≡ in_S3 s now thumb o (meant kind n) }
{
    let same = Resting::S3(thumb, o);
    match kind {
        Kind::CharacterDown => goes_to(Resting::S5(thumb, o, n, now)),
        Kind::CharacterUp => goes_to(same),
        Kind::ThumbDown => {
            let p = thumb_of(n);
            if p == thumb {
                goes_to(same)
            } else {
                commits_mark(s, thumb, Resting::S3(p, now))
            }
        }
        Kind::ThumbUp => {
            if thumb_of(n) == thumb {
                commits_mark(s, thumb, Resting::S1)
            } else {
                goes_to(same)
            }
        }
        Kind::FunctionDown => commits_mark(s, thumb, Resting::S1),
        Kind::Tick => goes_to(same),
    }
}

// S4, M is released: the overlap decides whether O was meant for M.
#[inline(always)]
fn key_up_in_s4(s: Settings, key: Key, thumb: Thumb, o: Stamp, a: Lag, b: Lag) -> Effect
    ensures { done result ≡
        (if short_overlap s.j a.0 b.0 then (plain key leaving S3 thumb o) orelse (chord key thumb leaving S1)) }
{
    if short_overlap(s.j, a, b) {
        return commits_plain(key, Resting::S3(thumb, o));
    }
    commits_chord(key, thumb, Resting::S1)
}

#[inline(always)]
#[tactic(auto, unfolding(rules::specs::OneEvent::same_key, rules::specs::OneEvent::same_thumb))]
pub fn in_s4(
    s: Settings,
    now: Stamp,
    key: Key,
    m: Stamp,
    thumb: Thumb,
    o: Stamp,
    kind: Kind,
    n: Key,
) -> Effect
    ensures { done result ≡ in_S4 s now key m thumb o (meant kind n) }
{
    let same = Resting::S4(key, m, thumb, o);
    let chord = commits_chord(key, thumb, Resting::S1);
    let a = lag(m, o);
    let b = lag(o, now);
    match kind {
        Kind::CharacterDown => {
            if second_character_takes_thumb(a, b) {
                commits_plain(key, Resting::S5(thumb, o, n, now))
            } else {
                commits_chord(key, thumb, Resting::S2(n, now))
            }
        }
        Kind::CharacterUp => {
            if n == key {
                key_up_in_s4(s, key, thumb, o, a, b)
            } else {
                goes_to(same)
            }
        }
        Kind::ThumbDown => {
            let p = thumb_of(n);
            if p == thumb {
                goes_to(same)
            } else {
                commits_chord(key, thumb, Resting::S3(p, now))
            }
        }
        Kind::ThumbUp => {
            if thumb_of(n) == thumb {
                chord
            } else {
                goes_to(same)
            }
        }
        Kind::FunctionDown => chord,
        Kind::Tick => goes_to(same),
    }
}

// S5, the other thumb p is pressed: the gaps decide which thumb was meant for M.
#[inline(always)]
fn thumb_down_in_s5(
    s: Settings,
    now: Stamp,
    thumb: Thumb,
    key: Key,
    m: Stamp,
    p: Thumb,
    a: Lag,
    b: Lag,
) -> Effect
    ensures { done result ≡
        (if second_thumb_takes_character a.0 b.0 then (mark s thumb leaving S4 key m p now)
        orelse (chord key thumb leaving S3 p now)) }
{
    if second_thumb_takes_character(a, b) {
        return commits_mark(s, thumb, Resting::S4(key, m, p, now));
    }
    commits_chord(key, thumb, Resting::S3(p, now))
}

// S5, O is released: the overlap decides whether it may still turn out that O was not meant for M.
#[inline(always)]
fn thumb_up_in_s5(
    s: Settings,
    now: Stamp,
    thumb: Thumb,
    o: Stamp,
    key: Key,
    m: Stamp,
    a: Lag,
    b: Lag,
) -> Effect
    ensures { done result ≡
        (if short_overlap s.l a.0 b.0 then (nothing leaving S6 thumb o key m now) orelse (chord key thumb leaving S1)) }
{
    if short_overlap(s.l, a, b) {
        return goes_to(Resting::S6(thumb, o, key, m, now));
    }
    commits_chord(key, thumb, Resting::S1)
}

#[inline(always)]
#[tactic(auto, unfolding(rules::specs::OneEvent::same_key, rules::specs::OneEvent::same_thumb))]
pub fn in_s5(
    s: Settings,
    now: Stamp,
    thumb: Thumb,
    o: Stamp,
    key: Key,
    m: Stamp,
    kind: Kind,
    n: Key,
) -> Effect
    ensures { done result ≡ in_S5 s now thumb o key m (meant kind n) }
{
    let same = Resting::S5(thumb, o, key, m);
    let chord = commits_chord(key, thumb, Resting::S1);
    let a = lag(o, m);
    let b = lag(m, now);
    match kind {
        Kind::CharacterDown => commits_chord(key, thumb, Resting::S2(n, now)),
        Kind::CharacterUp => { if n == key { chord } else { goes_to(same) } }
        Kind::ThumbDown => {
            let p = thumb_of(n);
            if p == thumb {
                goes_to(same)
            } else {
                thumb_down_in_s5(s, now, thumb, key, m, p, a, b)
            }
        }
        Kind::ThumbUp => {
            if thumb_of(n) == thumb {
                thumb_up_in_s5(s, now, thumb, o, key, m, a, b)
            } else {
                goes_to(same)
            }
        }
        Kind::FunctionDown => chord,
        Kind::Tick => goes_to(same),
    }
}

#[inline(always)]
#[tactic(auto, unfolding(rules::specs::OneEvent::same_key))]
pub fn in_s6(
    s: Settings,
    now: Stamp,
    thumb: Thumb,
    o: Stamp,
    key: Key,
    m: Stamp,
    r: Stamp,
    kind: Kind,
    n: Key,
) -> Effect
    ensures { done result ≡ in_S6 s now thumb o key m r (meant kind n) }
{
    let same = Resting::S6(thumb, o, key, m, r);
    match kind {
        Kind::CharacterDown => commits_chord(key, thumb, Resting::S2(n, now)),
        Kind::CharacterUp => {
            if n == key {
                commits_chord(key, thumb, Resting::S1)
            } else {
                goes_to(same)
            }
        }
        Kind::ThumbDown => commits_chord(key, thumb, Resting::S3(thumb_of(n), now)),
        Kind::ThumbUp => goes_to(same),
        Kind::FunctionDown => commits_both(s, thumb, key),
        Kind::Tick => goes_to(same),
    }
}

// S7 and S8, a third character n: the gaps decide whether the pair stays together; else K may be of a pair with n.
#[inline(always)]
fn third(given: Lent<'_>, at: Stamp, key: Key, m: Stamp, second: Key, k: Stamp, n: Key) -> Effect
    ensures { done result ≡ third (lent_by given.entry) at key m second k n }
{
    if pair_stays(lag(m, k), lag(k, at)) {
        return commits_pair(given, key, second, Resting::S2(n, at));
    }
    if is_pair(given.list, second, n) {
        return commits_plain(key, Resting::S7(second, k, n, at));
    }
    commits_two(key, second, Resting::S2(n, at))
}

// S7 and S8, a thumb p: the gaps decide whether the pair stays together; else K waits with p.
#[inline(always)]
fn third_thumb(
    given: Lent<'_>,
    at: Stamp,
    key: Key,
    m: Stamp,
    second: Key,
    k: Stamp,
    p: Thumb,
) -> Effect
    ensures { done result ≡ third_thumb (lent_by given.entry) at key m second k p }
{
    if pair_stays(lag(m, k), lag(k, at)) {
        return commits_pair(given, key, second, Resting::S3(p, at));
    }
    commits_plain(key, Resting::S4(second, k, p, at))
}

// S7, M is released: the overlap decides whether M and K may still turn out to be no pair.
#[inline(always)]
#[tactic(auto, unfolding(rules::specs::OneEvent::short_pair))]
fn first_up_in_s7(given: Lent<'_>, at: Stamp, key: Key, m: Stamp, second: Key, k: Stamp) -> Effect
    ensures { done result ≡
        (if short_pair (lent_by given.entry) (lag m k) (lag k at) then (nothing leaving S8 key m second k at)
        orelse (together (lent_by given.entry) key second leaving S1)) }
{
    if short_pair(given.times.ts, given.times.n, lag(m, k), lag(k, at)) {
        return goes_to(Resting::S8(key, m, second, k, at));
    }
    commits_pair(given, key, second, Resting::S1)
}

#[inline(always)]
#[tactic(auto, unfolding(rules::specs::OneEvent::same_key))]
pub fn in_s7(
    given: Lent<'_>,
    at: Stamp,
    key: Key,
    m: Stamp,
    second: Key,
    k: Stamp,
    kind: Kind,
    n: Key,
) -> Effect
    ensures { done result ≡ in_S7 (lent_by given.entry) at key m second k (meant kind n) }
{
    let same = Resting::S7(key, m, second, k);
    match kind {
        Kind::CharacterDown => third(given, at, key, m, second, k, n),
        Kind::CharacterUp => {
            if n == key {
                first_up_in_s7(given, at, key, m, second, k)
            } else if n == second {
                commits_pair(given, key, second, Resting::S1)
            } else {
                goes_to(same)
            }
        }
        Kind::ThumbDown => third_thumb(given, at, key, m, second, k, thumb_of(n)),
        Kind::ThumbUp => goes_to(same),
        Kind::FunctionDown => commits_pair(given, key, second, Resting::S1),
        Kind::Tick => goes_to(same),
    }
}

// S8, K is released: how long both were down, of the time that K was, decides whether they are a pair.
#[inline(always)]
fn second_up_in_s8(
    given: Lent<'_>,
    s: Settings,
    at: Stamp,
    key: Key,
    second: Key,
    k: Stamp,
    r: Stamp,
) -> Effect
    ensures { done result ≡
        (if short_of s.l (lag k r) (lag k at) then ((plain key ++ plain second) leaving S1)
        orelse (together (lent_by given.entry) key second leaving S1)) }
{
    if short_of(s.l, lag(k, r), lag(k, at)) {
        return commits_two(key, second, Resting::S1);
    }
    commits_pair(given, key, second, Resting::S1)
}

#[inline(always)]
#[tactic(auto, unfolding(rules::specs::OneEvent::same_key))]
pub fn in_s8(
    given: Lent<'_>,
    s: Settings,
    at: Stamp,
    key: Key,
    m: Stamp,
    second: Key,
    k: Stamp,
    r: Stamp,
    kind: Kind,
    n: Key,
) -> Effect
    ensures { done result ≡ in_S8 (lent_by given.entry) s at key m second k r (meant kind n) }
{
    let same = Resting::S8(key, m, second, k, r);
    match kind {
        Kind::CharacterDown => third(given, at, key, m, second, k, n),
        Kind::CharacterUp => {
            if n == second {
                second_up_in_s8(given, s, at, key, second, k, r)
            } else {
                goes_to(same)
            }
        }
        Kind::ThumbDown => third_thumb(given, at, key, m, second, k, thumb_of(n)),
        Kind::ThumbUp => goes_to(same),
        Kind::FunctionDown => commits_pair(given, key, second, Resting::S1),
        Kind::Tick => goes_to(same),
    }
}

// What a state does at an event.
pub fn act(given: Lent<'_>, s: Settings, at: Stamp, resting: Resting, kind: Kind, n: Key) -> Effect
    ensures { done result ≡ act (lent_by given.entry) s at resting (meant kind n) }
{
    match resting {
        Resting::S1 => in_s1(at, kind, n),
        Resting::S2(key, m) => in_s2(given, at, key, m, kind, n),
        Resting::S3(thumb, o) => in_s3(s, at, thumb, o, kind, n),
        Resting::S4(key, m, thumb, o) => in_s4(s, at, key, m, thumb, o, kind, n),
        Resting::S5(thumb, o, key, m) => in_s5(s, at, thumb, o, key, m, kind, n),
        Resting::S6(thumb, o, key, m, r) => in_s6(s, at, thumb, o, key, m, r, kind, n),
        Resting::S7(key, m, second, k) => in_s7(given, at, key, m, second, k, kind, n),
        Resting::S8(key, m, second, k, r) => in_s8(given, s, at, key, m, second, k, r, kind, n),
    }
}
