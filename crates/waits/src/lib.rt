// Arithmetic of stamps and lags. Stamps, lags and key numbers are unwrapped here. Elsewhere they are unwrapped only where they become
// something else: a key the index of a row of the layout (`layout`), a machine the numbers of a C host (`machine_numbers`), a key and
// a stamp the bytes of a record (`writer`), the longest wait a number that is printed (`worked_examples`).
// Every function takes any numbers: a sum that would not fit stops at the largest number, a lag that is multiplied counts as
// the largest stamp at most, and a stamp in a difference as the largest signed number at most. None of these bounds is met in
// a machine that is well formed, at a stamp that it accepts.
#![tactic(auto)]

ghost use Rattle.std.specs.Prelude.{◌≡◌, ◌&&◌, ◌+◌, ◌-◌, ◌*◌, ◌/◌, ◌%◌, ◌≤◌, ◌<◌, min, ltb};
ghost use Rattle.rules.specs.Numbers as Numbers;
ghost use Rattle.rules.specs.Numbers.{largest_stamp, up};
ghost use Rattle.rules.specs.States.{lag, is_key};
ghost use Rattle.rules.specs.Pairs.{GN};
ghost use Rattle.rules.specs.OneEvent.{second_character_takes_thumb, second_thumb_takes_character, short_overlap};
ghost use Rattle.rules.specs.OneEvent.{pair_stays, short_of};
ghost use Rattle.waits.specs.Turns.{Above};
ghost use Rattle.waits.specs.Digits.{digit};
ghost use Rattle.waits.specs.Capped.{since_at_most, later_at_most, lag_at_most, signed_at_most, distance_at_most};

use rules::{Key, Lag, Machine, Settings, Stamp};

// The lower 32 bits.
const LOW_DIGIT: u64 = 0xFFFF_FFFF;

// The lag from one stamp to another, none where the other is not later.
pub fn lag(from: Stamp, to: Stamp) -> Lag
    ensures { result.0 ≡ lag from to }
{
    Lag(to.0.saturating_sub(from.0))
}

// The stamp a lag later.
#[tactic(auto, unfolding(crate::specs::Capped::later_at_most))]
pub fn later(from: Stamp, by: Lag) -> Stamp
    ensures { result ≡ later_at_most from by.0 }
{
    Stamp(from.0.saturating_add(by.0))
}

// A stamp as a signed number, at most the largest of these.
#[tactic(auto, unfolding(crate::specs::Capped::signed_at_most))]
fn signed(stamp: Stamp) -> i64
    ensures { result ≡ signed_at_most stamp }
{
    stamp.0.min(i64::MAX as u64) as i64
}

// The milliseconds from now to another stamp, negative where that has passed.
pub fn distance(now: Stamp, to: Stamp) -> i64
    ensures { result ≡ distance_at_most now to }
{
    signed(to) - signed(now)
}

pub fn is_key(k: Key) -> bool
    ensures { result ≡ is_key k }
{
    k < Machine::KEYS
}

// S4, a second character: it takes the thumb from the first where it is nearer to it.
pub fn second_character_takes_thumb(a: Lag, b: Lag) -> bool
    ensures { result ≡ second_character_takes_thumb a.0 b.0 }
{
    b < a
}

// S5, a second thumb: it takes the character from the first.
pub fn second_thumb_takes_character(a: Lag, b: Lag) -> bool
    ensures { result ≡ second_thumb_takes_character a.0 b.0 }
{
    b <= a
}

// The overlap b after the gap a is short: in its share of both, and below a number of milliseconds. The gap is bounded, since its
// product might not fit; a gap at the bound decides as every longer one.
fn short_below(most: u16, percent: u8, a: Lag, b: Lag) -> bool
    ensures { result ≡ (ltb (100 * b.0) (percent * (a.0 + b.0)) && ltb b.0 most) }
{
    b.0 < (most as u64) && 100 * b.0 < (percent as u64) * (bounded(a) + b.0)
}

// S4, M up, and S5, O up: the overlap b after the gap a is short.
#[tactic(auto, unfolding(rules::specs::OneEvent::short_overlap))]
pub fn short_overlap(percent: u8, a: Lag, b: Lag) -> bool
    ensures { result ≡ short_overlap percent a.0 b.0 }
{
    short_below(Settings::SHORT_OVERLAP.0 as u16, percent, a, b)
}

// S7 and S8, a third key: the pair stays together where its two keys are nearer to each other.
pub fn pair_stays(a: Lag, b: Lag) -> bool
    ensures { result ≡ pair_stays a.0 b.0 }
{
    a < b
}

// S7, the first key up: the overlap b after the gap a is short, in its share of both and below T_s.
pub fn short_pair(ts: u16, n: u8, a: Lag, b: Lag) -> bool
    ensures { result ≡ (ltb (100 * b.0) (n * (a.0 + b.0)) && ltb b.0 ts) }
{
    short_below(ts, n, a, b)
}

// A product that might not fit, as two digits to the base 2 to the 32: the upper one, which may be a larger number.
fn upper(percent: u8, x: u64) -> u64
    ensures { result ≡ (percent * x) / digit }
{
    let by = percent as u64;
    by * (x >> 32) + ((by * (x & LOW_DIGIT)) >> 32)
}

// The lower one.
fn lower(percent: u8, x: u64) -> u64
    ensures { result ≡ (percent * x) % digit }
{
    ((percent as u64) * (x & LOW_DIGIT)) & LOW_DIGIT
}

// S8, the second key up: the overlap b is below a percentage of the time c. Both may be any numbers.
pub fn short_of(percent: u8, b: Lag, c: Lag) -> bool
    ensures { result ≡ short_of percent b.0 c.0 }
{
    let overlap = upper(100, b.0);
    let share = upper(percent, c.0);
    if overlap == share {
        return lower(100, b.0) < lower(percent, c.0);
    }
    overlap < share
}

// What a percentage leaves of 100.
fn rest(percent: u8) -> u8
    ensures { result ≡ 100 - percent }
{
    100u8.saturating_sub(percent)
}

// A lag that can be multiplied.
#[tactic(auto, unfolding(crate::specs::Capped::lag_at_most))]
fn bounded(x: Lag) -> u64
    ensures { result ≡ lag_at_most x.0 }
{
    x.0.min(Machine::LARGEST.0)
}

// By how many bits d is moved up to lie above the total: as many as the total is longer, and one more. The quotient takes so many
// turns, 48 at most (`Above`).
fn turns(total: u64, d: u64) -> u32
    requires total_bound { total < 281_474_976_710_656 }
    requires d_nonzero { 0 < d }
    requires d_le_total { d ≤ total }
    ensures { Above total d result }
{
    d.leading_zeros() + 1 - total.leading_zeros()
}

// total / d, with no division: d is moved up above the total and back down, bit by bit.
fn quotient(total: u64, d: u64) -> u64
    requires total_bound { total < 281_474_976_710_656 }
    requires d_nonzero { 0 < d }
    requires d_bound { d < 256 }
    ensures { result ≡ total / d }
{
    if total < d {
        return 0;
    }
    let mut k = turns(total, d);
    let mut step = d << k;
    let mut rest = total;
    let mut q: u64 = 0;
    while 0 < k {
        k -= 1;
        step = step >> 1;
        q = q + q;
        if step <= rest {
            rest -= step;
            q += 1;
        }
    }
    q
}

// x n / d, rounded up; 0 where d is 0.
fn share(x: u64, n: u8, d: u8) -> u64
    requires { x ≤ largest_stamp }
    ensures { result ≡ up (x * n) d }
{
    if d == 0 {
        return 0;
    }
    let less_one = (d - 1) as u64;
    quotient(x * (n as u64) + less_one, d as u64)
}

// The wait of one key alone: t by the rest of the percentage, over the percentage.
fn alone(t: u16, percent: u8) -> Lag
    ensures { result.0 ≡ up (t * (100 - percent)) percent }
{
    Lag(share(t as u64, rest(percent), percent))
}

// The wait of two keys, the second a lag after the first: the lag by the percentage, over its rest.
pub fn together(x: Lag, percent: u8) -> Lag
    ensures { result.0 ≡ up (lag_at_most x.0 * percent) (100 - percent) }
{
    Lag(share(bounded(x), percent, rest(percent)))
}

// A, the wait of a character alone.
pub fn character_wait(s: Settings) -> Lag
    ensures { result.0 ≡ Numbers.A s }
{
    alone(s.t, s.j)
}

// B, the wait of a thumb alone.
pub fn thumb_wait(s: Settings) -> Lag
    ensures { result.0 ≡ Numbers.B s }
{
    alone(s.t, s.l)
}

// FJ, the wait of a character and a thumb that came a lag later.
pub fn character_first_wait(s: Settings, x: Lag) -> Lag
    ensures { result.0 ≡ Numbers.FJ s (lag_at_most x.0) }
{
    together(x, s.j)
}

// FL, the wait of a thumb and a character that came a lag later.
pub fn thumb_first_wait(s: Settings, x: Lag) -> Lag
    ensures { result.0 ≡ Numbers.FL s (lag_at_most x.0) }
{
    together(x, s.l)
}

// P, the wait of a letter that is in some pair, but for A.
pub fn pair_wait(ts: u16, n: u8) -> Lag
    ensures { result.0 ≡ GN n ts }
{
    alone(ts, n)
}

// GN, the wait of two letters after the first is up, from then on, for the time that both were down.
pub fn released_wait(n: u8, x: Lag) -> Lag
    ensures { result.0 ≡ GN n (lag_at_most x.0) }
{
    Lag(share(bounded(x), rest(n), n))
}

// X, the larger of A and D = FL(B).
fn first_wait(s: Settings) -> Lag
    ensures { result.0 ≡ Numbers.X s }
{
    character_wait(s).max(thumb_first_wait(s, thumb_wait(s)))
}

// W, the longest wait.
pub fn longest_wait(s: Settings) -> Lag
    ensures { result.0 ≡ Numbers.W s }
{
    let first = first_wait(s);
    let second = first.max(character_first_wait(s, first));
    Lag(first.0 + second.0)
}

// How long now is past a stamp, and one more, so that a wait from there is over where it is below this: 0 where now is before
// it. Where now is the largest number every wait is over.
#[tactic(auto, unfolding(crate::specs::Capped::since_at_most))]
pub fn since(from: Stamp, now: Stamp) -> Lag
    ensures { result.0 ≡ since_at_most from now }
{
    match now.0.checked_add(1) {
        Some(past) => Lag(past.saturating_sub(from.0)),
        None => Lag(u64::MAX),
    }
}

// Whether x n / d, rounded up, is below y. It needs no quotient.
fn share_below(x: u64, n: u8, d: u8, y: u64) -> bool
    requires { x ≤ largest_stamp }
    ensures { result ≡ ltb (up (x * n) d) y }
{
    if y == 0 {
        return false;
    }
    if d == 0 {
        return true;
    }
    let total = x * (n as u64);
    let most = y - 1;
    total <= most || total <= most * (d as u64)
}

// Whether the wait of a character alone is below y.
pub fn character_wait_below(s: Settings, y: Lag) -> bool
    ensures { result ≡ ltb (Numbers.A s) y.0 }
{
    share_below(s.t as u64, rest(s.j), s.j, y.0)
}

// Whether the wait of a thumb alone is below y.
pub fn thumb_wait_below(s: Settings, y: Lag) -> bool
    ensures { result ≡ ltb (Numbers.B s) y.0 }
{
    share_below(s.t as u64, rest(s.l), s.l, y.0)
}

// Whether the wait of a character and a thumb that came a lag later is below y.
pub fn character_first_wait_below(s: Settings, x: Lag, y: Lag) -> bool
    ensures { result ≡ ltb (Numbers.FJ s (lag_at_most x.0)) y.0 }
{
    share_below(bounded(x), s.j, rest(s.j), y.0)
}

// Whether the wait of a thumb and a character that came a lag later, at most that of a thumb alone, is below y. Only a thumb
// that was held longer than it waits alone asks for that wait itself.
#[inline(always)]
pub fn thumb_first_wait_below(s: Settings, x: Lag, y: Lag) -> bool
    ensures { result ≡ ltb (Numbers.FL s (lag_at_most (min x.0 (Numbers.B s)))) y.0 }
{
    if thumb_wait_below(s, x) {
        return share_below(bounded(thumb_wait(s)), s.l, rest(s.l), y.0);
    }
    share_below(bounded(x), s.l, rest(s.l), y.0)
}

// Whether P is below y.
pub fn pair_wait_below(ts: u16, n: u8, y: Lag) -> bool
    ensures { result ≡ ltb (GN n ts) y.0 }
{
    share_below(ts as u64, rest(n), n, y.0)
}

// Whether the wait of two letters after the first is up is below y.
pub fn released_wait_below(n: u8, x: Lag, y: Lag) -> bool
    ensures { result ≡ ltb (GN n (lag_at_most x.0)) y.0 }
{
    share_below(bounded(x), rest(n), n, y.0)
}
