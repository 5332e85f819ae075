// What each resting state does when it is late and at each event (by_kind.rt), and the same of an event whose kind comes as its number, of
// which 1 to 6 are kinds and any other means a tick (`meant_by_number`).
#![tactic(auto)]

pub mod by_kind;

ghost use Rattle.std.specs.Prelude.{◌≡◌};
ghost use Rattle.rules.specs.OneEvent.{in_S1, in_S2, in_S3, in_S4, in_S5, in_S6, in_S7, in_S8, act};
ghost use Rattle.rules.specs.declared.Key.{Key};
ghost use Rattle.pairs.specs.Lent.{lent_by};
ghost use Rattle.effects.specs.Views.{done};
ghost use Rattle.states.specs.Meant.{meant, meant_by_number};

pub use by_kind::{late, thumb_of};
use effects::Effect;
use pairs::Lent;
use rules::{Key, Kind, Resting, Settings, Stamp, Thumb};

// The kind of a number; of one that is none a tick.
#[tactic(auto, using(crate::proofs::Meant::by_number, crate::proofs::Meant::no_kind))]
fn kind_of(number: u8) -> Kind
    ensures { (n : Key) → meant result n ≡ meant_by_number number n }
{
    Kind::try_from(number).unwrap_or(Kind::Tick)
}

pub fn in_s1(now: Stamp, kind: u8, n: Key) -> Effect
    ensures { done result ≡ in_S1 now (meant_by_number kind n) }
{
    by_kind::in_s1(now, kind_of(kind), n)
}

pub fn in_s2(given: Lent<'_>, at: Stamp, key: Key, m: Stamp, kind: u8, n: Key) -> Effect
    ensures { done result ≡ in_S2 (lent_by given.entry) at key m (meant_by_number kind n) }
{
    by_kind::in_s2(given, at, key, m, kind_of(kind), n)
}

pub fn in_s3(s: Settings, now: Stamp, thumb: Thumb, o: Stamp, kind: u8, n: Key) -> Effect
    ensures { done result ≡ in_S3 s now thumb o (meant_by_number kind n) }
{
    by_kind::in_s3(s, now, thumb, o, kind_of(kind), n)
}

pub fn in_s4(
    s: Settings,
    now: Stamp,
    key: Key,
    m: Stamp,
    thumb: Thumb,
    o: Stamp,
    kind: u8,
    n: Key,
) -> Effect
    ensures { done result ≡ in_S4 s now key m thumb o (meant_by_number kind n) }
{
    by_kind::in_s4(s, now, key, m, thumb, o, kind_of(kind), n)
}

pub fn in_s5(
    s: Settings,
    now: Stamp,
    thumb: Thumb,
    o: Stamp,
    key: Key,
    m: Stamp,
    kind: u8,
    n: Key,
) -> Effect
    ensures { done result ≡ in_S5 s now thumb o key m (meant_by_number kind n) }
{
    by_kind::in_s5(s, now, thumb, o, key, m, kind_of(kind), n)
}

pub fn in_s6(
    s: Settings,
    now: Stamp,
    thumb: Thumb,
    o: Stamp,
    key: Key,
    m: Stamp,
    r: Stamp,
    kind: u8,
    n: Key,
) -> Effect
    ensures { done result ≡ in_S6 s now thumb o key m r (meant_by_number kind n) }
{
    by_kind::in_s6(s, now, thumb, o, key, m, r, kind_of(kind), n)
}

pub fn in_s7(
    given: Lent<'_>,
    at: Stamp,
    key: Key,
    m: Stamp,
    second: Key,
    k: Stamp,
    kind: u8,
    n: Key,
) -> Effect
    ensures { done result ≡ in_S7 (lent_by given.entry) at key m second k (meant_by_number kind n) }
{
    by_kind::in_s7(given, at, key, m, second, k, kind_of(kind), n)
}

pub fn in_s8(
    given: Lent<'_>,
    s: Settings,
    at: Stamp,
    key: Key,
    m: Stamp,
    second: Key,
    k: Stamp,
    r: Stamp,
    kind: u8,
    n: Key,
) -> Effect
    ensures { done result ≡ in_S8 (lent_by given.entry) s at key m second k r (meant_by_number kind n) }
{
    by_kind::in_s8(given, s, at, key, m, second, k, r, kind_of(kind), n)
}

pub fn act(given: Lent<'_>, s: Settings, at: Stamp, resting: Resting, kind: u8, n: Key) -> Effect
    ensures { done result ≡ act (lent_by given.entry) s at resting (meant_by_number kind n) }
{
    by_kind::act(given, s, at, resting, kind_of(kind), n)
}
