// One event at a machine, with what is lent (9/12): whether it is refused, what it commits and sends, and the machine after it. A
// machine is opened by `rules::Machine::open`; what else a caller asks of one is passed on from the crates below.
#![tactic(auto)]

mod by_state;
mod holding;

ghost use Rattle.std.specs.Prelude.{◌≡◌, true, Ok};
ghost use Rattle.rules.specs.States.{well_formed};
ghost use Rattle.rules.specs.OneEvent.{one_event};
ghost use Rattle.rules.specs.GivenBack.{held_after, judge, acceptance, step_with, step};
ghost use Rattle.pairs.specs.Lent.{lent_by};
ghost use Rattle.rules.specs.Refusal.{kind_number};
ghost use Rattle.effects.specs.Views.{done};
ghost use Rattle.states.specs.Meant.{meant};
ghost use Rattle.engine.specs.Views.{keys_of, judged, Changes, Gives, taken};
ghost use Rattle.engine.specs.FormNotAsked.{judge_event, one_event_at_most, take_formed};

use by_state::event_in;
use deadlines::is_due;
pub use deadlines::{distance, well_formed};
use effects::Effect;
use holding::{acting, held_after, too_many};
pub use pairs::{Lent, Times, lent_good};
use preview::sent;
pub use preview::{Sendings, Signs};
pub use rules::Items;
use rules::{Event, Key, Kind, Machine, Refusal, Resting, Settings, Stamp};
use states::by_kind::{act, in_s1, late};

// W: the longest wait where there are no pairs.
pub use waits::longest_wait;

// What an event gives back that is not refused: the items committed, what is sent, and the machine.
#[derive(Clone, Copy)]
pub struct Stepped {
    pub items: Items,
    pub sendings: Sendings,
    pub machine: Machine,
}

// The same apart from what is sent.
#[derive(Clone, Copy)]
pub struct Taken {
    pub items: Items,
    pub machine: Machine,
}

// How many keys an event of a kind may name: 31 character keys, two thumbs, and no key, whose number is 0.
fn keys_of(kind: Kind) -> Key
    ensures { result.0 ≡ keys_of (kind_number kind) }
{
    match kind {
        Kind::CharacterDown | Kind::CharacterUp => Machine::KEYS,
        Kind::ThumbDown | Kind::ThumbUp => Key(2),
        Kind::FunctionDown | Kind::Tick => Key(1),
    }
}

// The checks of an event itself, in document 01's order; the kind that it acts as where it is accepted.
#[tactic(auto, unfolding(crate::specs::FormNotAsked::judge_event))]
fn judge_event(machine: Machine, event: Event) -> Result<Kind, Refusal>
    ensures { judged event.key result ≡ judge_event machine event }
{
    let kind = Kind::try_from(event.kind)?;
    if event.key >= keys_of(kind) {
        return Err(Refusal::KeyNotAllowed);
    }
    if event.stamp > Machine::LARGEST {
        return Err(Refusal::AboveLargest);
    }
    if event.stamp < machine.last {
        return Err(Refusal::BeforeLast);
    }
    if too_many(machine, event) {
        return Err(Refusal::TooManyHeld);
    }
    Ok(acting(machine.held, kind, event.key))
}

// All checks behind 12: whether the machine is well formed comes first. T_s and N have no part in them.
#[tactic(auto, using(deadlines::proofs::WellFormed::formed_by_list), unfolding(rules::specs::GivenBack::judge, crate::specs::FormNotAsked::judge_event))]
fn judge(given: Lent<'_>, machine: Machine, event: Event) -> Result<Kind, Refusal>
    ensures { judged event.key result ≡ judge (lent_by given.entry) machine event }
{
    if !well_formed(given.list, machine) {
        return Err(Refusal::NotWellFormed);
    }
    judge_event(machine, event)
}

// First what is late, then the event acts. What is late leaves S1, which commits nothing, so its items are all.
fn one_event(
    given: Lent<'_>,
    s: Settings,
    now: Stamp,
    resting: Resting,
    kind: Kind,
    n: Key,
) -> Effect
    ensures { done result ≡ one_event_at_most (lent_by given.entry) s now resting (meant kind n) }
{
    if is_due(given, s, now, resting) {
        return Effect {
            resting: in_s1(now, kind, n).resting,
            ..late(given, s, resting)
        };
    }
    act(given, s, now, resting, kind, n)
}

// What an accepted event commits, and the machine after it, by what it does and the kind that it acts as.
fn carry_out(machine: Machine, effect: Effect, now: Stamp, kind: Kind, n: Key) -> Taken
    ensures { Changes result machine now (held_after machine.held (meant kind n)) (done effect) }
{
    Taken {
        items: effect.items,
        machine: Machine {
            resting: effect.resting,
            last: now,
            held: held_after(machine.held, kind, n),
            ..machine
        },
    }
}

fn accepted(given: Lent<'_>, machine: Machine, now: Stamp, kind: Kind, n: Key) -> Stepped
    requires { well_formed (lent_by given) machine ≡ true }
    ensures { Gives machine (Ok result) (acceptance machine now (held_after machine.held (meant kind n))
        (one_event (lent_by given.entry) machine.settings now machine.resting (meant kind n))) }
{
    let effect = one_event(given, machine.settings, now, machine.resting, kind, n);
    let taken = carry_out(machine, effect, now, kind, n);
    Stepped {
        items: taken.items,
        sendings: sent(machine.resting, taken.items, taken.machine.resting),
        machine: taken.machine,
    }
}

// One event of any kind, key and stamp, at any machine, whether what is lent is accepted or not.
#[tactic(auto, using(crate::proofs::Laws::accepts_well_formed), unfolding(rules::specs::GivenBack::step_with))]
fn step_with(given: Lent<'_>, machine: Machine, event: Event) -> Result<Stepped, Refusal>
    ensures { Gives machine result (step_with (lent_by given.entry) machine event) }
{
    let kind = judge(given, machine, event)?;
    Ok(accepted(given, machine, event.stamp, kind, event.key))
}

// One event of any kind, key and stamp, at any machine, with any list, T_s and N: 12 comes before anything else. A refused event
// commits nothing, sends nothing, and its machine is as it was.
#[tactic(auto, unfolding(rules::specs::GivenBack::step))]
pub fn step(given: Lent<'_>, machine: Machine, event: Event) -> Result<Stepped, Refusal>
    ensures { Gives machine result (step (lent_by given.entry) machine event) }
{
    if !lent_good(given) {
        return Err(Refusal::ListNotGood);
    }
    step_with(given, machine, event)
}

// An event apart from what is sent, for a caller who knows that what is lent is accepted and that the machine is well formed: neither
// is asked again.
#[tactic(auto, unfolding(crate::specs::FormNotAsked::take_formed))]
pub fn take_formed(given: Lent<'_>, machine: Machine, event: Event) -> Result<Taken, Refusal>
    ensures { taken result ≡ take_formed (lent_by given.entry) machine event }
{
    let kind = judge_event(machine, event)?;
    let effect = event_in(
        given,
        machine.settings,
        event.stamp,
        machine.resting,
        kind,
        event.key,
    );
    Ok(carry_out(machine, effect, event.stamp, kind, event.key))
}
