// The reason of what an event commits, of any machine and event: its numbers come from `margins`, its deadline from the distance that a
// machine answers.
#![tactic(auto)]

ghost use Rattle.std.specs.Prelude.{◌≡◌};
ghost use Rattle.pairs.specs.Lent.{lent_by};
ghost use Rattle.rules.specs.OneEvent.{due_by};
ghost use Rattle.rules.specs.GivenBack.{acts_as};
ghost use Rattle.states.specs.Meant.{meant_by_number};
ghost use Rattle.margins.specs.Views.{when, test, of_times};
ghost use Rattle.deadlines.specs.Views.{asked};
ghost use Rattle.why.specs.FromDistance.{begun, at_distance, stamp_asked, deadline_asked};
ghost use Rattle.why.specs.Told.{tested, told, numbers_at_most};

use deadlines::distance_with;
use held::is_held;
use margins::{Compared, began, comparing, last_turn, next_turn, sooner_at, turnings};
use pairs::{Lent, Times};
use rules::{Event, Input, Key, Kind, Lag, Machine, Refusal, Resting, Settings, Stamp};
use states::thumb_of;
use waits::later;

// A machine as it was when its state began.
fn begun(machine: Machine) -> Machine
    ensures { result ≡ begun machine }
{
    Machine {
        last: began(machine.resting),
        ..machine
    }
}

// The stamp so far behind another, none where that is negative.
fn at_distance(start: Stamp, z: i64) -> Option<Stamp>
    ensures { when result ≡ at_distance start z }
{
    if z < 0 {
        return None;
    }
    Some(later(start, Lag(z as u64)))
}

// The stamp that an answer tells.
fn stamp_asked(start: Stamp, answer: Result<Option<i64>, Refusal>) -> Option<Stamp>
    ensures { when result ≡ stamp_asked start (asked answer) }
{
    at_distance(start, answer.ok()??)
}

// The deadline of a machine's state, from the distance that it answers where the state began.
pub fn deadline_of(given: Lent<'_>, machine: Machine) -> Option<Stamp>
    ensures { when result ≡ deadline_asked (lent_by given.entry) machine }
{
    let start = began(machine.resting);
    stamp_asked(start, distance_with(given, begun(machine), start))
}

// The numbers of a reason: whether the line "late" committed, what was compared, the state's deadline, and the nearest stamps before and
// behind the event at which it would have been decided otherwise.
#[derive(Clone, Copy)]
pub struct Numbers {
    pub late: bool,
    pub compared: Compared,
    pub due: Option<Stamp>,
    pub sooner: Option<Stamp>,
    pub later: Option<Stamp>,
}

// Whether a deadline is at or before a stamp.
fn is_late(at: Stamp, due: Option<Stamp>) -> bool
    ensures { result ≡ due_by at (when due) }
{
    due.is_some_and(|d| d <= at)
}

// What was compared: nothing where the state was late.
#[tactic(auto, unfolding(crate::specs::Told::tested))]
fn tested(
    times: Times,
    s: Settings,
    at: Stamp,
    resting: Resting,
    input: Input,
    late: bool,
) -> Compared
    ensures { test result ≡ tested (of_times times) s at resting input late }
{
    if late {
        Compared::Nothing
    } else {
        comparing(times, s, at, resting, input)
    }
}

// The numbers of the reason of what an input commits at a stamp, at any machine.
pub fn numbers_of(given: Lent<'_>, machine: Machine, at: Stamp, input: Input) -> Numbers
    ensures { told result ≡ numbers_at_most (lent_by given.entry) (of_times given.entry.times) machine at input }
{
    let resting = machine.resting;
    let due = deadline_of(given, machine);
    let late = is_late(at, due);
    let turns = turnings(given, machine.settings, due, resting, input);
    Numbers {
        late,
        compared: tested(given.times, machine.settings, at, resting, input, late),
        due,
        sooner: sooner_at(began(resting), last_turn(at, turns)),
        later: next_turn(at, turns),
    }
}

// The input that an event's kind and key name: any other kind than 1 to 5 counts as a tick, and any other thumb than 0 as the right one.
#[tactic(auto, using(states::proofs::Meant::no_kind), unfolding(states::specs::Meant::meant_by_number))]
fn meant(kind: u8, key: Key) -> Input
    ensures { result ≡ meant_by_number kind key }
{
    match Kind::try_from(kind) {
        Ok(Kind::CharacterDown) => Input::CharacterDown(key),
        Ok(Kind::CharacterUp) => Input::CharacterUp(key),
        Ok(Kind::ThumbDown) => Input::ThumbDown(thumb_of(key)),
        Ok(Kind::ThumbUp) => Input::ThumbUp(thumb_of(key)),
        Ok(Kind::FunctionDown) => Input::FunctionDown,
        Ok(Kind::Tick) | Err(_) => Input::Tick,
    }
}

// A down of a key that is held, and an up of one that is not, act as a tick.
fn acts_as(held: u32, input: Input) -> Input
    ensures { result ≡ acts_as held input }
{
    match input {
        Input::CharacterDown(k) if is_held(held, k) => Input::Tick,
        Input::CharacterUp(k) if !is_held(held, k) => Input::Tick,
        _ => input,
    }
}

// The numbers of the reason of what an event commits, at any machine. Of an event that the machine refuses they say nothing.
pub fn numbers_at(given: Lent<'_>, machine: Machine, event: Event) -> Numbers
    ensures { told result ≡ numbers_at_most (lent_by given.entry) (of_times given.entry.times) machine event.stamp
        (acts_as machine.held (meant_by_number event.kind event.key)) }
{
    let input = acts_as(machine.held, meant(event.kind, event.key));
    numbers_of(given, machine, event.stamp, input)
}
