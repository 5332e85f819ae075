// What the held keys make of an event: what it acts as, which keys are held after it, and whether it is one key too many.
ghost use Rattle.std.specs.Prelude.{◌≡◌};
ghost use Rattle.rules.specs.GivenBack.{acts_as, held_after, too_many};
ghost use Rattle.states.specs.Meant.{meant};

use held::{hold, how_many, is_held, release};
use rules::{Event, Key, Kind, Machine};

// The kind that an event acts as: a repeat, and an up of a key that is not held, as a tick.
pub fn acting(held: u32, kind: Kind, key: Key) -> Kind
    ensures { meant result key ≡ acts_as held (meant kind key) }
{
    match kind {
        Kind::CharacterDown if is_held(held, key) => Kind::Tick,
        Kind::CharacterUp if !is_held(held, key) => Kind::Tick,
        _ => kind,
    }
}

// The held keys after an event, by the kind that it acts as.
pub fn held_after(held: u32, kind: Kind, key: Key) -> u32
    ensures { result ≡ held_after held (meant kind key) }
{
    match kind {
        Kind::CharacterDown => hold(held, key),
        Kind::CharacterUp => release(held, key),
        _ => held,
    }
}

// A press of a new key while as many keys are held as may be.
#[tactic(auto, unfolding(rules::specs::GivenBack::is_new))]
pub fn too_many(machine: Machine, event: Event) -> bool
    ensures { result ≡ too_many machine event }
{
    event.kind == Kind::CharacterDown as u8
        && !is_held(machine.held, event.key)
        && how_many(machine.held) == Machine::MOST_HELD
}
