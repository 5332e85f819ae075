// The set of held character keys: a number of 32 bits, one bit a key. Every function answers for any set and any key: one that is
// no character key is never held, and to hold or release it changes nothing. It is a number, since a host in C holds it as one.
#![tactic(auto)]

ghost use Rattle.std.specs.Prelude.{◌≡◌, ◌<◌, ◌^◌};
ghost use Rattle.rules.specs.Numbers.{keys};
ghost use Rattle.rules.specs.Held.{is_held, hold, release, how_many, held_formed};

use rules::{Key, Machine};
use waits::is_key;

// Bits 31 and up.
const BEYOND: u32 = 0x8000_0000;

#[tactic(auto, unfolding(rules::specs::Held::is_held))]
pub fn is_held(held: u32, key: Key) -> bool
    ensures { result ≡ is_held held key }
{
    is_key(key) && (held >> key.0) & 1 == 1
}

// The set of one key.
fn alone(key: Key) -> u32
    requires { key.0 < keys }
    ensures { result ≡ 2 ^ key.0 }
{
    1 << key.0
}

#[tactic(auto, unfolding(rules::specs::Held::hold))]
pub fn hold(held: u32, key: Key) -> u32
    ensures { result ≡ hold held key }
{
    if !is_held(held, key) && is_key(key) {
        held + alone(key)
    } else {
        held
    }
}

#[tactic(auto, unfolding(rules::specs::Held::release))]
pub fn release(held: u32, key: Key) -> u32
    ensures { result ≡ release held key }
{
    if is_held(held, key) {
        held - alone(key)
    } else {
        held
    }
}

pub fn how_many(held: u32) -> u32
    ensures { result ≡ how_many held }
{
    held.count_ones()
}

// Whether no bit stands for no key, and no more keys are held than may be.
#[tactic(auto, unfolding(rules::specs::Held::held_formed))]
pub fn held_formed(held: u32) -> bool
    ensures { result ≡ held_formed held }
{
    held < BEYOND && how_many(held) <= Machine::MOST_HELD
}
