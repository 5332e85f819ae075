// A live keyboard alone, as a static library, libcontroller.a: what a keyboard's controller runs. Each function is that of `keyboard`
// under the same name, with its contract: a static library exports the functions that it has itself.
#![tactic(auto)]

ghost use Rattle.std.specs.Prelude.{◌≡◌};
ghost use Rattle.rules.specs.Numbers.{settings_of};
ghost use Rattle.rules.specs.States.{opening};
ghost use Rattle.keyboard.specs.Keyboard.{lent_of, event_of, open_numbers, step_numbers, distance_numbers};

use keyboard::{DistanceAnswer, OpenAnswer, StepAnswer};
use machine_numbers::MachineNumbers;
use rules::Stamp;

#[unsafe(no_mangle)]
pub extern "C" fn trabeculon_open(t: u16, j: u8, l: u8, solo: u8) -> OpenAnswer
    ensures { result ≡ open_numbers (opening (settings_of t j l solo)) }
{
    keyboard::trabeculon_open(t, j, l, solo)
}

#[unsafe(no_mangle)]
pub extern "C" fn trabeculon_step(
    machine: MachineNumbers,
    pairs: &[u32],
    ts: u16,
    n: u8,
    kind: u8,
    key: u8,
    stamp: Stamp,
) -> StepAnswer
    ensures { result ≡ step_numbers (lent_of pairs.now ts n) machine (event_of kind key stamp) }
{
    keyboard::trabeculon_step(machine, pairs, ts, n, kind, key, stamp)
}

#[unsafe(no_mangle)]
pub extern "C" fn trabeculon_distance(
    machine: MachineNumbers,
    pairs: &[u32],
    ts: u16,
    n: u8,
    stamp: Stamp,
) -> DistanceAnswer
    ensures { result ≡ distance_numbers (lent_of pairs.now ts n) machine stamp }
{
    keyboard::trabeculon_distance(machine, pairs, ts, n, stamp)
}
