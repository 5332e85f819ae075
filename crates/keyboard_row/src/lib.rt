// A row of keyboards that the console's C host drives itself. Their machines lie side by side as numbers in the host's own memory, and
// are advanced there. What an event at such a row means is said in specs/Keyboards.antt.
#![tactic(auto)]

ghost use Rattle.std.specs.Prelude.{◌≡◌};
ghost use Rattle.keyboard.specs.Keyboard.{event_of, lent_of};
ghost use Rattle.keyboard_row.specs.Keyboards.{told_of, row_numbers, no_keyboard, row_step_numbers, row_distance_numbers};

use keyboard::{DistanceAnswer, StepAnswer};
use machine_numbers::MachineNumbers;
use row::is_keyboard;
use rules::{Refusal, Stamp};

// What an event at a row gives back beside the row: the number, how many items are committed, their words, and what is sent: so many
// backspaces, 0 to 2, then signs, packed to the front, 0 behind the last.
#[repr(C)]
#[derive(Clone, Copy)]
pub struct RowStepAnswer {
    pub number: u32,
    pub items: u32,
    pub first: u16,
    pub second: u16,
    pub backspaces: u16,
    pub sent_first: u16,
    pub sent_second: u16,
    pub sent_third: u16,
}

// What an event gives back at one machine, without the machine.
impl From<StepAnswer> for RowStepAnswer {
    ghost from_gives = { λ answer told. told ≡ told_of answer };

    fn from(answer: StepAnswer) -> RowStepAnswer {
        RowStepAnswer {
            number: answer.number,
            items: answer.items,
            first: answer.first,
            second: answer.second,
            backspaces: answer.backspaces,
            sent_first: answer.sent_first,
            sent_second: answer.sent_second,
            sent_third: answer.sent_third,
        }
    }
}

// The row has no such keyboard: nothing is committed, and nothing is sent.
fn no_keyboard() -> RowStepAnswer
    ensures { result ≡ no_keyboard }
{
    RowStepAnswer {
        number: Refusal::NoKeyboard.number() as u32,
        items: 0,
        first: 0,
        second: 0,
        backspaces: 0,
        sent_first: 0,
        sent_second: 0,
        sent_third: 0,
    }
}

// One event at a keyboard of a row, with a list of pairs, T_s and N lent. Its machine is copied out, stepped and written back.
#[unsafe(no_mangle)]
pub extern "C" fn trabeculon_row_step(
    row: &mut [MachineNumbers],
    pairs: &[u32],
    ts: u16,
    n: u8,
    board: u32,
    kind: u8,
    key: u8,
    stamp: Stamp,
) -> RowStepAnswer
    ensures { row_numbers result row.new
        ≡ row_step_numbers (lent_of pairs.now ts n) row.old board (event_of kind key stamp) }
{
    let place = board as usize;
    if !is_keyboard(row.len(), place) {
        return no_keyboard();
    }
    let done = keyboard::trabeculon_step(row[place], pairs, ts, n, kind, key, stamp);
    row[place] = done.machine;
    RowStepAnswer::from(done)
}

// How far the next deadline of a keyboard of a row lies from a stamp.
#[unsafe(no_mangle)]
pub extern "C" fn trabeculon_row_distance(
    row: &[MachineNumbers],
    pairs: &[u32],
    ts: u16,
    n: u8,
    board: u32,
    stamp: Stamp,
) -> DistanceAnswer
    ensures { result ≡ row_distance_numbers (lent_of pairs.now ts n) row.now board stamp }
{
    let place = board as usize;
    if !is_keyboard(row.len(), place) {
        return DistanceAnswer::from(Err(Refusal::NoKeyboard));
    }
    keyboard::trabeculon_distance(row[place], pairs, ts, n, stamp)
}
