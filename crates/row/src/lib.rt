// Sixteen keyboards at one console: events that name their keyboard, at a lent row of machines that lie side by side. What an
// event at a row means is said in specs/Row.antt.
#![tactic(auto)]

ghost use Rattle.std.specs.Prelude.{◌≡◌};
ghost use Rattle.pairs.specs.Lent.{lent_by};
ghost use Rattle.deadlines.specs.Views.{asked};
ghost use Rattle.row.specs.Row.{step_at, asking_at};
ghost use Rattle.row.specs.Views.{is_keyboard, TellsAt};

use engine::{Items, Lent, Sendings};
use rules::{Event, Machine, Refusal, Stamp};

// What an event at a row gives back beside the row, where it is not refused: the items committed and what is sent.
#[derive(Clone, Copy)]
pub struct Told {
    pub items: Items,
    pub sendings: Sendings,
}

// Whether a row of n machines is short enough and has a keyboard of this number.
pub fn is_keyboard(n: usize, board: usize) -> bool
    ensures { result ≡ is_keyboard n board }
{
    n <= 16 && board < n
}

// One event at a keyboard of a row: refused 13 where the row has no such keyboard. A refused event leaves the row as it was.
pub fn step_at(
    row: &mut [Machine],
    given: Lent<'_>,
    board: usize,
    event: Event,
) -> Result<Told, Refusal>
    ensures { TellsAt result (step_at (lent_by given.entry) row.old board event)
        × (row.new ≡ (step_at (lent_by given.entry) row.old board event).row) }
{
    if !is_keyboard(row.len(), board) {
        return Err(Refusal::NoKeyboard);
    }
    let done = engine::step(given, row[board], event)?;
    row[board] = done.machine;
    Ok(Told {
        items: done.items,
        sendings: done.sendings,
    })
}

// How far the next deadline of a keyboard of a row lies from a stamp: refused 13 where the row has no such keyboard.
pub fn distance_at(
    row: &[Machine],
    given: Lent<'_>,
    board: usize,
    stamp: Stamp,
) -> Result<Option<i64>, Refusal>
    ensures { asked result ≡ asking_at (lent_by given.entry) row.now board stamp }
{
    if !is_keyboard(row.len(), board) {
        return Err(Refusal::NoKeyboard);
    }
    engine::distance(given, row[board], stamp)
}
