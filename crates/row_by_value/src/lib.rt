// A row of sixteen machines that a program holds by value: it is lent to `row::step_at` for one event and handed back. Who holds such a
// row needs no proof of lending it.
#![tactic(auto)]

ghost use Rattle.std.specs.Prelude.{◌≡◌};
ghost use Rattle.pairs.specs.Lent.{lent_by};
ghost use Rattle.row.specs.Row.{step_at};
ghost use Rattle.row.specs.Views.{TellsAt};

use pairs::Lent;
use row::Told;
use rules::{Event, Machine, Refusal};

// What an event at such a row gives back, and the row after it: the row as it was where the event is refused.
#[derive(Clone, Copy)]
pub struct Among {
    pub told: Result<Told, Refusal>,
    pub row: [Machine; 16],
}

pub fn step_among(mut row: [Machine; 16], given: Lent<'_>, board: usize, event: Event) -> Among
    ensures { TellsAt result.told (step_at (lent_by given.entry) row board event)
        × (result.row ≡ (step_at (lent_by given.entry) row board event).row) }
{
    let told = row::step_at(&mut row, given, board, event);
    Among { told, row }
}
