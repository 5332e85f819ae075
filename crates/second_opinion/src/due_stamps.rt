// The deadlines of the second opinion. Stamps are in range, so that no sum stops at a bound.
ghost use Rattle.std.specs.Prelude.{◌+◌, ◌≤◌, min, true, ◌≡◌, eqb};
ghost use Rattle.std.proofs.Math.Option.{none};
ghost use Rattle.choice.specs.Choice.{if◌then◌orelse◌};
ghost use Rattle.rules.specs.Numbers as Numbers;
ghost use Rattle.rules.specs.Numbers.{in_range};
ghost use Rattle.waits.specs.Capped.{largest_number};
ghost use Rattle.opinions.specs.Opinion as opinions;
ghost use Rattle.second_opinion.specs.Views.{maybe};

use crate::places::{Events, Heard};
use rules::{Lag, Settings, Stamp};
use waits::{character_first_wait, character_wait, lag, later, thumb_first_wait, thumb_wait};

// What stands at a log's front: settings, and accepted events.
#[derive(Clone, Copy)]
pub struct Opened<'a> {
    pub settings: Settings,
    pub events: Events<'a>,
    ghost in_range: { in_range settings ≡ true },
}

// The time from one event to a later one.
pub fn gap(one: Heard, other: Heard) -> Lag
    ensures { result.0 ≡ opinions.gap one.event other.event }
{
    lag(one.event.stamp, other.event.stamp)
}

// A wait after an event.
fn due_after(e: Heard, wait: Lag) -> Option<Stamp>
    requires { e.event.stamp.0 + wait.0 ≤ largest_number }
    ensures { maybe result ≡ opinions.due_after e.event wait.0 }
{
    Some(later(e.event.stamp, wait))
}

// Of a thumb, then a letter, and the thumb released.
pub fn released_due(letter: Heard, release: Heard) -> Option<Stamp>
    ensures { maybe result ≡ opinions.due_after release.event (opinions.gap letter.event release.event) }
{
    due_after(release, gap(letter, release))
}

impl Opened<'_> {
    // Of a letter alone.
    pub fn letter_due(self, letter: Heard) -> Option<Stamp>
        ensures { maybe result ≡ opinions.due_after letter.event (Numbers.A self.entry.settings) }
    {
        due_after(letter, character_wait(self.settings))
    }

    // Of a letter, then a thumb.
    pub fn letter_first_due(self, letter: Heard, thumb: Heard) -> Option<Stamp>
        ensures { maybe result ≡ opinions.due_after thumb.event (Numbers.FJ self.entry.settings (opinions.gap letter.event thumb.event)) }
    {
        due_after(
            thumb,
            character_first_wait(self.settings, gap(letter, thumb)),
        )
    }

    // Of a thumb, then a letter.
    pub fn thumb_first_due(self, thumb: Heard, letter: Heard) -> Option<Stamp>
        ensures { maybe result ≡ opinions.due_after letter.event
            (Numbers.FL self.entry.settings (min (opinions.gap thumb.event letter.event) (Numbers.B self.entry.settings))) }
    {
        let held = gap(thumb, letter).min(thumb_wait(self.settings));
        due_after(letter, thumb_first_wait(self.settings, held))
    }

    // Of a thumb alone: it has one only if a mark is wanted.
    pub fn thumb_due(self, thumb: Heard) -> Option<Stamp>
        ensures { maybe result ≡ (if eqb self.entry.settings.solo 1
            then opinions.due_after thumb.event (Numbers.B self.entry.settings) orelse none) }
    {
        if self.settings.solo != 1 {
            return None;
        }
        due_after(thumb, thumb_wait(self.settings))
    }
}
