// One event, for a caller that reads many: the state is looked at once, and each asks in its own function whether it is late. It
// does what `one_event` does; that the reader has it for itself lets the compiler put it into the reader's loop, with a live keyboard
// in the same library. In S3 to S6 it does not matter what is lent.
ghost use Rattle.std.specs.Prelude.{◌≡◌};
ghost use Rattle.rules.specs.OneEvent.{◌leaving◌, in_S1};
ghost use Rattle.pairs.specs.Lent.{lent_by};
ghost use Rattle.effects.specs.Views.{done};
ghost use Rattle.states.specs.Meant.{meant};
ghost use Rattle.engine.specs.FormNotAsked.{one_event_at_most};

use deadlines::{due_in_s2, due_in_s3, due_in_s4, due_in_s5, due_in_s6, due_in_s7, due_in_s8};
use effects::{
    Effect, commits_both, commits_chord, commits_mark, commits_pair, commits_plain, commits_two,
};
use pairs::Lent;
use rules::{Key, Kind, Resting, Settings, Stamp};
use states::by_kind::{in_s1, in_s2, in_s3, in_s4, in_s5, in_s6, in_s7, in_s8};

// What is late was done, and the event acts in S1, which commits nothing.
fn then_in_s1(late: Effect, now: Stamp, kind: Kind, n: Key) -> Effect
    ensures { done result ≡ ((done late).items leaving (in_S1 now (meant kind n)).resting) }
{
    Effect {
        resting: in_s1(now, kind, n).resting,
        ..late
    }
}

pub fn event_in(
    given: Lent<'_>,
    s: Settings,
    now: Stamp,
    resting: Resting,
    kind: Kind,
    n: Key,
) -> Effect
    ensures { done result ≡ one_event_at_most (lent_by given.entry) s now resting (meant kind n) }
{
    match resting {
        Resting::S1 => in_s1(now, kind, n),
        Resting::S2(key, m) if due_in_s2(given, s, now, key, m) => {
            then_in_s1(commits_plain(key, Resting::S1), now, kind, n)
        }
        Resting::S2(key, m) => in_s2(given, now, key, m, kind, n),
        Resting::S3(thumb, o) if due_in_s3(s, now, o) => {
            then_in_s1(commits_mark(s, thumb, Resting::S1), now, kind, n)
        }
        Resting::S3(thumb, o) => in_s3(s, now, thumb, o, kind, n),
        Resting::S4(key, m, thumb, o) if due_in_s4(s, now, m, o) => {
            then_in_s1(commits_chord(key, thumb, Resting::S1), now, kind, n)
        }
        Resting::S4(key, m, thumb, o) => in_s4(s, now, key, m, thumb, o, kind, n),
        Resting::S5(thumb, o, key, m) if due_in_s5(s, now, o, m) => {
            then_in_s1(commits_chord(key, thumb, Resting::S1), now, kind, n)
        }
        Resting::S5(thumb, o, key, m) => in_s5(s, now, thumb, o, key, m, kind, n),
        Resting::S6(thumb, _, key, m, r) if due_in_s6(now, m, r) => {
            then_in_s1(commits_both(s, thumb, key), now, kind, n)
        }
        Resting::S6(thumb, o, key, m, r) => in_s6(s, now, thumb, o, key, m, r, kind, n),
        Resting::S7(key, _, second, k) if due_in_s7(given.times, now, k) => {
            then_in_s1(commits_pair(given, key, second, Resting::S1), now, kind, n)
        }
        Resting::S7(key, m, second, k) => in_s7(given, now, key, m, second, k, kind, n),
        Resting::S8(key, _, second, k, r) if due_in_s8(given.times, now, k, r) => {
            then_in_s1(commits_two(key, second, Resting::S1), now, kind, n)
        }
        Resting::S8(key, m, second, k, r) => in_s8(given, s, now, key, m, second, k, r, kind, n),
    }
}
