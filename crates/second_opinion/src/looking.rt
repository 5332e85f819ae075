// Looking forward from a place for the first event that decides.
ghost use Rattle.std.specs.Prelude.{◌||◌, ◌≡◌};
ghost use Rattle.opinions.specs.Opinion as opinions;
ghost use Rattle.second_opinion.specs.Views.{maybe, pressed, from, seen_list, StandsThere};

use crate::places::{Events, Heard};
use rules::{Kind, Stamp};

// What one waits with: a letter, a thumb that is set, and a deadline.
#[derive(Clone, Copy)]
pub struct Waiting {
    pub letter: Option<Heard>,
    pub thumb: Option<Heard>,
    pub due: Option<Stamp>,
}

// Whether an event is at or past a deadline.
pub fn is_late(due: Option<Stamp>, e: Heard) -> bool
    ensures { result ≡ opinions.late (maybe due) e.event }
{
    due.is_some_and(|due| due <= e.event.stamp)
}

// Whether an event has the key of an earlier press.
fn is_of(press: Option<Heard>, e: Heard) -> bool
    ensures { result ≡ opinions.of (pressed press) e.event }
{
    press.is_some_and(|press| e.event.key == press.event.key)
}

impl Waiting {
    // Whether an event matters to the letter and to the thumb.
    #[tactic(auto, using(crate::proofs::OfNoKind::matters_not), unfolding(opinions::specs::Opinion::matters))]
    fn matters(self, e: Heard) -> bool
        ensures { result ≡ opinions.matters (pressed self.letter) (pressed self.thumb) e.event }
    {
        match Kind::try_from(e.event.kind) {
            Ok(Kind::CharacterDown | Kind::FunctionDown) => true,
            Ok(Kind::CharacterUp) => is_of(self.letter, e),
            Ok(Kind::ThumbDown) => !is_of(self.thumb, e),
            Ok(Kind::ThumbUp) => is_of(self.thumb, e),
            Ok(Kind::Tick) | Err(_) => false,
        }
    }

    // Whether an event ends the waiting.
    fn decides(self, e: Heard) -> bool
        ensures { result ≡ (opinions.late (maybe self.due) e.event || opinions.matters (pressed self.letter) (pressed self.thumb) e.event) }
    {
        is_late(self.due, e) || self.matters(e)
    }
}

impl Events<'_> {
    // The first event that decides, from a place on, and its own place.
    pub fn ahead(self, at: usize, waiting: Waiting) -> Option<(usize, Heard)>
        ensures seen { seen_list (from self.entry) result
            ≡ opinions.ahead (pressed waiting.letter) (pressed waiting.thumb) (maybe waiting.due) (from self.entry at) }
        ensures there { StandsThere self.entry result }
    {
        for i in at..self.n {
            let e = self.heard_at(i);
            if waiting.decides(e) {
                return Some((i, e));
            }
        }
        None
    }
}
