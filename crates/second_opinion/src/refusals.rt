// Whether an event is accepted behind the events before it.
ghost use Rattle.std.specs.Prelude.{◌≡◌};
ghost use Rattle.rules.specs.Numbers.{keys};
ghost use Rattle.opinions.specs.Earlier as opinions;
ghost use Rattle.second_opinion.specs.Views.{number_in, latest_first};

use crate::places::{Events, is};
use rules::{Event, Key, Kind, Machine, Refusal, Stamp};
use waits::is_key;

// Whether an event's kind has its key: letters have one of 31, thumbs 0 and 1, the function key and ticks 0.
#[tactic(auto, using(crate::proofs::OfNoKind::not_allowed))]
fn is_allowed(e: Event) -> bool
    ensures { result ≡ opinions.allowed e }
{
    match Kind::try_from(e.kind) {
        Ok(Kind::CharacterDown | Kind::CharacterUp) => is_key(e.key),
        Ok(Kind::ThumbDown | Kind::ThumbUp) => e.key < Key(2),
        Ok(Kind::FunctionDown | Kind::Tick) => e.key < Key(1),
        Err(_) => false,
    }
}

impl Events<'_> {
    // The last accepted stamp, 0 where none was.
    #[tactic(auto, using(crate::proofs::Back::no_stamp, crate::proofs::Back::stamp_by))]
    fn last_stamp(self) -> Stamp
        ensures { result.0 ≡ opinions.last_stamp (latest_first self.entry) }
    {
        if self.n == 0 {
            return Stamp(0);
        }
        self.event_at(self.n - 1).stamp
    }

    // How many keys are held after them.
    #[tactic(auto, using(crate::proofs::Back::no_key, crate::proofs::Back::one_key_more))]
    fn how_many_held(self) -> u32
        ensures { result ≡ opinions.held_below keys (latest_first self.entry) }
    {
        let mut n = 0;
        for key in 0..Machine::KEYS.0 {
            n += self.is_held(Key(key)) as u32;
        }
        n
    }

    // Whether an event is a press of a new key while 6 are held.
    fn is_too_many(self, e: Event) -> bool
        ensures { result ≡ opinions.too_many (latest_first self.entry) e }
    {
        is(Kind::CharacterDown, e)
            && !self.is_held(e.key)
            && self.how_many_held() == Machine::MOST_HELD
    }

    // Whether an event is accepted behind them.
    #[tactic(auto, unfolding(opinions::specs::Earlier::number_after))]
    pub fn accept(self, e: Event) -> Result<(), Refusal>
        ensures { number_in result ≡ opinions.number_after (latest_first self.entry) e }
    {
        if !is_allowed(e) {
            return Err(Refusal::KeyNotAllowed);
        }
        if Machine::LARGEST < e.stamp {
            return Err(Refusal::AboveLargest);
        }
        if e.stamp < self.last_stamp() {
            return Err(Refusal::BeforeLast);
        }
        if self.is_too_many(e) {
            return Err(Refusal::TooManyHeld);
        }
        Ok(())
    }
}
