// What is made of a log's events: the table, the reason of one character, the picture or the margins.
use crate::histogram::Histogram;
use crate::messages;
use crate::parts::say;
use crate::sentence::Sentence;
use crate::steps::{Step, in_order, is_released};
use crate::trials::Trials;
use keylog::LogAnswer;
use pairs::Lent;
use rules::{Event, Refusal};
use std::io::{Stderr, Stdout};

pub trait Report {
    // Before the first event.
    fn begin(&self, _out: Stdout) {}

    // An accepted event; `shown` says whether it is in the range that is asked for.
    fn accepted(&mut self, out: Stdout, lent: Lent<'_>, step: &Step, shown: bool);

    fn refused(&mut self, _out: Stdout, _event: Event, _refusal: Refusal) {}

    // Behind the last event, with what the reader says of the whole log.
    fn end(&self, out: Stdout, err: Stderr, answer: LogAnswer);
}

// The reason of one committed character.
#[derive(Clone, Copy)]
pub struct Reason {
    // its number, the first one having number 1
    number: u64,
    committed: u64,
    // the event that led to the state that rests
    led: Option<Step>,
}

impl Reason {
    pub fn of(number: u64) -> Reason {
        Reason {
            number,
            committed: 0,
            led: None,
        }
    }

    fn print(&self, out: Stdout, lent: Lent<'_>, step: &Step) {
        // Where the first of two was let go before, that decided too.
        if let Some(led) = self.led
            && is_released(step.machine.resting)
        {
            let sentence = Sentence::new(lent, led);
            say(out, format_args!("at {}: {sentence}\n", led.event.stamp.0));
        }
        let (number, stamp) = (self.number, step.event.stamp.0);
        let sentence = Sentence::new(lent, *step);
        say(
            out,
            format_args!("character {number}, at {stamp}: {sentence}\n"),
        );
    }
}

impl Report for Reason {
    fn accepted(&mut self, out: Stdout, lent: Lent<'_>, step: &Step, _shown: bool) {
        let before = self.committed;
        self.committed = before.saturating_add(
            in_order(step.items).iter().flatten().count() as u64,
        );
        if before < self.number && self.number <= self.committed {
            self.print(out, lent, step);
        }
        if !step.stays() {
            self.led = Some(*step);
        }
    }

    fn end(&self, _out: Stdout, err: Stderr, _answer: LogAnswer) {
        if self.committed < self.number {
            messages::print_not_there(err, self.committed);
        }
    }
}

// How close the decisions were.
#[derive(Clone, Copy)]
pub struct Margins {
    histogram: Histogram,
    // begun by the first event
    trials: Option<Trials>,
}

impl Margins {
    pub fn none() -> Margins {
        Margins {
            histogram: Histogram::empty(),
            trials: None,
        }
    }
}

impl Report for Margins {
    fn accepted(&mut self, _out: Stdout, lent: Lent<'_>, step: &Step, shown: bool) {
        if shown {
            self.histogram.count(step.closeness(lent));
        }
        let settings = step.machine.settings;
        let trials = self.trials.get_or_insert_with(|| Trials::new(settings));
        trials.take(lent, step.event, step.items, shown);
    }

    fn end(&self, out: Stdout, _err: Stderr, _answer: LogAnswer) {
        say(
            out,
            "decisions, by how much sooner or later would have decided otherwise:\n",
        );
        say(out, self.histogram);
        say(
            out,
            "presses that another setting would have committed otherwise:\n",
        );
        if let Some(trials) = self.trials {
            say(out, trials);
        }
    }
}
