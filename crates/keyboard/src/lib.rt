// A keyboard that the console's C host drives itself. Its machine goes in and comes out as numbers, and nothing is kept here.
#![tactic(auto)]

ghost use Rattle.std.specs.Prelude.{◌≡◌};
ghost use Rattle.rules.specs.States.{opening};
ghost use Rattle.rules.specs.Refusal.{number_of};
ghost use Rattle.rules.specs.Items.{listed};
ghost use Rattle.pairs.specs.Lent.{lent_by};
ghost use Rattle.deadlines.specs.Views.{asked};
ghost use Rattle.rules.specs.Numbers.{settings_of};
ghost use Rattle.machine_numbers.specs.Fields.{in_numbers};
ghost use Rattle.keyboard.specs.Keyboard.{event_of, open_numbers, words_of, answer_numbers, refused_numbers, step_numbers};
ghost use Rattle.keyboard.specs.Keyboard.{lent_of, no_machine_number};
ghost use Rattle.keyboard.specs.Keyboard.{asked_numbers, distance_numbers};

use engine::{Items, Stepped};
use machine_numbers::MachineNumbers;
use pairs::{Lent, Times, lent_good};
use rules::{Event, Key, Machine, Refusal, Settings, Stamp};

// A fresh machine, or refusal 1 and numbers that name no machine.
#[repr(C)]
#[derive(Clone, Copy)]
pub struct OpenAnswer {
    pub machine: MachineNumbers,
    pub number: u64,
}

// The machine after an event, the number, how many items are committed, their words, and what is sent: so many backspaces, 0 to 2, then
// signs, packed to the front, 0 behind the last.
#[repr(C)]
#[derive(Clone, Copy)]
pub struct StepAnswer {
    pub machine: MachineNumbers,
    pub number: u32,
    pub items: u32,
    pub first: u16,
    pub second: u16,
    pub backspaces: u16,
    pub sent_first: u16,
    pub sent_second: u16,
    pub sent_third: u16,
}

// The number, whether there is a deadline (1) or not (0), and the milliseconds to it, 0 if there is none.
#[repr(C)]
#[derive(Clone, Copy)]
pub struct DistanceAnswer {
    pub number: u32,
    pub deadline: u32,
    pub milliseconds: i64,
}

// The items that a step commits, as words.
#[derive(Clone, Copy)]
struct Commits {
    items: u32,
    first: u16,
    second: u16,
}

impl From<Items> for Commits {
    ghost from_gives = { λ items words. words ≡ words_of (listed items) };

    fn from(items: Items) -> Commits {
        match items {
            Items::None => Commits {
                items: 0,
                first: 0,
                second: 0,
            },
            Items::One(item) => Commits {
                items: 1,
                first: layout::word(item),
                second: 0,
            },
            Items::Two(item, other) => Commits {
                items: 2,
                first: layout::word(item),
                second: layout::word(other),
            },
        }
    }
}

// The answer to an event that is accepted.
impl From<Stepped> for StepAnswer {
    ghost from_gives = { λ done r. r ≡ answer_numbers (in_numbers done.machine) 0 (words_of (listed done.items)) done.sendings };

    fn from(done: Stepped) -> StepAnswer {
        let words = Commits::from(done.items);
        let sent = done.sendings;
        StepAnswer {
            machine: machine_numbers::in_numbers(done.machine),
            number: 0,
            items: words.items,
            first: words.first,
            second: words.second,
            backspaces: sent.backspaces as u16,
            sent_first: sent.signs.first,
            sent_second: sent.signs.second,
            sent_third: sent.signs.third,
        }
    }
}

// The refusal of numbers that name no machine: 2, but 12 comes first.
fn no_machine(given: Lent<'_>) -> Refusal
    ensures { number_of result ≡ no_machine_number (lent_by given.entry) }
{
    if lent_good(given) {
        Refusal::NotWellFormed
    } else {
        Refusal::ListNotGood
    }
}

// A refusal, with the numbers as given. A host in C knows it by its number.
fn refused(machine: MachineNumbers, refusal: Refusal) -> StepAnswer
    ensures { result ≡ refused_numbers machine (number_of refusal) }
{
    StepAnswer {
        machine,
        number: refusal.number() as u32,
        items: 0,
        first: 0,
        second: 0,
        backspaces: 0,
        sent_first: 0,
        sent_second: 0,
        sent_third: 0,
    }
}

// C has no Option and no Result: it gets a number, whether there is a deadline, and the milliseconds to it.
impl From<Result<Option<i64>, Refusal>> for DistanceAnswer {
    ghost from_gives = { λ answer r. r ≡ asked_numbers (asked answer) };

    fn from(answer: Result<Option<i64>, Refusal>) -> DistanceAnswer {
        let unless_told = DistanceAnswer {
            number: 0,
            deadline: 0,
            milliseconds: 0,
        };
        match answer {
            Ok(None) => unless_told,
            Ok(Some(milliseconds)) => DistanceAnswer {
                deadline: 1,
                milliseconds,
                ..unless_told
            },
            Err(refusal) => DistanceAnswer {
                number: refusal.number() as u32,
                ..unless_told
            },
        }
    }
}

// Opens a machine.
#[unsafe(no_mangle)]
pub extern "C" fn trabeculon_open(t: u16, j: u8, l: u8, solo: u8) -> OpenAnswer
    ensures { result ≡ open_numbers (opening (settings_of t j l solo)) }
{
    match Machine::open(Settings { t, j, l, solo }) {
        Ok(machine) => OpenAnswer {
            machine: machine_numbers::in_numbers(machine),
            number: 0,
        },
        Err(refusal) => OpenAnswer {
            machine: machine_numbers::no_machine(),
            number: refusal.number() as u64,
        },
    }
}

// One event at a machine, with a list of pairs, T_s and N lent.
#[unsafe(no_mangle)]
#[tactic(auto, using(crate::proofs::Numbered::accepted_numbers, crate::proofs::Numbered::refusal_numbers), unfolding(crate::specs::Keyboard::step_numbers))]
pub extern "C" fn trabeculon_step(
    machine: MachineNumbers,
    pairs: &[u32],
    ts: u16,
    n: u8,
    kind: u8,
    key: u8,
    stamp: Stamp,
) -> StepAnswer
    ensures { result ≡ step_numbers (lent_of pairs.now ts n) machine (event_of kind key stamp) }
{
    let given = Lent {
        list: pairs,
        times: Times { ts, n },
    };
    let event = Event {
        kind,
        key: Key(key),
        stamp,
    };
    let Some(before) = machine_numbers::machine_of(machine) else {
        return refused(machine, no_machine(given));
    };
    match engine::step(given, before, event) {
        Ok(done) => StepAnswer::from(done),
        Err(refusal) => refused(machine, refusal),
    }
}

// How far the next deadline of a machine lies from a stamp.
#[unsafe(no_mangle)]
#[tactic(auto, unfolding(crate::specs::Keyboard::distance_numbers))]
pub extern "C" fn trabeculon_distance(
    machine: MachineNumbers,
    pairs: &[u32],
    ts: u16,
    n: u8,
    stamp: Stamp,
) -> DistanceAnswer
    ensures { result ≡ distance_numbers (lent_of pairs.now ts n) machine stamp }
{
    let given = Lent {
        list: pairs,
        times: Times { ts, n },
    };
    let Some(asked) = machine_numbers::machine_of(machine) else {
        return DistanceAnswer::from(Err(no_machine(given)));
    };
    DistanceAnswer::from(engine::distance(given, asked, stamp))
}
