// Runs the keystrokes of document 01 that are not among the proved ones, some with two letters as a chord (9/12) and some at a row of
// keyboards (10/12), and prints what the engine answers: the number, the items that are committed, what is sent, and (but for the row)
// how far the next deadline lies from the event's stamp. A backspace is written `<-`, a mark `<L>` or `<R>`, an empty face `-`.
#![tactic(auto)]

mod parts;
mod printed;

use pairs::{Lent, Times};
use parts::Cut::{Bytes, Words};
use parts::say;
use printed::{Given, say_asked, say_given};
use rules::{Event, Key, Machine, Resting, Settings, Stamp};
use std::io::Stdout;

// A line of a table: what is done at the machine that the lines before it have left.
#[derive(Clone, Copy)]
enum Row {
    // A machine is opened with T, J, L and solo.
    Open(u16, u8, u8, u8),
    // An event's kind, key and stamp.
    Step(u8, u8, u64),
    // The same tried, and the machine stays as it was.
    Try(u8, u8, u64),
    // The machine is asked at a stamp for its deadline.
    Ask(u64),
}

use Row::{Ask, Open, Step, Try};

// The kinds of events. (A table also tries numbers that are no kind's.)
const DOWN: u8 = 1;

const UP: u8 = 2;

const THUMB_DOWN: u8 = 3;

const FUNCTION: u8 = 5;

const TICK: u8 = 6;

const fn event(kind: u8, key: u8, stamp: u64) -> Event {
    Event {
        kind,
        key: Key(key),
        stamp: Stamp(stamp),
    }
}

// How far a machine's deadline lies from a stamp, on a line.
fn ask(stdout: Stdout, given: Lent<'_>, machine: Machine, stamp: Stamp) {
    say(stdout, Bytes, format_args!("  asked @{}", stamp.0));
    say(stdout, Words, ": ");
    say_asked(stdout, engine::distance(given, machine, stamp));
}

// One event, with what it gave back on a line; the machine after it.
fn step(stdout: Stdout, given: Lent<'_>, machine: Machine, event: Event) -> Machine {
    let answer = engine::step(given, machine, event);
    let after = answer.map_or(machine, |done| done.machine);
    let told = Given {
        event,
        answer: answer.map(|done| (done.items, done.sendings)),
    };
    say(stdout, Words, " ");
    say_given(stdout, told);
    say(stdout, Words, ", next ");
    say_asked(stdout, engine::distance(given, after, event.stamp));
    after
}

// A machine that is not there stands in as one that refuses everything.
fn stand_in(settings: Settings) -> Machine {
    Machine {
        settings,
        resting: Resting::S1,
        last: Stamp(0),
        held: 0,
    }
}

fn open(stdout: Stdout, settings: Settings) -> Machine {
    let Settings { t, j, l, solo } = settings;
    say(
        stdout,
        Bytes,
        format_args!("T {t}, J {j}, L {l}, solo {solo}"),
    );
    match Machine::open(settings) {
        Ok(machine) => {
            let longest = engine::longest_wait(settings).0;
            say(
                stdout,
                Bytes,
                format_args!(": opened, longest wait {longest}\n"),
            );
            machine
        }
        Err(refusal) => {
            let _ = println!(stdout; ": refused {}", refusal.number());
            stand_in(settings)
        }
    }
}

fn play(stdout: Stdout, given: Lent<'_>, first: Machine, table: &[Row]) -> Machine {
    let mut machine = first;
    for row in table {
        match *row {
            Open(t, j, l, solo) => machine = open(stdout, Settings { t, j, l, solo }),
            Step(kind, key, stamp) => {
                machine = step(stdout, given, machine, event(kind, key, stamp))
            }
            Try(kind, key, stamp) => {
                step(stdout, given, machine, event(kind, key, stamp));
            }
            Ask(stamp) => ask(stdout, given, machine, Stamp(stamp)),
        }
    }
    machine
}

// T_s and N where no pairs are lent: they stand for nothing.
const NO_TIMES: Times = Times { ts: 50, n: 1 };

// The character that two letters give, as it is lent: key, key, character.
const PAIR: u32 = 0x15_16_30E3;

// With a list of no pairs.
const NO_PAIRS: [Row; 73] = [
    // The bounds of the settings.
    Open(49, 50, 50, 0),
    Open(50, 50, 50, 0),
    Open(1000, 50, 50, 0),
    Open(1001, 50, 50, 0),
    Open(100, 0, 50, 0),
    Open(100, 1, 50, 0),
    Open(100, 99, 50, 0),
    Open(100, 100, 50, 0),
    Open(100, 50, 0, 0),
    Open(100, 50, 1, 0),
    Open(100, 50, 99, 0),
    Open(100, 50, 100, 0),
    Open(100, 50, 50, 1),
    Open(100, 50, 50, 2),
    Open(200, 99, 99, 1),
    // Keys and stamps that pass and that are refused; an event that is refused changes nothing.
    Open(100, 50, 50, 0),
    Step(DOWN, 30, 0),
    Step(DOWN, 31, 0),
    Step(DOWN, 21, 1_000_000_000_000),
    Step(TICK, 0, 1_000_000_000_001),
    Step(TICK, 0, 1_000_000_000_000),
    Step(TICK, 0, 999_999_999_999),
    Step(DOWN, 31, 999_999_999_999),
    Step(0, 0, 1_000_000_000_000),
    Step(7, 0, 1_000_000_000_000),
    Step(THUMB_DOWN, 2, 1_000_000_000_000),
    Step(TICK, 1, 1_000_000_000_000),
    Open(49, 50, 50, 0),
    Step(DOWN, 21, 0),
    // 21@0, R@100, tick 200: the deadline at 100 comes before the thumb.
    Open(100, 50, 50, 0),
    Step(DOWN, 21, 0),
    Step(THUMB_DOWN, 1, 100),
    Step(TICK, 0, 200),
    // T=1000: the short-overlap time decides a plain chord. Up at 899 gives か, up at 900 が.
    Open(1000, 50, 50, 0),
    Step(DOWN, 21, 0),
    Step(THUMB_DOWN, 1, 500),
    Try(UP, 21, 899),
    Try(UP, 21, 900),
    // 21@0, and how far its deadline lies: at its stamp, before it, and late.
    Open(100, 50, 50, 0),
    Ask(0),
    Step(DOWN, 21, 0),
    Ask(40),
    Ask(100),
    Ask(130),
    Ask(1_000_000_000_000),
    Ask(1_000_000_000_001),
    Step(TICK, 0, 50),
    Ask(49),
    Open(49, 50, 50, 0),
    Ask(1_000_000_000_001),
    // A repeat of a held key at 99 does nothing, at 100 what is late; the function key leaves 21 held; after its up it is pressed anew.
    Open(100, 50, 50, 0),
    Step(UP, 24, 0),
    Step(DOWN, 21, 0),
    Step(DOWN, 21, 99),
    Step(DOWN, 21, 100),
    Step(FUNCTION, 0, 110),
    Step(DOWN, 21, 120),
    Step(UP, 21, 130),
    Step(DOWN, 21, 140),
    // Six keys held: a seventh is refused 11, after 3, 4 and 5, and a repeat is not.
    Open(100, 50, 50, 0),
    Step(DOWN, 0, 0),
    Step(DOWN, 1, 0),
    Step(DOWN, 2, 0),
    Step(DOWN, 3, 0),
    Step(DOWN, 4, 0),
    Step(DOWN, 30, 0),
    Step(DOWN, 21, 0),
    Step(DOWN, 31, 0),
    Step(DOWN, 21, 1_000_000_000_001),
    Step(DOWN, 30, 10),
    Step(DOWN, 21, 9),
    Step(UP, 0, 20),
    Step(DOWN, 21, 30),
];

fn no_pairs(stdout: Stdout, machine: Machine) -> Machine {
    let given = Lent {
        list: &[],
        times: NO_TIMES,
    };
    play(stdout, given, machine, &NO_PAIRS)
}

// T_s 60, N 50: the keys 21 and 22 are lent as a pair, ャ. Both plain letters are shown. Due at 100 they are the pair.
const BOTH_DOWN: [Row; 5] = [
    Open(100, 50, 60, 0),
    Step(DOWN, 21, 0),
    Step(DOWN, 22, 40),
    Ask(100),
    Try(TICK, 0, 100),
];

// With 21 up at 60, 22 up at 73 leaves them the pair, at 74 parts them (L 60), and so does the deadline at 80.
const ONE_UP: [Row; 4] = [
    Step(UP, 21, 60),
    Try(UP, 22, 73),
    Try(UP, 22, 74),
    Try(TICK, 0, 80),
];

// A third letter that is as near as the two are to each other parts them.
const THIRD_LETTER: [Row; 2] = [Try(DOWN, 23, 80), Try(DOWN, 23, 81)];

fn two_letters(stdout: Stdout, machine: Machine) {
    let given = Lent {
        list: &[PAIR],
        times: Times { ts: 60, n: 50 },
    };
    let both = play(stdout, given, machine, &BOTH_DOWN);
    play(stdout, given, both, &ONE_UP);
    play(stdout, given, both, &THIRD_LETTER);
}

// What is not accepted is refused 12 before anything else: a list, T_s or N; and then a list that the waiting letters are no pair of.
fn lent_refused(stdout: Stdout, machine: Machine) {
    let times = Times { ts: 60, n: 50 };
    let first = event(DOWN, 21, 0);
    let twice = [PAIR, 0x16_15_3042];
    step(
        stdout,
        Lent {
            list: &twice,
            times,
        },
        machine,
        first,
    );
    let itself = [0x15_15_3042];
    step(
        stdout,
        Lent {
            list: &itself,
            times,
        },
        machine,
        event(7, 21, 0),
    );
    let surrogate = [0x15_16_D800];
    ask(
        stdout,
        Lent {
            list: &surrogate,
            times,
        },
        machine,
        Stamp(0),
    );
    let list = &[PAIR];
    for times in [Times { ts: 49, n: 50 }, Times { ts: 60, n: 100 }] {
        step(stdout, Lent { list, times }, machine, first);
    }
    let given = Lent { list, times };
    let one = step(stdout, given, machine, first);
    let both = step(stdout, given, one, event(DOWN, 22, 40));
    let none = Lent {
        list: &[],
        times: NO_TIMES,
    };
    step(stdout, none, both, event(TICK, 0, 50));
}

// A row of sixteen (10/12): typed at two keyboards, the clock of one far behind the other's, and at the last one; there is no keyboard 16,
// and 13 comes before 3. The keyboard, then the event's kind, key and stamp.
const AT_KEYBOARDS: [(usize, u8, u8, u64); 9] = [
    (0, DOWN, 21, 1000),
    (1, DOWN, 24, 5),
    (16, DOWN, 21, 1000),
    (16, DOWN, 31, 1000),
    (1, DOWN, 21, 4),
    (15, DOWN, 21, 0),
    (0, THUMB_DOWN, 1, 1030),
    (0, UP, 21, 1060),
    (1, TICK, 0, 105),
];

fn play_at(stdout: Stdout, machine: Machine) {
    let given = Lent {
        list: &[],
        times: NO_TIMES,
    };
    let mut row = [machine; 16];
    for (board, kind, key, stamp) in AT_KEYBOARDS {
        let event = event(kind, key, stamp);
        let among = row_by_value::step_among(row, given, board, event);
        row = among.row;
        let told = Given {
            event,
            answer: among.told.map(|told| (told.items, told.sendings)),
        };
        say(stdout, Bytes, format_args!("  keyboard {board},"));
        say_given(stdout, told);
        say(stdout, Words, "\n");
    }
}

fn run(stdout: Stdout) {
    say(
        stdout,
        Words,
        "Kinds: 1 character down, 2 up, 3 thumb down, 4 up, 5 function, 6 tick. Thumbs: 0 left, 1 right.\n",
    );
    let settings = Settings {
        t: 100,
        j: 50,
        l: 50,
        solo: 0,
    };
    let machine = no_pairs(stdout, stand_in(settings));
    two_letters(stdout, machine);
    lent_refused(stdout, open(stdout, settings));
    play_at(stdout, open(stdout, settings));
}

fn main(rt: HostRuntime) {
    run(rt.stdout());
}
