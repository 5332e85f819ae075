// A timeline as SVG: letters and thumbs as bars from press to release, deadlines as ticks, committed characters where they were committed,
// and below them the time that decided, with its margin.
ghost use Rattle.std.specs.Prelude.{◌≤◌};

use crate::messages;
use crate::parts::say;
use crate::report::Report;
use crate::steps::{Margin, Step, is_none, is_released, words};
use crate::words::Word;
use keylog::LogAnswer;
use margins::began;
use pairs::Lent;
use rules::{Face, Input, Key, Resting, Stamp, Thumb};
use std::fmt;
use std::fmt::Formatter;
use std::io::{Stderr, Stdout};

// So many events fit.
const MOST: usize = 256;

// Where the first stamp stands, and how far from it the last.
const LEFT: u64 = 84;

const WIDTH: u64 = 1056;

// The rows: letters by the keyboard's rows D, C and B, then the thumbs, the deadlines, what was committed, what decided, and its margin.
const ROW_D: u64 = 36;

const ROW_C: u64 = 62;

const ROW_B: u64 = 88;

const ROW_L: u64 = 118;

const ROW_R: u64 = 144;

const ROW_DUE: u64 = 174;

const ROW_LINE: u64 = 216;

const ROW_GAP: u64 = 236;

const ROW_MARGIN: u64 = 252;

// What is drawn of an accepted event.
#[derive(Clone, Copy)]
struct Drawn {
    stamp: Stamp,
    // a repeat as a tick, which is not drawn
    input: Input,
    words: [Option<u16>; 2],
    // the deadline behind it
    due: Option<Stamp>,
    // the time that decided, and how close the decision was, if that is drawn
    began: Stamp,
    until: Stamp,
    margin: Option<Margin>,
}

impl Drawn {
    fn new(lent: Lent<'_>, step: &Step) -> Drawn {
        let stamp = step.event.stamp;
        let numbers = step.numbers(lent);
        let margin = step.closeness(lent).margin();
        Drawn {
            stamp,
            input: match step.input() {
                Input::CharacterDown(_) if step.acts_as_tick() => Input::Tick,
                input => input,
            },
            words: words(step.items),
            due: step.deadline(lent),
            began: match step.machine.resting {
                Resting::S1 => stamp,
                // In S8 an event in time is measured from the second key on.
                Resting::S8(_, _, _, second, _) if !numbers.late => second,
                resting => began(resting),
            },
            // The deadline came before the event where that was late.
            until: match numbers.due {
                Some(deadline) if numbers.late => deadline,
                _ => stamp,
            },
            // What was committed, and a release that left it open.
            margin: if is_none(step.items) && !is_released(step.after.resting) {
                None
            } else {
                margin
            },
        }
    }

    fn is_released_by(&self, other: &Drawn) -> bool {
        match (self.input, other.input) {
            (Input::CharacterDown(key), Input::CharacterUp(own)) => key == own,
            (Input::ThumbDown(thumb), Input::ThumbUp(own)) => thumb == own,
            _ => false,
        }
    }
}

#[derive(Drop)]
pub struct Picture {
    events: [Option<Drawn>; MOST],
    // how many were to be drawn
    count: usize,
}

impl Picture {
    pub fn empty() -> Picture {
        Picture {
            events: [None; MOST],
            count: 0,
        }
    }

    // The time that is drawn: from the first stamp to the last.
    fn span(&self) -> Span {
        let mut stamps = self.events.iter().flatten().map(|event| event.stamp);
        let first = stamps.next().unwrap_or(Stamp(0));
        Span {
            first,
            last: stamps.last().unwrap_or(first),
        }
    }

    // The bar of a press, up to its release.
    fn press<W: fmt::Write>(
        &self,
        f: &mut Formatter<W>,
        span: Span,
        i: usize,
        event: &Drawn,
    ) -> fmt::Result {
        let mut behind = self.events.iter().flatten().skip(i);
        let end = behind
            .find(|other| event.is_released_by(other))
            .map_or(span.last, |other| other.stamp);
        let x = span.across(event.stamp);
        let right = span.across(end);
        match event.input {
            Input::CharacterDown(key) => letter(f, key, x, right),
            Input::ThumbDown(Thumb::Left) => bar(f, "thumb", x, ROW_L, right),
            Input::ThumbDown(Thumb::Right) => bar(f, "thumb", x, ROW_R, right),
            Input::FunctionDown => text(f, "name", x, ROW_DUE, "fn"),
            _ => Ok(()),
        }
    }
}

impl Report for Picture {
    fn accepted(&mut self, _out: Stdout, lent: Lent<'_>, step: &Step, shown: bool) {
        if shown {
            if let Some(place) = self.events.get_mut(self.count) {
                *place = Some(Drawn::new(lent, step));
            }
            self.count = self.count.saturating_add(1);
        }
    }

    fn end(&self, out: Stdout, err: Stderr, _answer: LogAnswer) {
        if self.count > MOST {
            messages::print_too_many(err, self.count as u64);
            return;
        }
        say(out, self);
    }
}

impl fmt::Display for Picture {
    fn fmt<W: fmt::Write>(&self, f: &mut Formatter<W>) -> fmt::Result {
        let span = self.span();
        f.write_str(HEAD)?;
        time(f, "small", LEFT, 18, span.first.0)?;
        time(f, "small end", LEFT + WIDTH, 18, span.last.0)?;
        for (i, event) in self.events.iter().flatten().enumerate() {
            self.press(f, span, i, event)?;
            deadline(f, span, event)?;
            decision(f, span, event)?;
        }
        f.write_str("</svg>\n")
    }
}

#[derive(Clone, Copy)]
struct Span {
    first: Stamp,
    last: Stamp,
}

impl Span {
    // Where a stamp stands.
    fn across(&self, stamp: Stamp) -> u64
        ensures { result ≤ 1140 }
    {
        if stamp <= self.first {
            return LEFT;
        }
        if self.last <= stamp {
            return LEFT + WIDTH;
        }
        let part = waits::lag(self.first, stamp).0;
        let whole = waits::lag(self.first, self.last).0;
        LEFT + (part.saturating_mul(WIDTH) / whole).min(WIDTH)
    }
}

// The front of an element.
fn open<W: fmt::Write>(f: &mut Formatter<W>, element: &str, class: &str) -> fmt::Result {
    write!(f, "{element} class=\"{class}\"")
}

fn at<W: fmt::Write>(f: &mut Formatter<W>, name: &str, n: u64) -> fmt::Result {
    write!(f, "{name}=\"{n}\"")
}

// A bar from x to its right end.
fn bar<W: fmt::Write>(
    f: &mut Formatter<W>,
    class: &str,
    x: u64,
    y: u64,
    right: u64,
) -> fmt::Result {
    let width = right.saturating_sub(x).max(1);
    open(f, "<rect", class)?;
    at(f, " x", x)?;
    at(f, " y", y)?;
    at(f, " width", width)?;
    f.write_str(" height=\"18\"/>\n")
}

fn line<W: fmt::Write>(
    f: &mut Formatter<W>,
    class: &str,
    x: u64,
    y: u64,
    right: u64,
    bottom: u64,
) -> fmt::Result {
    open(f, "<line", class)?;
    at(f, " x1", x)?;
    at(f, " y1", y)?;
    at(f, " x2", right)?;
    at(f, " y2", bottom)?;
    f.write_str("/>\n")
}

// The front of a text.
fn open_text<W: fmt::Write>(f: &mut Formatter<W>, class: &str, x: u64, y: u64) -> fmt::Result {
    open(f, "<text", class)?;
    at(f, " x", x)?;
    at(f, " y", y)?;
    f.write_str(">")
}

fn text<W: fmt::Write, T: fmt::Display + Drop>(
    f: &mut Formatter<W>,
    class: &str,
    x: u64,
    y: u64,
    text: T,
) -> fmt::Result {
    open_text(f, class, x, y)?;
    write!(f, "{text}</text>\n")
}

// A key's bar in its row, with its number and its plain face.
fn letter<W: fmt::Write>(f: &mut Formatter<W>, key: Key, x: u64, right: u64) -> fmt::Result
    requires { x ≤ 1140 }
{
    let y = match key.0 {
        0..10 => ROW_B,
        10..20 => ROW_C,
        _ => ROW_D,
    };
    bar(f, "letter", x, y, right)?;
    let face = Escaped(layout::code_point(key, Face::Plain));
    text(f, "name", x + 2, y + 14, format_args!("{} {face}", key.0))
}

fn time<W: fmt::Write>(f: &mut Formatter<W>, class: &str, x: u64, y: u64, ms: u64) -> fmt::Result {
    open_text(f, class, x, y)?;
    write!(f, "{ms} ms</text>\n")
}

// A tick where a deadline was set, if it lies in the picture.
fn deadline<W: fmt::Write>(f: &mut Formatter<W>, span: Span, event: &Drawn) -> fmt::Result {
    match event.due {
        Some(due) if due <= span.last => {
            let x = span.across(due);
            line(f, "due", x, ROW_DUE - 10, x, ROW_DUE + 4)
        }
        _ => Ok(()),
    }
}

// What an event committed, the time that decided, and how many milliseconds would have turned the decision.
fn decision<W: fmt::Write>(f: &mut Formatter<W>, span: Span, event: &Drawn) -> fmt::Result {
    let x = span.across(event.stamp);
    if let [Some(word), other] = event.words {
        open_text(f, "line", x, ROW_LINE)?;
        write!(f, "{}", Escaped(word))?;
        if let Some(other) = other {
            write!(f, "{}", Escaped(other))?;
        }
        f.write_str("</text>\n")?;
    }
    let Some(margin) = event.margin else {
        return Ok(());
    };
    text(f, "margin", x, ROW_MARGIN + 12, margin.shift)?;
    if event.began < event.until {
        let right = span.across(event.until);
        line(
            f,
            "gap",
            span.across(event.began),
            ROW_GAP - 12,
            right,
            ROW_GAP - 12,
        )?;
        let gap = waits::lag(event.began, event.until).0;
        time(f, "small middle", right, ROW_GAP + 4, gap)?;
    }
    Ok(())
}

// A word in XML, in which some characters are written by name, and two can't stand at all.
#[derive(Clone, Copy)]
struct Escaped(u16);

impl fmt::Display for Escaped {
    fn fmt<W: fmt::Write>(&self, f: &mut Formatter<W>) -> fmt::Result {
        match self.0 {
            1 => f.write_str("&lt;L&gt;"),
            2 => f.write_str("&lt;R&gt;"),
            0x26 => f.write_str("&amp;"),
            0x3C => f.write_str("&lt;"),
            0x3E => f.write_str("&gt;"),
            0xFFFE | 0xFFFF => f.write_str("?"),
            word => write!(f, "{}", Word(word)),
        }
    }
}

// What every picture has: how it looks, and the names of its rows.
const HEAD: &str =
    "<svg xmlns=\"http://www.w3.org/2000/svg\" viewBox=\"0 0 1200 280\" width=\"1200\" height=\"280\">
<style>
text{font-family:sans-serif;font-size:13px}.line{font-size:20px;text-anchor:middle}.end{text-anchor:end}
.small{font-size:12px;fill:#555}.middle{text-anchor:middle}.margin{font-size:12px;fill:#b00;text-anchor:middle}
.gap{stroke:#b00;stroke-width:3}.due{stroke:#333;stroke-width:2}.axis{stroke:#999}
.letter{fill:#8ab4e8;fill-opacity:.6;stroke:#357}.thumb{fill:#f0b37e;fill-opacity:.6;stroke:#753}
</style>
<rect width=\"1200\" height=\"280\" fill=\"#fff\"/>
<line class=\"axis\" x1=\"84\" y1=\"26\" x2=\"1140\" y2=\"26\"/>
<text class=\"small\" x=\"4\" y=\"49\">row D</text>
<text class=\"small\" x=\"4\" y=\"75\">row C</text>
<text class=\"small\" x=\"4\" y=\"101\">row B</text>
<text class=\"small\" x=\"4\" y=\"131\">left thumb</text>
<text class=\"small\" x=\"4\" y=\"157\">right thumb</text>
<text class=\"small\" x=\"4\" y=\"176\">deadlines</text>
<text class=\"small\" x=\"4\" y=\"212\">committed</text>
<text class=\"small\" x=\"4\" y=\"236\">decided by</text>
<text class=\"small\" x=\"4\" y=\"264\">margin</text>
";
