// What the program's arguments ask for.
use input::Usage;
use rules::Stamp;
use std::env::FillError;
use std::io::IsTerminal;
use std::ops::RangeBounds;
use std::rt::Env;

#[derive(Clone, Copy)]
pub enum Mode {
    Table,
    // The reason of one committed character alone, the first one having number 1.
    Why(u64),
    Picture,
    Margins,
}

#[derive(Clone, Copy)]
pub struct Options {
    pub mode: Mode,
    // Which events are shown: by their number, the first one having number 1, and by their stamp.
    pub first: u64,
    pub last: u64,
    pub from: Stamp,
    pub to: Stamp,
    // whether standard error is told how much was read
    pub progress: bool,
    // The argument that names the log; without one it is standard input.
    pub file: Option<usize>,
}

impl Options {
    // Without arguments. A terminal is told how much was read.
    fn usual(rt: HostRuntime) -> Options {
        Options {
            mode: Mode::Table,
            first: 1,
            last: END,
            from: Stamp(0),
            to: Stamp(END),
            progress: rt.stderr().is_terminal(),
            file: None,
        }
    }

    // Whether an event is in the range.
    pub fn shows(&self, number: u64, stamp: Stamp) -> bool {
        (self.first..=self.last).contains(&number) && (self.from..=self.to).contains(&stamp)
    }
}

// No event has a number or a stamp as large.
const END: u64 = 1_000_000_000_000_000;

// No number that is asked for is larger: it has 16 digits, apart from zeros in front.
const LARGEST: u64 = 9_999_999_999_999_999;

// The arguments, one after the other.
#[derive(Drop)]
struct Arguments {
    rt: HostRuntime,
    // the number of the one that was read last
    at: usize,
    buffer: [u8; 4096],
}

impl Arguments {
    // The program's own name is read.
    fn new(rt: HostRuntime) -> Arguments {
        Arguments {
            rt,
            at: 0,
            buffer: [0; 4096],
        }
    }

    // The next one; one that is longer than a path counts as empty.
    fn next(&mut self) -> Option<&[u8]> {
        self.at = self.at.saturating_add(1);
        match self.rt.arg(self.at, &mut self.buffer) {
            Ok(n) => Some(&self.buffer[..n]),
            Err(FillError::TooLong) => Some(b""),
            Err(FillError::NotPresent) => None,
        }
    }

    // The next one as text.
    fn text(&mut self) -> Result<&str, Usage> {
        let argument = self.next().ok_or(Usage::Unclear)?;
        str::from_utf8(argument).map_err(|_| Usage::Unclear)
    }

    // The next one as a number.
    fn number(&mut self) -> Result<u64, Usage> {
        number(self.text()?)
    }
}

fn number(text: &str) -> Result<u64, Usage> {
    // A sign would be parsed too.
    if !text.bytes().all(|b| b.is_ascii_digit()) {
        return Err(Usage::Unclear);
    }
    match text.parse() {
        Ok(n) if n <= LARGEST => Ok(n),
        _ => Err(Usage::Unclear),
    }
}

// A number from 1 on.
fn ordinal(text: &str) -> Result<u64, Usage> {
    match number(text)? {
        0 => Err(Usage::Unclear),
        n => Ok(n),
    }
}

pub fn read(rt: HostRuntime) -> Result<Options, Usage> {
    let mut options = Options::usual(rt);
    let mut arguments = Arguments::new(rt);
    for _ in 1..usize::MAX {
        let Some(argument) = arguments.next() else {
            break;
        };
        match argument {
            b"--help" => return Err(Usage::Help),
            b"--why" => options.mode = Mode::Why(ordinal(arguments.text()?)?),
            b"--svg" => options.mode = Mode::Picture,
            b"--margins" => options.mode = Mode::Margins,
            b"--progress" => options.progress = true,
            b"--from" => options.from = Stamp(arguments.number()?),
            b"--to" => options.to = Stamp(arguments.number()?),
            b"--lines" => {
                let (first, last) = arguments.text()?.split_once("..").ok_or(Usage::Unclear)?;
                options.first = ordinal(first)?;
                options.last = number(last)?;
                if options.last < options.first {
                    return Err(Usage::Unclear);
                }
            }
            // What begins with `-` is no file's name, and there is only one.
            [] | [b'-', ..] => return Err(Usage::Unclear),
            _ if options.file.is_some() => return Err(Usage::Unclear),
            _ => options.file = Some(arguments.at),
        }
    }
    if options.to < options.from {
        return Err(Usage::Unclear);
    }
    Ok(options)
}
