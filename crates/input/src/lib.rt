// What a program is given: bytes, of standard input or of a file that an argument names, one read at a time or to their end, into a lent
// buffer; and what the arguments ask for.
//
// And what the programs that work on one input have in common: to open it, to run the program's own step on it, and to say why where it
// can't be read or what comes of it can't be written (`Program`).
#![tactic(auto)]

ghost use Rattle.std.specs.Prelude.{length, ◌≡◌, ◌≤◌, OnOk, All};
ghost use Rattle.io.specs.Counts.{IsPrefixLen};
ghost use Rattle.input.specs.Reads.{Taken, Within};
ghost use Rattle.input.specs.declared.Failure.TheVariants as failure;

use std::env::FillError;
use std::fmt::Display;
use std::fs::File;
use std::io::{Error, ErrorKind, Print, Read, Stderr, Stdin, Write};
use std::rt::{Env, Files};

// A buffer of zeros. In a proof the zeros of `[0; 4194432]` are counted one by one; here the length is known as it is said.
pub fn buffer<T: Copy, const N: usize>(zero: T) -> [T; N]
    ensures len { length result ≡ N }
    ensures filled { All (λ x. x ≡ zero) result }
{
    [zero; N]
}

// Why a program does not work on its input but says how to use it.
#[derive(Clone, Copy, PartialEq, Eq)]
pub enum Usage {
    // It is asked to.
    Help,
    // The arguments are nothing that is understood.
    Unclear,
}

// Why a program breaks off.
#[derive(Clone, Copy)]
pub enum Failure {
    // The input can't be opened, or read to its end.
    Input(Error),
    // Standard output can't be written.
    Output(Error),
}

impl From<Error> for Failure {
    ghost from_gives = { λ error made. made ≡ failure.Input error };

    fn from(error: Error) -> Self {
        Self::Input(error)
    }
}

// An input that is open.
#[derive(Drop)]
pub enum Source {
    Standard(Stdin),
    Named(File),
}

impl Read for Source {
    fn read(&mut self, buf: &mut [u8]) -> std::io::Result<usize> {
        match self {
            Source::Standard(stdin) => stdin.read(buf),
            Source::Named(file) => file.read(buf),
        }
    }
}

// One read of an open input: so many bytes, at least one, at the buffer's front, or none at the end. It brings what is there, so that a slow
// line is not waited for; into a buffer of no bytes it brings nothing, as at the end.
pub fn read_from<R: Read>(from: &mut R, buf: &mut [u8]) -> std::io::Result<Option<usize>>
    ensures { Taken (length buf.old) result }
{
    match from.read(buf)? {
        0 => Ok(None),
        n => Ok(Some(n)),
    }
}

// Reads an open input to its end: all of it stands at the buffer's front. None where that is filled by its first bytes, and more follow.
pub fn read<'a, R: Read>(from: &mut R, buf: &'a mut [u8]) -> std::io::Result<Option<&'a [u8]>>
    ensures { Within (length buf.old) result }
{
    // It grows by as much as a read brings, so no iterator counts it.
    let mut n = 0;
    while n < buf.len() {
        match read_from(from, &mut buf[n..])? {
            Some(k) => n += k,
            None => return Ok(Some(&buf[..n])),
        }
    }
    // One read more tells input that ends there from a longer one.
    match read_from(from, &mut [0])? {
        None => Ok(Some(buf)),
        Some(_) => Ok(None),
    }
}

// An argument, put at the front of a buffer: none where there is no argument i, or it is longer.
pub fn argument<'a, E: Env>(rt: &E, i: usize, buf: &'a mut [u8]) -> &'a [u8]
    ensures { length result.now ≤ length buf.old }
{
    let n = rt.arg(i, buf).unwrap_or(0);
    &buf[..n]
}

// Whether there is an argument i.
fn is_given<E: Env>(rt: &E, i: usize) -> bool {
    let mut buf = io::buffer();
    !matches!(rt.arg(i, &mut buf), Err(FillError::NotPresent))
}

// How many arguments there are, the program's own name among them, but no more than are counted.
pub fn count_arguments<E: Env>(rt: &E, most: usize) -> usize
    ensures { result ≤ most }
{
    (0..most).find(|i| !is_given(rt, *i)).unwrap_or(most)
}

// Opens the file that an argument names, UTF-8, or standard input where none is asked for.
pub fn open(rt: HostRuntime, file: Option<usize>) -> std::io::Result<Source> {
    let Some(i) = file else {
        return Ok(Source::Standard(rt.stdin()));
    };
    let mut buf = io::buffer();
    let Ok(path) = str::from_utf8(argument(&rt, i, &mut buf)) else {
        return Err(Error::new(ErrorKind::InvalidInput, "a file's name is not UTF-8"));
    };
    Ok(Source::Named(File::open(&rt, path)?))
}

// Puts a text to the front of a buffer, as far as both go. Answers how many bytes.
fn put<D: Display + Drop>(buf: &mut [u8], text: D) -> usize
    ensures { IsPrefixLen result buf.new }
{
    let room = buf.len();
    let mut rest = &mut buf[..];
    let _ = write!(rest, "{text}");
    let left = rest.len();
    room.saturating_sub(left)
}

// What a message calls the input: `PROGRAM: `, and then the name that an argument is, or `standard input`. At the front of a buffer.
pub fn label<'a, E: Env>(rt: &E, program: &str, file: Option<usize>, buf: &'a mut [u8]) -> &'a [u8]
    ensures { length result.now ≤ length buf.old }
{
    let at = put(buf, format_args!("{program}: "));
    let n = match file {
        Some(i) => argument(rt, i, &mut buf[at..]).len(),
        None => put(&mut buf[at..], "standard input"),
    };
    &buf[..at + n]
}

// The system's words for an error: std's without the number behind them.
fn words(text: &str) -> &str {
    text.split_once(" (os error ")
        .map_or(text, |(front, _)| front)
}

// Ends a message that says what failed: a colon and the system's words, in parts (docs/DECISIONS.md).
fn print_error(err: Stderr, error: Error) {
    let mut buf = [0; 320];
    let n = put(&mut buf, error);
    let text = str::from_utf8(&buf[..n]).unwrap_or("");
    let _ = print!(err; ": ");
    let _ = println!(err; "{}", words(text));
}

// What one argument asks for: how to use the program, or work on the file that it names. An option or nothing is no name, nor is what is
// longer than a path.
pub fn read_argument<E: Env>(rt: &E, i: usize) -> Result<usize, Usage> {
    let mut buf = io::buffer();
    match argument(rt, i, &mut buf) {
        b"--help" => Err(Usage::Help),
        [] | [b'-', ..] => Err(Usage::Unclear),
        _ => Ok(i),
    }
}

// What the arguments ask for, where the program takes none but a file's name, or `--help`: the argument that names the file, or none for
// standard input.
pub fn read_arguments<E: Env>(rt: &E) -> Result<Option<usize>, Usage> {
    // The program's own name is one of them.
    match count_arguments(rt, 3) {
        0 | 1 => Ok(None),
        2 => read_argument(rt, 1).map(Some),
        _ => Err(Usage::Unclear),
    }
}

// A program that works on one input.
#[derive(Clone, Copy)]
pub struct Program {
    pub name: &'static str,
    // how to use it, in the parts that are written (docs/DECISIONS.md)
    pub usage: &'static [&'static str],
}

// Runs a step on the input that is asked for.
fn attempt<F: FnOnce(&mut Source) -> Result<(), Failure>>(
    rt: HostRuntime,
    file: Option<usize>,
    step: F,
) -> Result<(), Failure>
    requires { F.IsAlwaysCallable step }
    ensures { OnOk result ((from : _) × (after : _) × F.post step from result after) }
{
    let mut from = open(rt, file)?;
    step(&mut from)
}

impl Program {
    // Runs a step on the input that the arguments name, or says how to use the program.
    pub fn run<F: FnOnce(&mut Source) -> Result<(), Failure>>(self, rt: HostRuntime, step: F)
        requires { F.IsAlwaysCallable step }
    {
        match read_arguments(&rt) {
            Ok(file) => self.run_on(rt, file, step),
            Err(usage) => self.print_usage(rt, usage),
        }
    }

    // Runs a step on the file that an argument names, or on standard input. Where it breaks off, standard error says why.
    pub fn run_on<F: FnOnce(&mut Source) -> Result<(), Failure>>(
        self,
        rt: HostRuntime,
        file: Option<usize>,
        step: F,
    )
        requires { F.IsAlwaysCallable step }
    {
        let mut buf = io::buffer();
        let name = self.name;
        let label = label(&rt, name, file, &mut buf);
        let err = rt.stderr();
        let Err(failure) = attempt(rt, file, step) else {
            return;
        };
        match failure {
            Failure::Input(error) => {
                let _ = Print::write_all(&err, label);
                print_error(err, error);
            }
            Failure::Output(error) => {
                let _ = print!(err; "{name}: standard output");
                print_error(err, error);
            }
        }
    }

    // Says how to use the program, where it is asked to on standard output.
    pub fn print_usage(self, rt: HostRuntime, usage: Usage) {
        for part in self.usage {
            let _ = match usage {
                Usage::Help => rt.stdout().print(*part),
                Usage::Unclear => rt.stderr().print(*part),
            };
        }
    }
}
