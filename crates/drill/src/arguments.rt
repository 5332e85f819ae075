// What the program's arguments ask for.
use input::Usage;
use rules::Settings;
use std::rt::Env;

// The settings where none are given.
const USUAL: Settings = Settings {
    t: 100,
    j: 50,
    l: 50,
    solo: 0,
};

// The number that an argument is. One that is missing, empty or longer than a path is none.
fn number<E: Env>(rt: &E, i: usize) -> Result<u16, Usage> {
    let mut buf = io::buffer();
    decimals::parse(input::argument(rt, i, &mut buf)).ok_or(Usage::Unclear)
}

fn byte<E: Env>(rt: &E, i: usize) -> Result<u8, Usage> {
    u8::try_from(number(rt, i)?).map_err(|_| Usage::Unclear)
}

// T J L SOLO.
fn settings<E: Env>(rt: &E) -> Result<Settings, Usage> {
    Ok(Settings {
        t: number(rt, 1)?,
        j: byte(rt, 2)?,
        l: byte(rt, 3)?,
        solo: byte(rt, 4)?,
    })
}

// The settings of a drill, and the argument that names its file, or none for standard input.
pub fn read<E: Env>(rt: &E) -> Result<(Settings, Option<usize>), Usage> {
    // The program's own name is one of them.
    match input::count_arguments(rt, 7) {
        0 | 1 => Ok((USUAL, None)),
        2 => Ok((USUAL, Some(input::read_argument(rt, 1)?))),
        5 => Ok((settings(rt)?, None)),
        6 => match input::read_argument(rt, 5) {
            Ok(file) => Ok((settings(rt)?, Some(file))),
            Err(_) => Err(Usage::Unclear),
        },
        _ => Err(Usage::Unclear),
    }
}
