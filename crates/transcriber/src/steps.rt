// One byte of a text.
ghost use Rattle.std.specs.Prelude.{◌<◌, ◌≡◌};
ghost use Rattle.rules.specs.Refusal.{kind_number};
ghost use Rattle.notation.specs.Transcribing as notation;

use crate::signs::{digit_value, ends_entry, is_blank, with_sign};
use notation::{Expected, Field, Follow, Number, Output, Progress, Step, Tag};
use rules::Kind;

// Signs as one number, a 1 and then their bytes: they fit one, and are compared as one.
const NO_SIGNS: u64 = 1;
// `T=`
const BEFORE_T: u64 = 0x1_543d;
// `T_s=`
const BEFORE_TS: u64 = 0x1_545f_733d;
// `L@`
const LEFT_DOWN: u64 = 0x1_4c40;
// `R@`
const RIGHT_DOWN: u64 = 0x1_5240;
// `L up@`
const LEFT_UP: u64 = 0x1_4c75_7040;
// `R up@`
const RIGHT_UP: u64 = 0x1_5275_7040;
// `fn@`
const FUNCTION: u64 = 0x166_6e40;
// `tick`
const TICK: u64 = 0x1_7469_636b;
// `J=`
const BEFORE_J: u64 = 0x1_4a3d;
// `L=`
const BEFORE_L: u64 = 0x1_4c3d;
// `solo=`
const BEFORE_SOLO: u64 = 0x173_6f6c_6f3d;
// `@`
const DOWN: u64 = 0x140;
// `up@`
const UP: u64 = 0x175_7040;
// `N=`
const BEFORE_N: u64 = 0x1_4e3d;
// `+`
const BEFORE_SECOND: u64 = 0x12b;
// `=U+`
const BEFORE_CODE_POINT: u64 = 0x13d_552b;

// The largest number that a field's bytes hold.
fn most(field: Field) -> u64
    ensures { result ≡ notation.most field }
{
    match field {
        Field::Start => 0,
        Field::T => 65535,
        Field::J | Field::L | Field::Solo => 255,
        Field::Key => 255,
        Field::Stamp => u64::MAX,
        Field::Ts => 65535,
        Field::N | Field::First | Field::Second => 255,
        Field::Character => 65535,
    }
}

// A pair's character is its code point in hexadecimal digits, every other number is decimal.
fn is_code_point(field: Field) -> bool
    ensures { result ≡ notation.is_code_point field }
{
    field == Field::Character
}

fn base(field: Field) -> u64
    ensures value { result ≡ notation.base field }
    ensures result_nonzero { 0 < result }
{
    if is_code_point(field) { 16 } else { 10 }
}

// What a byte adds to the log: a number in so many bytes, the last number of a record, or an event's kind and key.
fn push(width: u8, value: u64) -> Output
    ensures { result ≡ notation.push width value }
{
    Output::Push(Number { width, value })
}

fn last(tag: Tag, width: u8, value: u64) -> Output
    ensures { result ≡ notation.last tag width value }
{
    Output::Last(tag, Number { width, value })
}

fn kind_and_key(kind: Kind, key: u64) -> Output
    ensures { result ≡ notation.kind_and_key (kind_number kind) key }
{
    push(2, kind as u64 * 256 + key % 256)
}

// What an entry begins with.
fn beginning(signs: u64) -> Follow
    ensures { result ≡ notation.beginning signs }
{
    match signs {
        NO_SIGNS => Some((Field::Key, Output::Nothing)),
        BEFORE_T => Some((Field::T, Output::Nothing)),
        BEFORE_TS => Some((Field::Ts, Output::Nothing)),
        LEFT_DOWN => Some((Field::Stamp, kind_and_key(Kind::ThumbDown, 0))),
        RIGHT_DOWN => Some((Field::Stamp, kind_and_key(Kind::ThumbDown, 1))),
        LEFT_UP => Some((Field::Stamp, kind_and_key(Kind::ThumbUp, 0))),
        RIGHT_UP => Some((Field::Stamp, kind_and_key(Kind::ThumbUp, 1))),
        FUNCTION => Some((Field::Stamp, kind_and_key(Kind::FunctionDown, 0))),
        TICK => Some((Field::Stamp, kind_and_key(Kind::Tick, 0))),
        _ => None,
    }
}

// A field that only these signs announce.
fn only(signs: u64, expected: u64, field: Field, width: u8, number: u64) -> Follow
    ensures { result ≡ notation.only signs expected field width number }
{
    (signs == expected).then_some((field, push(width, number)))
}

// A stamp behind a character key.
fn stroke(key: u64, signs: u64) -> Follow
    ensures { result ≡ notation.stroke key signs }
{
    match signs {
        DOWN => Some((Field::Stamp, kind_and_key(Kind::CharacterDown, key))),
        UP => Some((Field::Stamp, kind_and_key(Kind::CharacterUp, key))),
        _ => None,
    }
}

// The field that signs announce, behind a field and its number, with what is known of the record by then.
#[tactic(auto, unfolding(notation::specs::Transcribing::following))]
fn following(field: Field, number: u64, signs: u64) -> Follow
    ensures { result ≡ notation.following field number signs }
{
    match field {
        Field::Start => beginning(signs),
        Field::T => only(signs, BEFORE_J, Field::J, 2, number),
        Field::J => only(signs, BEFORE_L, Field::L, 1, number),
        Field::L => only(signs, BEFORE_SOLO, Field::Solo, 1, number),
        Field::Key => stroke(number, signs),
        Field::Ts => only(signs, BEFORE_N, Field::N, 2, number),
        Field::N => only(signs, NO_SIGNS, Field::First, 1, number),
        Field::First => only(signs, BEFORE_SECOND, Field::Second, 1, number),
        Field::Second => only(signs, BEFORE_CODE_POINT, Field::Character, 1, number),
        Field::Character => only(signs, NO_SIGNS, Field::First, 2, number),
        Field::Solo | Field::Stamp => None,
    }
}

// In a comment, or between two entries.
fn between(comment: bool) -> Progress
    ensures { result ≡ notation.between comment }
{
    if comment {
        Progress::Comment
    } else {
        Progress::Behind(Field::Start, 0, NO_SIGNS)
    }
}

pub fn start() -> Progress
    ensures { result ≡ notation.start }
{
    between(false)
}

// One digit more.
fn grown(field: Field, number: u64, digit: u32) -> Step
    ensures { result ≡ notation.grown field number digit }
{
    let most = most(field);
    let grown = number as u128 * base(field) as u128 + digit as u128;
    if grown > most as u128 {
        return Err(Expected::AtMost(most));
    }
    Ok((Progress::Reading(field, grown as u64), Output::Nothing))
}

// The first digit of the number that signs announce.
fn begun(field: Field, digit: u32, follow: Follow) -> Step
    ensures { result ≡ notation.begun field digit follow }
{
    let (next, output) = follow.ok_or(Expected::After(field))?;
    Ok((Progress::Reading(next, digit as u64), output))
}

// The end of an entry behind a field: its record is whole, or more was expected.
fn whole(field: Field, number: u64, next: Progress) -> Step
    ensures { result ≡ notation.whole field number next }
{
    match field {
        Field::Start => Ok((next, Output::Nothing)),
        Field::Solo => Ok((next, last(Tag::Settings, 1, number))),
        Field::Stamp => Ok((next, last(Tag::Event, 8, number))),
        Field::N => Ok((next, last(Tag::List, 1, number))),
        Field::Character => Ok((next, last(Tag::List, 2, number))),
        _ => Err(Expected::After(field)),
    }
}

#[tactic(auto, unfolding(notation::specs::Transcribing::ended))]
fn ended(field: Field, number: u64, signs: u64, next: Progress) -> Step
    ensures { result ≡ notation.ended field number signs next }
{
    if signs == NO_SIGNS {
        whole(field, number, next)
    } else {
        Err(Expected::After(field))
    }
}

// A byte that is no digit, behind a field, its number and signs.
#[tactic(auto, unfolding(notation::specs::Transcribing::at_sign))]
fn at_sign(field: Field, number: u64, signs: u64, b: u8) -> Step
    ensures { result ≡ notation.at_sign (notation.behind field number signs) b }
{
    if is_blank(b) {
        return Ok((Progress::Behind(field, number, signs), Output::Nothing));
    }
    if ends_entry(b) {
        return ended(field, number, signs, between(b == b'#'));
    }
    Ok((
        Progress::Behind(field, number, with_sign(signs, b)),
        Output::Nothing,
    ))
}

pub fn step(progress: Progress, b: u8) -> Step
    ensures { result ≡ notation.step progress b }
{
    match progress {
        Progress::Comment => Ok((between(b != b'\n'), Output::Nothing)),
        Progress::Reading(field, number) => match digit_value(is_code_point(field), b) {
            Some(digit) => grown(field, number, digit),
            None => at_sign(field, number, NO_SIGNS, b),
        },
        Progress::Behind(field, number, signs) => match digit_value(signs == BEFORE_CODE_POINT, b) {
            Some(digit) => begun(field, digit, following(field, number, signs)),
            None => at_sign(field, number, signs, b),
        },
    }
}
