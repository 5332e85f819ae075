// Keystrokes as text, as document 01 writes them. The types of a transcriber, who takes a text byte by byte; specs/ says what the
// notation is, what is transcribed of a text, and that the notation of a log is transcribed to the log. There is no code here.
#![tactic(auto)]

// What was read last of an entry: nothing, or one of its numbers. Settings have T, J, L and solo; an event a key and a stamp, or a
// stamp alone; a list T_s and N, then the two keys and the character of each pair.
#[derive(Clone, Copy, PartialEq, Eq)]
pub enum Field {
    Start,
    T,
    J,
    L,
    Solo,
    Key,
    Stamp,
    Ts,
    N,
    First,
    Second,
    Character,
}

// Where a transcriber is.
#[derive(Clone, Copy)]
pub enum Progress {
    // In a comment bytes count nothing.
    Comment,
    // Behind digits of a field's number, which may go on.
    Reading(Field, u64),
    // Behind a field, its number, and signs, which are packed as one number.
    Behind(Field, u64, u64),
}

// The records of a log, by their tags.
#[derive(Clone, Copy)]
pub enum Tag {
    Settings = 1,
    Event = 2,
    List = 3,
}

// A number in so many bytes.
#[derive(Clone, Copy)]
pub struct Number {
    pub width: u8,
    pub value: u64,
}

// What a byte of the text adds to the log: nothing, a number, or the last number of a record.
#[derive(Clone, Copy)]
pub enum Output {
    Nothing,
    Push(Number),
    Last(Tag, Number),
}

// The field that signs announce, with what is known of the record by then; or they can't stand there.
pub type Follow = Option<(Field, Output)>;

// What was expected where a text is no notation: what may stand behind a field, a number that is no larger, or a list that is shorter.
#[derive(Clone, Copy)]
pub enum Expected {
    After(Field),
    AtMost(u64),
    FewerPairs,
}

// One byte of a text: where the transcriber is then, and what is added to the log.
pub type Step = Result<(Progress, Output), Expected>;
