// The types of document 01, in the forms that it names, and the two functions that belong to them: are settings in range, and
// open a fresh machine. What the types mean is said in specs/, one file for each section of document 01.
#![tactic(auto)]

ghost use Rattle.std.specs.Prelude.{◌≡◌};
ghost use Rattle.rules.specs.Numbers.{in_range};
ghost use Rattle.rules.specs.States.{opening, opened};
ghost use Rattle.rules.specs.Refusal.{number_of, KindOf};

// A moment of the keyboard's clock, in milliseconds. There is no type for another clock: a number from elsewhere can enter
// only through this one.
#[repr(C)]
#[derive(Clone, Copy, PartialEq, Eq, PartialOrd, Ord)]
pub struct Stamp(pub u64);

// The milliseconds from one stamp to a later one.
#[derive(Clone, Copy, PartialEq, Eq, PartialOrd, Ord)]
pub struct Lag(pub u64);

// The number of a key: a character key's; 0 and 1 for the left and the right thumb key; 0 for the function key and a tick.
#[derive(Clone, Copy, PartialEq, Eq, PartialOrd, Ord)]
pub struct Key(pub u8);

#[derive(Clone, Copy, PartialEq, Eq)]
pub enum Thumb {
    Left,
    Right,
}

// T in milliseconds, J and L in percent, solo: whether a lone thumb press yields a mark (1) or not (0).
#[derive(Clone, Copy)]
pub struct Settings {
    pub t: u16,
    pub j: u8,
    pub l: u8,
    pub solo: u8,
}

// What rests between two events. M is a character key pressed at m, K a second one pressed at k, O a thumb pressed at o; r is the
// release of the thumb in S6, of M in S8.
#[derive(Clone, Copy)]
pub enum Resting {
    S1,
    // M, m
    S2(Key, Stamp),
    // O, o
    S3(Thumb, Stamp),
    // M, m, then O, o
    S4(Key, Stamp, Thumb, Stamp),
    // O, o, then M, m
    S5(Thumb, Stamp, Key, Stamp),
    // O, o, then M, m, then the thumb's release r
    S6(Thumb, Stamp, Key, Stamp, Stamp),
    // M, m, then K, k: a pair of the lent list
    S7(Key, Stamp, Key, Stamp),
    // M, m, then K, k, then M's release r
    S8(Key, Stamp, Key, Stamp, Stamp),
}

// One keyboard: its settings, what rests, the last accepted stamp, and the set of held character keys, one bit a key.
#[derive(Clone, Copy)]
pub struct Machine {
    pub settings: Settings,
    pub resting: Resting,
    pub last: Stamp,
    pub held: u32,
}

// The plain face of a key, or its face with a thumb.
#[derive(Clone, Copy)]
pub enum Face {
    Plain,
    With(Thumb),
}

// What a step commits: a character, by its key and face; the mark of a lone thumb press; or the character of a pair, with its two
// keys, the first pressed first.
#[derive(Clone, Copy)]
pub enum Item {
    Character(Key, Face),
    Mark(Thumb),
    Together(Key, Key, u16),
}

// Up to two of a kind, in order: the items that a step commits, or their words.
#[derive(Clone, Copy)]
pub enum Few<T> {
    None,
    One(T),
    Two(T, T),
}

// The items that a step commits.
pub type Items = Few<Item>;

// An event as it arrives: any kind, any key, any stamp.
#[derive(Clone, Copy)]
pub struct Event {
    pub kind: u8,
    pub key: Key,
    pub stamp: Stamp,
}

// An event whose kind and key are allowed.
#[derive(Clone, Copy)]
pub enum Input {
    CharacterDown(Key),
    CharacterUp(Key),
    ThumbDown(Thumb),
    ThumbUp(Thumb),
    FunctionDown,
    Tick,
}

// Why something is refused, by the numbers that are given back.
#[derive(Clone, Copy, PartialEq, Eq)]
pub enum Refusal {
    SettingsOutOfRange = 1,
    NotWellFormed = 2,
    KeyNotAllowed = 3,
    AboveLargest = 4,
    BeforeLast = 5,
    Cut = 6,
    WrongRecord = 7,
    NoRoom = 8,
    TooLong = 9,
    OnNoFace = 10,
    TooManyHeld = 11,
    ListNotGood = 12,
    NoKeyboard = 13,
    ListInOpinion = 14,
}

impl Refusal {
    // Its number.
    pub fn number(self) -> u8
        ensures { result ≡ number_of self }
    {
        self as u8
    }
}

// The kinds of events, by their numbers.
#[derive(Clone, Copy, PartialEq, Eq)]
pub enum Kind {
    CharacterDown = 1,
    CharacterUp = 2,
    ThumbDown = 3,
    ThumbUp = 4,
    FunctionDown = 5,
    Tick = 6,
}

impl TryFrom<u8> for Kind {
    type Error = Refusal;

    ghost try_from_gives = { KindOf };

    fn try_from(number: u8) -> Result<Kind, Refusal> {
        match number {
            1 => Ok(Kind::CharacterDown),
            2 => Ok(Kind::CharacterUp),
            3 => Ok(Kind::ThumbDown),
            4 => Ok(Kind::ThumbUp),
            5 => Ok(Kind::FunctionDown),
            6 => Ok(Kind::Tick),
            _ => Err(Refusal::KeyNotAllowed),
        }
    }
}

impl Settings {
    // An overlap of this length or longer is no short one.
    pub const SHORT_OVERLAP: Lag = Lag(400);
    // The bounds of T, and of J and L.
    pub const T_LEAST: u16 = 50;

    pub const T_MOST: u16 = 1000;

    pub const PERCENT_LEAST: u8 = 1;

    pub const PERCENT_MOST: u8 = 99;

    #[tactic(auto, unfolding(crate::specs::Numbers::in_range))]
    pub fn in_range(self) -> bool
        ensures { result ≡ in_range self }
    {
        let percents = Settings::PERCENT_LEAST..=Settings::PERCENT_MOST;
        (Settings::T_LEAST..=Settings::T_MOST).contains(&self.t)
            && percents.contains(&self.j)
            && percents.contains(&self.l)
            && self.solo <= 1
    }
}

impl Machine {
    // The number of character keys: theirs are the numbers below it.
    pub const KEYS: Key = Key(31);
    // So many keys may be held at once.
    pub const MOST_HELD: u32 = 6;
    // The largest stamp that is accepted.
    pub const LARGEST: Stamp = Stamp(1_000_000_000_000);

    // A fresh machine: nothing rests, the last stamp counts as 0, and no key is held.
    pub fn open(settings: Settings) -> Result<Machine, Refusal>
        ensures { opened result ≡ opening settings }
    {
        if !settings.in_range() {
            return Err(Refusal::SettingsOutOfRange);
        }
        Ok(Machine {
            settings,
            resting: Resting::S1,
            last: Stamp(0),
            held: 0,
        })
    }
}
