// Where a character stands on the layout.
#![tactic(auto)]

ghost use Rattle.std.specs.Prelude.{◌+◌, ◌<◌, ◌≡◌};
ghost use Rattle.lookup.specs.Places.{place_of, found};
ghost use Rattle.lookup.specs.Entries.{entry_of, place_at};

use rules::{Face, Key, Thumb};

// A key and a face of the layout.
#[derive(Clone, Copy)]
pub struct Place {
    pub key: Key,
    pub face: Face,
}

// The two full-width signs, which stand outside the table.
const STOP: u16 = 0xFF0E;

const COMMA: u16 = 0xFF0C;

// The code points of the table.
const FIRST: u16 = 0x3000;

const LAST: u16 = 0x30FF;

// From U+3000 to U+30FF: 32 and the key for the plain face, 64 and the key with the left thumb, 96 and the key with the right
// thumb; 0 for a code point on no face. One byte each, since 256 places written out would be long to read.
const PLACES: [u8; 256] = [
    0, 62, // 、
    52, // 。
    0, 0, 0, 0, 0, 0, 0, 0, 0, 0, 0, 0, 0, 0, 0, 0, 0, 0, 0, 0, 0, 0, 0, 0, 0, 0, 0, 0, 0, 0, 0, 0,
    0, 0, 0, 0, 0, 0, 0, 0, 0, 0, 0, 0, 0, 0, 0, 0, 0, 0, 0, 0, 0, 0, 0, 0, 0, 0, 0, 0, 0, 0, 84, // ぁ
    75, // あ
    68, // ぃ
    50, // い
    64, // ぅ
    42, // う
    125, // ぇ
    85, // え
    105, // ぉ
    112, // お
    53, // か
    117, // が
    49, // き
    81, // ぎ
    59, // く
    91, // ぐ
    45, // け
    109, // げ
    55, // こ
    119, // ご
    56, // さ
    120, // ざ
    43, // し
    107, // じ
    34, // す
    98, // ず
    46, // せ
    110, // ぜ
    38, // そ
    70, // ぞ
    54, // た
    118, // だ
    58, // ち
    90, // ぢ
    115, // っ
    60, // つ
    92, // づ
    44, // て
    108, // で
    48, // と
    80, // ど
    76, // な
    122, // に
    101, // ぬ
    39, // ね
    113, // の
    47, // は
    79, // ば
    89, // ぱ
    33, // ひ
    97, // び
    93, // ぴ
    35, // ふ
    99, // ぶ
    69, // ぷ
    36, // へ
    100, // べ
    71, // ぺ
    40, // ほ
    72, // ぼ
    82, // ぽ
    124, // ま
    111, // み
    103, // む
    37, // め
    78, // も
    87, // ゃ
    67, // や
    77, // ゅ
    102, // ゆ
    114, // ょ
    121, // よ
    57, // ら
    86, // り
    123, // る
    88, // れ
    66, // ろ
    0, 104, // わ
    0, 0, 74, // を
    51, // ん
    0, 0, 0, 0, 0, 0, 0, 0, 0, 0, 0, 0, 0, 0, 0, 0, 0, 0, 0, 0, 0, 0, 0, 0, 0, 0, 0, 0, 0, 0, 0, 0,
    0, 0, 0, 0, 0, 0, 0, 0, 0, 0, 0, 0, 0, 0, 0, 0, 0, 0, 0, 0, 0, 0, 0, 0, 0, 0, 0, 0, 0, 0, 0, 0,
    0, 0, 0, 0, 0, 0, 0, 0, 0, 0, 0, 0, 0, 0, 0, 0, 0, 0, 0, 0, 0, 0, 0, 0, 0, 0, 0, 0, 0, 0, 0, 0,
    0, 0, 0, 0, 0, 0, 0, 41, // ・
    65, // ー
    0, 0, 0,
];

// The entry of a code point of the table.
fn entry(i: usize) -> u8
    requires { i < 256 }
    ensures { result ≡ entry_of (place_of (0x3000 + i)) }
{
    PLACES[i]
}

// What an entry says.
#[tactic(auto, unfolding(crate::specs::Entries::place_at))]
fn place_at(entry: u8) -> Option<Place>
    ensures { found result ≡ place_at entry }
{
    let face = match entry / 32 {
        1 => Face::Plain,
        2 => Face::With(Thumb::Left),
        3 => Face::With(Thumb::Right),
        _ => return None,
    };
    let key = Key(entry % 32);
    Some(Place { key, face })
}

// Where a character stands, or none where it is on no face.
#[tactic(auto, using(crate::proofs::Table::outside_table))]
pub fn find(c: u16) -> Option<Place>
    ensures { found result ≡ place_of c }
{
    let face = Face::Plain;
    match c {
        STOP => Some(Place { key: Key(0), face }),
        COMMA => Some(Place { key: Key(29), face }),
        FIRST..=LAST => place_at(entry((c - FIRST) as usize)),
        _ => None,
    }
}
