// The layout of document 01: the character on each face of the thirty-one keys, and the word of a committed item by it.
#![tactic(auto)]

ghost use Rattle.std.specs.Prelude.{◌≡◌};
ghost use Rattle.rules.specs.Layout.{code_point};
ghost use Rattle.rules.specs.ZeroDelay.{sign_unless_0, mark_word, sign_of};
ghost use Rattle.layout.specs.Column.{column_of, rows, code_point_in};
ghost use Rattle.layout.specs.Words.{word_in};

use rules::{Face, Item, Key, Thumb};

// A row for each key: its code point on the plain face, with the left thumb, with the right thumb; 0 for an empty face.
const FACES: [[u16; 3]; 31] = [
    // B01 to B05: ．ひすふへ, left ぅーろやぃ, right -びずぶべ
    [0xFF0E, 0x3045, 0],
    [0x3072, 0x30FC, 0x3073],
    [0x3059, 0x308D, 0x305A],
    [0x3075, 0x3084, 0x3076],
    [0x3078, 0x3043, 0x3079],
    // B06 to B10: めそねほ・, left ぷぞぺぼ-, right ぬゆむわぉ
    [0x3081, 0x3077, 0x306C],
    [0x305D, 0x305E, 0x3086],
    [0x306D, 0x307A, 0x3080],
    [0x307B, 0x307C, 0x308F],
    [0x30FB, 0, 0x3049],
    // C01 to C05: うしてけせ, left をあなゅも, right -じでげぜ
    [0x3046, 0x3092, 0],
    [0x3057, 0x3042, 0x3058],
    [0x3066, 0x306A, 0x3067],
    [0x3051, 0x3085, 0x3052],
    [0x305B, 0x3082, 0x305C],
    // C06 to C10: はときいん, left ばどぎぽ-, right みおのょっ
    [0x306F, 0x3070, 0x307F],
    [0x3068, 0x3069, 0x304A],
    [0x304D, 0x304E, 0x306E],
    [0x3044, 0x307D, 0x3087],
    [0x3093, 0, 0x3063],
    // D01 to D05: 。かたこさ, left ぁえりゃれ, right -がだござ
    [0x3002, 0x3041, 0],
    [0x304B, 0x3048, 0x304C],
    [0x305F, 0x308A, 0x3060],
    [0x3053, 0x3083, 0x3054],
    [0x3055, 0x308C, 0x3056],
    // D06 to D11: らちくつ，、, left ぱぢぐづぴ-, right よにるまぇ-
    [0x3089, 0x3071, 0x3088],
    [0x3061, 0x3062, 0x306B],
    [0x304F, 0x3050, 0x308B],
    [0x3064, 0x3065, 0x307E],
    [0xFF0C, 0x3074, 0x3047],
    [0x3001, 0, 0],
];

// A face's place in a row.
fn column(face: Face) -> usize
    ensures { result ≡ column_of face }
{
    match face {
        Face::Plain => 0,
        Face::With(Thumb::Left) => 1,
        Face::With(Thumb::Right) => 2,
    }
}

// The table, for a caller that lends it to many look-ups: it is laid down once, and not at each of them.
#[tactic(auto, unfolding(crate::specs::Column::rows, rules::specs::Layout::table))]
pub fn faces() -> [[u16; 3]; 31]
    ensures { result ≡ rows }
{
    FACES
}

// The code point on a key's face in a lent table; 0 for an empty face, and for a key that is not there.
#[tactic(auto, unfolding(crate::specs::Column::code_point_in))]
pub fn code_point_in(table: &[[u16; 3]; 31], key: Key, face: Face) -> u16
    ensures { result ≡ code_point_in table.now key face }
{
    match table.get(key.0 as usize) {
        Some(row) => row[column(face)],
        None => 0,
    }
}

// The code point on a key's face.
#[tactic(auto, using(crate::proofs::Table::in_rows))]
pub fn code_point(key: Key, face: Face) -> u16
    ensures { result ≡ code_point key face }
{
    code_point_in(&faces(), key, face)
}

fn mark_word(thumb: Thumb) -> u16
    ensures { result ≡ mark_word thumb }
{
    match thumb {
        Thumb::Left => 1,
        Thumb::Right => 2,
    }
}

// The sign of an item by a lent table of faces, 0 for an empty face.
pub fn word_in(table: &[[u16; 3]; 31], item: Item) -> u16
    ensures { result ≡ word_in table.now item }
{
    match item {
        Item::Character(key, face) => code_point_in(table, key, face),
        Item::Mark(thumb) => mark_word(thumb),
        Item::Together(_, _, c) => c,
    }
}

// The sign of an item by the layout.
pub fn word(item: Item) -> u16
    ensures { sign_unless_0 result ≡ sign_of item }
{
    word_in(&faces(), item)
}
