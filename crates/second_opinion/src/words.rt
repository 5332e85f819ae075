// The words of a decision's items: as `keylog::words_of`, which the library must not call a second time, or what each event does would no
// longer stand in the reader's loop (docs/PERFORMANCE.md).
ghost use Rattle.std.specs.Prelude.{◌≡◌, ◌++◌};
ghost use Rattle.rules.specs.Items.{listed};
ghost use Rattle.rules.specs.ZeroDelay.{sign_unless_0, signs};

use keylog::Words;
use rules::Items;

// A word, 0 standing for none.
fn one(w: u16) -> Words
    ensures { listed result ≡ sign_unless_0 w }
{
    match w {
        0 => Words::None,
        _ => Words::One(w),
    }
}

fn two(v: u16, w: u16) -> Words
    ensures { listed result ≡ sign_unless_0 v ++ sign_unless_0 w }
{
    match (v, w) {
        (0, _) => one(w),
        (_, 0) => Words::One(v),
        _ => Words::Two(v, w),
    }
}

pub fn of_items(items: Items) -> Words
    ensures { listed result ≡ signs (listed items) }
{
    match items {
        Items::None => Words::None,
        Items::One(item) => one(layout::word(item)),
        Items::Two(item, other) => two(layout::word(item), layout::word(other)),
    }
}
