// Where a byte of a text stands.
ghost use Rattle.std.specs.Prelude.{◌+◌, ◌≤◌, ◌<◌, ◌≡◌};
ghost use Rattle.transcriber.specs.Places as places;

// Lines and the bytes of a line are counted from 1.
#[derive(Clone, Copy)]
pub struct Place {
    pub line: usize,
    pub column: usize,
}

// Behind one byte more.
fn moved(place: Place, b: u8) -> Place
    requires line_bound { place.line < 18446744073709551615 }
    requires column_bound { place.column < 18446744073709551615 }
    ensures value { result ≡ places.moved place b }
    ensures line_bound_2 { result.line ≤ place.line + 1 }
    ensures column_bound_2 { result.column ≤ place.column + 1 }
{
    if b == b'\n' {
        return Place {
            line: place.line + 1,
            column: 1,
        };
    }
    Place {
        column: place.column + 1,
        ..place
    }
}

// The place behind a text: that of the next byte.
#[tactic(auto, unfolding(crate::specs::Places::behind))]
pub fn place_behind(text: &[u8]) -> Place
    ensures { result ≡ places.behind text.now }
{
    let mut place = Place { line: 1, column: 1 };
    for b in text {
        place = moved(place, *b);
    }
    place
}
