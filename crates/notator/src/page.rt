// A place of a lent run, where text is added.
ghost use Rattle.std.specs.Prelude.{◌<◌, ◌≡◌, ◌++◌};
ghost use Rattle.status_line.specs.Decimal.{decimal};
ghost use Rattle.status_line.specs.Status.{status};
ghost use Rattle.notation.specs.Notation as notation;
ghost use Rattle.notator.specs.Adds.{Added};

// What is added stands at the place, which moves behind it. Where that does not fit, nothing is said of what the run holds.
#[derive(Drop)]
pub struct Page<'a> {
    pub run: &'a mut [u8],
    pub at: usize,
}

// A hexadecimal digit.
fn letter(digit: u16) -> u8
    requires { digit < 16 }
    ensures { result ≡ notation.letter digit }
{
    if digit < 10 {
        b'0' + digit as u8
    } else {
        b'A' + (digit - 10) as u8
    }
}

impl Page<'_> {
    pub fn bytes(&mut self, bytes: &[u8])
        ensures { Added bytes.now self.old self.new }
    {
        self.at = status_line::put_bytes(self.run, self.at, bytes);
    }

    pub fn number(&mut self, n: u64)
        ensures { Added (decimal n) self.old self.new }
    {
        self.at = status_line::put_number(self.run, self.at, n);
    }

    // `refused N at OFFSET`, or `waiting N`.
    pub fn status(&mut self, number: u64, waiting: u64, offset: u64)
        ensures { Added (status number waiting offset) self.old self.new }
    {
        self.at = status_line::put_status(self.run, self.at, number, waiting, offset);
    }

    // Some signs, and a number behind them.
    pub fn field(&mut self, signs: &[u8], n: u64)
        ensures { Added (signs.now ++ decimal n) self.old self.new }
    {
        self.bytes(signs);
        self.number(n);
    }

    // A number, and some signs behind it.
    pub fn number_and(&mut self, n: u64, signs: &[u8])
        ensures { Added (decimal n ++ signs.now) self.old self.new }
    {
        self.number(n);
        self.bytes(signs);
    }

    // A code point in four hexadecimal digits.
    #[tactic(auto, unfolding(notation::specs::Notation::code_point))]
    pub fn code_point(&mut self, c: u16)
        ensures { Added (notation.code_point c) self.old self.new }
    {
        self.bytes(&[
            letter(c / 16 / 16 / 16 % 16),
            letter(c / 16 / 16 % 16),
            letter(c / 16 % 16),
            letter(c % 16),
        ]);
    }
}
