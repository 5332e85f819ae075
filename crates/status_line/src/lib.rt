// What the programs print below a line: `waiting N` or `refused N at OFFSET`, as text at a place of a lent run.
#![tactic(auto)]

ghost use Rattle.std.specs.Prelude.{◌+◌, ◌≤◌, ◌≡◌, length};
ghost use Rattle.filled.specs.Filled.{Stored};
ghost use Rattle.text.specs.Puts.{Puts};
ghost use Rattle.status_line.specs.Decimal.{decimal};
ghost use Rattle.status_line.specs.Status.{status, below};

pub use text::put_bytes;

// What was written of a log: so many bytes of text, and the number and the offset that stand in it.
#[derive(Clone, Copy)]
pub struct Printed {
    pub bytes: usize,
    pub number: u32,
    pub offset: usize,
}

// A number's digits at a place, as `put_bytes`. So the others.
#[tactic(auto, using(crate::proofs::Places::decimal_digits))]
pub fn put_number(out: &mut [u8], at: usize, n: u64) -> usize
    ensures puts { Puts at (decimal n) out.old result out.new }
    ensures upper_bound { result ≤ at + 20 }
{
    let mut digits = [0u8; 20];
    let k = io::decimal(n, &mut digits);
    put_bytes(out, at, &digits[..k])
}

// `waiting N` or `refused N at OFFSET` at the front of a run that has room for it.
fn spell(out: &mut [u8], number: u64, waiting: u64, offset: u64) -> usize
    requires { 52 ≤ length out.old }
    ensures stored { Stored 0 (status number waiting offset) out.old result out.new }
    ensures upper_bound { result ≤ 52 }
{
    if number == 0 {
        let behind = put_bytes(out, 0, b"waiting ");
        return put_number(out, behind, waiting);
    }
    let first = put_bytes(out, 0, b"refused ");
    let second = put_number(out, first, number);
    let third = put_bytes(out, second, b" at ");
    put_number(out, third, offset)
}

// `waiting N` or `refused N at OFFSET`: all of it, or nothing.
pub fn put_status(out: &mut [u8], at: usize, number: u64, waiting: u64, offset: u64) -> usize
    ensures puts { Puts at (status number waiting offset) out.old result out.new }
    ensures upper_bound { result ≤ at + 52 }
{
    let mut spelt = [0u8; 52];
    let n = spell(&mut spelt, number, waiting, offset);
    put_bytes(out, at, &spelt[..n])
}

// What follows a line, at the front of a run that has room for it.
fn spell_below(out: &mut [u8], number: u64, waiting: u64, offset: u64) -> usize
    requires { 54 ≤ length out.old }
    ensures stored { Stored 0 (below number waiting offset) out.old result out.new }
    ensures upper_bound { result ≤ 54 }
{
    let first = put_bytes(out, 0, b"\n");
    let second = put_status(out, first, number, waiting, offset);
    put_bytes(out, second, b"\n")
}

// What follows a line, a line end, the status and a line end: all of it, or nothing.
pub fn put_below(out: &mut [u8], at: usize, number: u64, waiting: u64, offset: u64) -> usize
    ensures puts { Puts at (below number waiting offset) out.old result out.new }
    ensures upper_bound { result ≤ at + 54 }
{
    let mut spelt = [0u8; 54];
    let n = spell_below(&mut spelt, number, waiting, offset);
    put_bytes(out, at, &spelt[..n])
}
