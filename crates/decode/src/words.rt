// The words of some bytes, one by one.
ghost use Rattle.std.specs.Prelude.{◌-◌, length};
ghost use Rattle.std.specs.Iterator.{at_most};
ghost use Rattle.decode.specs.Words.{Gives};

use crate::DecodeError;
use crate::sequence::front;

// The words from a position on. Where the bytes there are damaged, that is said instead, and nothing comes after it.
#[derive(Drop)]
pub struct Words<'a> {
    pub bytes: &'a [u8],
    pub at: usize,
}

impl<'a> Iterator for Words<'a> {
    type Item = Result<u16, DecodeError>;

    ghost next_gives = { Gives };

    ghost remaining = { λ w. at_most (length w.bytes.now - w.at) };

    fn next(&mut self) -> Option<Result<u16, DecodeError>> {
        let at = self.at;
        if self.bytes.len() <= at {
            return None;
        }
        match front(&self.bytes[at..]) {
            Some(sequence) => {
                self.at = at + sequence.more + 1;
                Some(Ok(sequence.word))
            }
            None => {
                self.at = self.bytes.len();
                Some(Err(DecodeError::Damaged(at)))
            }
        }
    }
}
