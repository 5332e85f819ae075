// A transcriber, and how many bytes of the log there are so far.
ghost use Rattle.std.specs.Prelude.{◌+◌, ◌≡◌, IfOk};
ghost use Rattle.transcriber.specs.Sizes as sizes;

use crate::steps::{start, step};
use keylog::HEADER_SIZE;
use notation::{Expected, Output, Progress};

// The bytes of whole records, and those of the body of the record that is not whole.
#[derive(Clone, Copy)]
pub struct State {
    pub progress: Progress,
    pub records: usize,
    pub body: usize,
}

// A body's length is told in two bytes.
const LONGEST_BODY: usize = u16::MAX as usize;

impl State {
    pub fn begin() -> State
        ensures { result ≡ sizes.begin }
    {
        State {
            progress: start(),
            records: 0,
            body: 0,
        }
    }

    // The sizes with what a byte adds.
    fn with_output(self, output: Output) -> Result<State, Expected>
        requires { sizes.Small self }
        ensures value { result ≡ sizes.with_output self output }
        ensures slow { IfOk result (sizes.Slow (self.records + self.body)) }
    {
        match output {
            Output::Nothing => Ok(self),
            Output::Push(number) => Ok(State {
                body: self.body + number.width as usize,
                ..self
            }),
            Output::Last(_, number) => {
                let body = self.body + number.width as usize;
                if LONGEST_BODY < body {
                    return Err(Expected::FewerPairs);
                }
                Ok(State {
                    records: self.records + HEADER_SIZE + body,
                    body: 0,
                    ..self
                })
            }
        }
    }

    // One byte of the text.
    #[tactic(auto, unfolding(crate::specs::Sizes::advanced))]
    pub fn advance(self, b: u8) -> Result<(State, Output), Expected>
        requires { sizes.Small self }
        ensures value { result ≡ sizes.advanced self b }
        ensures slow { IfOk result (λ r. sizes.Slow (self.records + self.body) r.0) }
    {
        let (progress, output) = step(self.progress, b)?;
        let state = State { progress, ..self }.with_output(output)?;
        Ok((state, output))
    }
}
