// What every crate stands on: each number and name of the rules in its one home (limits, refusals, kinds of record, stages,
// words of a call), the answer of a call, lists of numbers, and choices and sums for the specifications.
#![tactic(auto)]

pub mod encoding;
pub mod kinds;
pub mod limits;
pub mod numbered;
pub mod refusals;
pub mod stages;
pub mod vectors;

ghost use Rattle.std.specs.Prelude.{◌≡◌};
ghost use Rattle.base.specs.Answers.{refused, granted};
ghost use Rattle.base.specs.Refused.{answer_of};

use refusals::Refusal;

// The answer of a call: the number of a refusal, or 0; the kilowatts; the passes of share-outs. (C reads these three words; a
// call in Rattle answers a Result.)
#[repr(C)]
#[derive(Clone, Copy)]
pub struct Answer {
    pub refusal: u32,
    pub kw: u64,
    pub passes: u64,
}

impl Answer {
    // A refusal has 0 kW and 0 passes.
    pub fn refused(number: u32) -> Answer
        ensures { result ≡ refused number }
    {
        Answer {
            refusal: number,
            kw: 0,
            passes: 0,
        }
    }

    // Number 0, with the kW and the passes.
    pub fn granted(kw: u64, passes: u64) -> Answer
        ensures { result ≡ granted kw passes }
    {
        Answer {
            refusal: 0,
            kw,
            passes,
        }
    }
}

// What a granted call gives: the kilowatts, and the passes of share-outs.
#[derive(Clone, Copy, Debug, PartialEq, Eq)]
pub struct Granted {
    pub kw: u64,
    pub passes: u64,
}

// The answer that an outcome is for those who link the library.
impl From<Result<Granted, Refusal>> for Answer {
    ghost from_gives = { λ outcome answer. answer ≡ answer_of outcome };

    fn from(outcome: Result<Granted, Refusal>) -> Answer {
        match outcome {
            Ok(granted) => Answer::granted(granted.kw, granted.passes),
            Err(refusal) => Answer::refused(refusal.number()),
        }
    }
}
