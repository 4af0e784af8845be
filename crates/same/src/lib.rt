// Same: whether two sheets open to the same year (docs/RULES.md, "Beside the year").
#![tactic(auto)]

ghost use Rattle.std.specs.Prelude.{◌≡◌};
ghost use Rattle.same.specs.Same.{verdict_of, compared};

use base::limits::STATE_WORDS;
use base::refusals::Refusal;

// A refusal's number, or 0 and whether the sheets open alike. No kW, no passes. (C reads these words; a call in Rattle
// answers a Result.)
#[repr(C)]
#[derive(Clone, Copy)]
pub struct Verdict {
    pub refusal: u32,
    pub same: bool,
    pub kw: u64,
    pub passes: u64,
}

// The verdict that an outcome is for those who link the library.
impl From<Result<bool, Refusal>> for Verdict {
    ghost from_gives = { λ outcome verdict. verdict ≡ verdict_of outcome };

    fn from(outcome: Result<bool, Refusal>) -> Verdict {
        match outcome {
            Ok(alike) => Verdict {
                refusal: 0,
                same: alike,
                kw: 0,
                passes: 0,
            },
            Err(refusal) => Verdict {
                refusal: refusal.number(),
                same: false,
                kw: 0,
                passes: 0,
            },
        }
    }
}

// Says whether two sheets open to equal states, or refuses the first or the second.
pub fn same(first: &[u8], second: &[u8]) -> Result<bool, Refusal>
    ensures { verdict_of result ≡ compared first.now second.now }
{
    let mut one = [0u32; STATE_WORDS];
    opening::open(first, &mut one)?;
    let mut other = [0u32; STATE_WORDS];
    opening::open(second, &mut other)?;
    Ok(one == other)
}
