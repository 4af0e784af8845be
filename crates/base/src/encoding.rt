// A call of the year and its answer as words of a list: how many they are, and the kinds of call. Each is named here once;
// specs/Encoding has the same numbers.
ghost use Rattle.std.specs.Prelude.{◌≡◌};
ghost use Rattle.base.specs.CallKind.{number_of};
ghost use Rattle.base.specs.Encoding.{trade_call, lock_call};
ghost use Rattle.base.specs.Numbered.{Decodes};

use crate::numbered::Unnamed;

// The words of a call: its kind, three numbers, and the low and the high word of its kW.
pub const CALL_WORDS: usize = 6;

// The words of its answer: refusal, kW, passes.
pub const ANSWER_WORDS: usize = 3;

// The kinds of call by their numbers.
#[derive(Clone, Copy, Debug, PartialEq, Eq)]
pub enum CallKind {
    // Seller, buyer.
    Trade = 1,
    // Holder, intertie.
    Request = 2,
    // No number, no kW.
    Close = 3,
    // Holder, intertie, day.
    Take = 4,
    // Giver, taker, intertie.
    Move = 5,
    // Holder, intertie, term.
    Lock = 6,
}

impl CallKind {
    // The number by which a call's words name its kind.
    pub fn number(self) -> u32
        ensures { result ≡ number_of self }
    {
        self as u32
    }
}

impl TryFrom<u32> for CallKind {
    type Error = Unnamed;

    ghost try_from_gives = { Decodes number_of trade_call lock_call };

    fn try_from(number: u32) -> Result<CallKind, Unnamed> {
        match number {
            1 => Ok(CallKind::Trade),
            2 => Ok(CallKind::Request),
            3 => Ok(CallKind::Close),
            4 => Ok(CallKind::Take),
            5 => Ok(CallKind::Move),
            6 => Ok(CallKind::Lock),
            _ => Err(Unnamed),
        }
    }
}
