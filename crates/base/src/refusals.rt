// The refusals, each named here once; specs/Refusals has the same numbers. A call is refused with the lowest that applies, and
// 0 is no refusal.
ghost use Rattle.std.specs.Prelude.{◌≡◌};
ghost use Rattle.base.specs.Refused.{number_of};

// The refusals by their numbers.
#[derive(Clone, Copy, Debug, PartialEq, Eq)]
pub enum Refusal {
    // A sheet under 12 bytes, K over 1,024, or a length that is not 12 + 8·K.
    SheetLength = 1,
    // I or H out of range.
    Sizes = 2,
    // The records break a rule of the sheet.
    Records = 3,
    // Outside rights and existing contracts above a limit.
    AboveLimit = 4,
    // Lent memory too short, or lists of a share-out that do not match.
    Room = 5,
    // The state is not orderly.
    NotOrderly = 6,
    // The call is not of this stage.
    Stage = 7,
    // No such holder or intertie, or both parties one.
    NoSuch = 8,
    // KW, term, or a number of a share-out out of range.
    Range = 9,
    // More than unplaced, placed, or placed above locked.
    TooMuch = 10,
    // A day before the last taking's, or a third taking in the week.
    Day = 11,
    // A taking with nothing unassigned.
    NoneLeft = 12,
    // The pair has a lock, or three quarters are passed.
    Lock = 13,
    // Carry: other sizes than the state's, too many records, a rank over 255, or too short an output.
    Carry = 14,
}

impl Refusal {
    // The number by which the rules name a refusal.
    pub fn number(self) -> u32
        ensures { result ≡ number_of self }
    {
        self as u32
    }
}
