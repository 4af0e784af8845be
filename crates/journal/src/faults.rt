// Why a line of a journal can't be read.
ghost use Rattle.std.specs.Prelude.{◌≡◌, Some};
ghost use Rattle.journal.specs.Faults.{fault_of, fault_text, unreadable_text};

use std::fmt;
use text::NumberError;

// The faults of a line.
#[derive(Clone, Copy, Debug, PartialEq, Eq)]
pub enum Fault {
    // Its first word is not the name of a call.
    NotACall,
    // Too few or too many numbers, or a word that is no number.
    BadNumbers,
    // A number over 32 bits.
    Over32Bits,
    // No room for one more call.
    TooManyCalls,
}

// (Not one with sheet_table's: each text has faults of its own.)
impl From<NumberError> for Fault {
    ghost from_gives = { λ error fault. fault ≡ fault_of error };

    fn from(error: NumberError) -> Fault {
        match error {
            NumberError::Over => Fault::Over32Bits,
            NumberError::Bad => Fault::BadNumbers,
        }
    }
}

// As program `year` says them.
impl fmt::Display for Fault {
    ghost output = { λ fault. Some (fault_text fault) };

    fn fmt<W: fmt::Write>(&self, f: &mut fmt::Formatter<W>) -> fmt::Result {
        f.write_str(match self {
            Fault::NotACall => "not a call",
            Fault::BadNumbers => "a number is missing, is one too many or can't be read",
            Fault::Over32Bits => "a number over 32 bits",
            Fault::TooManyCalls => "more than 16,384 calls",
        })
    }
}

// The first line that can't be read, counted from 1, and why.
#[derive(Clone, Copy, Debug, PartialEq, Eq)]
pub struct Unreadable {
    pub line: usize,
    pub fault: Fault,
}

// As `line 3: not a call`.
impl fmt::Display for Unreadable {
    ghost output = { λ unreadable. Some (unreadable_text unreadable) };

    fn fmt<W: fmt::Write>(&self, f: &mut fmt::Formatter<W>) -> fmt::Result {
        write!(f, "line {}: {}", self.line, self.fault)
    }
}
