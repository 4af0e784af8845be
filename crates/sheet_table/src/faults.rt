// What is wrong with a table.
ghost use Rattle.std.specs.Prelude.{◌≡◌, Some};
ghost use Rattle.std.specs.Option.{option_map};
ghost use Rattle.sheet_table.specs.Fields.{fault_of};
ghost use Rattle.sheet_table.specs.Faults.{column_name, fault_text, unreadable_text};

use std::fmt;
use text::NumberError;

// The faults of a field.
#[derive(Clone, Copy, Debug, PartialEq, Eq)]
pub enum Fault {
    // Not a number, or not a kind.
    NotNumber,
    // Too large for its field.
    TooLarge,
    // A field is missing, or there are too many.
    WrongFields,
    // Over 1,024 records.
    TooManyRecords,
}

// (Not one with journal's: each text has faults of its own.)
impl From<NumberError> for Fault {
    ghost from_gives = { λ error fault. fault ≡ fault_of error };

    fn from(error: NumberError) -> Fault {
        match error {
            NumberError::Over => Fault::TooLarge,
            NumberError::Bad => Fault::NotNumber,
        }
    }
}

// The first fault of a text, with its line and column, each counted from 1.
#[derive(Clone, Copy, Debug, PartialEq, Eq)]
pub struct Unreadable {
    pub line: usize,
    pub column: usize,
    pub fault: Fault,
}

impl Unreadable {
    // The name of its column, none past the last.
    #[tactic(auto, unfolding(crate::specs::Faults::size_name, crate::specs::Faults::field_name))]
    fn column_name(&self) -> Option<&'static str>
        ensures { option_map (λ name. name.now) result ≡ column_name self.now.line self.now.column }
    {
        match (self.line == 1, self.column) {
            (true, 1) => Some("interties"),
            (true, 2) => Some("holders"),
            (false, 1) => Some("kind"),
            (false, 2) => Some("holder"),
            (false, 3) => Some("intertie"),
            (false, 4) => Some("rank"),
            (false, 5) => Some("years"),
            (false, 6) => Some("kw"),
            _ => None,
        }
    }

    // What its fault means in a column that there is.
    fn reason(&self) -> &'static str
        ensures { result.now ≡ fault_text self.now.line self.now.column self.now.fault }
    {
        match self.fault {
            Fault::NotNumber if self.line != 1 && self.column == 1 => "not a kind",
            Fault::NotNumber => "not a number",
            Fault::TooLarge => "too large",
            Fault::WrongFields => "missing",
            Fault::TooManyRecords => "over 1,024 records",
        }
    }
}

// As `line 3, column 2 (holder): not a number`.
impl fmt::Display for Unreadable {
    ghost output = { λ unreadable. Some (unreadable_text unreadable) };

    fn fmt<W: fmt::Write>(&self, f: &mut fmt::Formatter<W>) -> fmt::Result {
        let (line, column) = (self.line, self.column);
        match self.column_name() {
            Some(name) => {
                let reason = self.reason();
                write!(f, "line {line}, column {column} ({name}): {reason}")
            }
            None => write!(f, "line {line}, column {column}: too many fields"),
        }
    }
}
