// Why something failed, as the system words it.
use arrayvec::ArrayVec;
use std::fmt;
use std::fmt::Write;
use std::io::Error;

// The longest text that is said of a failure.
const ROOM: usize = 320;

// Its text, as much of it as there is room for.
#[derive(Drop)]
pub(super) struct Reason {
    text: ArrayVec<u8, ROOM>,
}

impl Reason {
    // An error of the system's is written as `No such file or directory (os error 2)`: the number is left out.
    pub(super) fn of(error: Error) -> Reason {
        let mut reason = Reason {
            text: ArrayVec::new(),
        };
        let _ = reason.write(error);
        if error.raw_os_error().is_some() {
            reason.drop_number();
        }
        reason
    }

    pub(super) fn text(&self) -> &[u8] {
        self.text.as_slice()
    }

    // Ends the text before its last ` (`.
    fn drop_number(&mut self) {
        if let Some(at) = self.text().iter().rposition(|b| *b == b'(') {
            self.text.truncate(at.saturating_sub(1));
        }
    }
}

// (Byte by byte: a text without room is cut, and not left out.)
impl Write for Reason {
    fn write_str(&mut self, s: &str) -> fmt::Result {
        for b in s.as_bytes() {
            self.text.try_push(*b).map_err(|_| fmt::Error)?;
        }
        Ok(())
    }
}
