// Text on standard output.

use super::faults::Failure;

// Writes a text.
pub(super) fn write(stdout: &impl Print, text: &[u8]) -> Result<(), Failure> {
    stdout.write_all(text).map_err(Failure::Output)
}
