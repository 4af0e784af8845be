// Files by the names that the arguments give.
ghost use Rattle.std.specs.Prelude.{◌≤◌, IfOk, length};

use super::faults::Failure;
use input::say;
use std::rt::{Env, Files};

// Reads the file that an argument names into the start of a buffer, and answers what was read: the whole file, or as much
// as there is room for.
pub(super) fn read_argument<'a, R: Env + Files>(
    rt: &R,
    argument: usize,
    buffer: &'a mut [u8],
) -> Result<&'a [u8], Failure>
    ensures { IfOk result (λ read. length read.now ≤ length buffer.old) }
{
    let mut room = io::buffer();
    let name = input::argument(rt, argument, &mut room).map_err(Failure::Name)?;
    let count = input::read_file(rt, name, buffer).map_err(|failed| Failure::File(
        argument,
        failed.error,
    ))?;
    Ok(&buffer[..count])
}

// Writes the name that an argument gives to standard error.
pub(super) fn print_name(env: &impl Env, stderr: &impl Print, argument: usize) {
    let mut room = io::buffer();
    if let Ok(name) = input::argument(env, argument, &mut room) {
        say(stderr, name);
    }
}
