// What every program does: it reads a file whole, with room for a sheet, takes the names that it is called with, and says
// on standard error what went wrong.
#![tactic(auto)]

mod reason;

ghost use Rattle.std.specs.Prelude.{◌≡◌, ◌<◌, IfOk, IsErr, length, take};
ghost use Rattle.std.specs.Io.KnownBytes.{Consumes, IsAtEnd};
ghost use Rattle.io.specs.Counts.{IsPrefixLen};
ghost use Rattle.input.specs.Counts.{read_count};

use base::limits::MOST_SHEET_BYTES;
use reason::Reason;
use std::env::FillError;
use std::fs;
use std::io::Error;
use std::rt::{Env, Files};

// Room for the longest sheet and for one byte more, by which a longer file is told from it.
pub const SHEET_ROOM: usize = MOST_SHEET_BYTES + 1;

// The system's numbers of errors: there is no such argument, a name is too long, a name isn't text. (By number and not
// by `ErrorKind`: the system's text for the number is printed.)
const INVALID: i32 = 22;

const TOO_LONG: i32 = 36;

const NOT_TEXT: i32 = 84;

// A read that failed: how many bytes were read before it, and why.
#[derive(Drop)]
pub struct ReadError {
    pub count: usize,
    pub error: Error,
}

// Reads a file into the start of a buffer, to its end or as much as there is room for, and answers how many bytes that
// is. The bytes that were read, also before a read that fails, are those that the file began with, and no other is
// taken from it. (A while: each read says where the next begins. A count, as `read` answers it: the buffer is
// the caller's.)
pub fn read_whole<R: std::io::Read>(file: &mut R, buffer: &mut [u8]) -> Result<usize, ReadError>
    ensures within { IsPrefixLen (read_count result) buffer.new }
    ensures bytes { Consumes (R.remaining file.old) (R.remaining file.new) (take (read_count result) buffer.new) }
    ensures whole { IfOk result (λ count. count < length buffer.new → IsAtEnd (R.remaining file.new)) }
{
    let mut count = 0;
    while count < buffer.len() {
        match file.read(&mut buffer[count..]) {
            Ok(0) => break,
            Ok(n) => count += n,
            Err(error) => return Err(ReadError { count, error }),
        }
    }
    Ok(count)
}

// Reads the file of a name in the same way. Where it can't be opened, nothing is read.
pub fn read_file<F: Files>(files: &F, name: &[u8], buffer: &mut [u8]) -> Result<usize, ReadError>
    ensures within { IsPrefixLen (read_count result) buffer.new }
{
    read_opened(open(files, name), buffer)
}

// Reads a file that was opened, if it was. (Apart from `read_file`, and a match in place of `map_err` with `?`: so a clause can say
// that what wasn't opened is an error.)
fn read_opened<R: std::io::Read + Drop>(
    file: Result<R, Error>,
    buffer: &mut [u8],
) -> Result<usize, ReadError>
    ensures within { IsPrefixLen (read_count result) buffer.new }
    ensures unopened { IsErr file → IsErr result }
{
    match file {
        Ok(mut file) => read_whole(&mut file, buffer),
        Err(error) => Err(ReadError { count: 0, error }),
    }
}

fn open<F: Files>(files: &F, name: &[u8]) -> Result<F::File, Error> {
    fs::open(files, file_name(name)?)
}

// Whether the program was called with an argument of that number, its own name being argument 0.
pub fn has_argument(env: &impl Env, argument: usize) -> bool {
    !matches!(env.arg(argument, &mut []), Err(FillError::NotPresent))
}

// Puts an argument at the start of a buffer and answers it. One that isn't there or has no room is an error.
pub fn argument<'a>(
    env: &impl Env,
    argument: usize,
    buffer: &'a mut [u8],
) -> Result<&'a [u8], Error> {
    match env.arg(argument, buffer) {
        Ok(length) => Ok(&buffer[..length]),
        Err(FillError::NotPresent) => Err(Error::from_raw_os_error(INVALID)),
        Err(FillError::TooLong) => Err(Error::from_raw_os_error(TOO_LONG)),
    }
}

// The name of a file, which is text.
pub fn file_name(name: &[u8]) -> Result<&str, Error>
    ensures { IfOk result (λ text. text.now ≡ name.now) }
{
    str::from_utf8(name).map_err(|_| Error::from_raw_os_error(NOT_TEXT))
}

// Says a text on standard error.
pub fn say(stderr: &impl Print, text: &[u8]) {
    let _ = stderr.write_all(text);
}

// Says a line on standard error: what failed, as the caller names it, and why, as `name: No such file or directory`. (In pieces: a
// name is bytes that may be no text, which `println!` can't say.)
pub fn fail(stderr: &impl Print, what: &[u8], error: Error) {
    let reason = Reason::of(error);
    say(stderr, what);
    say(stderr, b": ");
    say(stderr, reason.text());
    say(stderr, b"\n");
}
