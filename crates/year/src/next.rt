// Next year's sheet, written by carry to the file that the third argument names.
ghost use Rattle.std.specs.Prelude.{◌+◌, ◌*◌, ◌≡◌, ltb, length, take};
ghost use Rattle.base.specs.Choice.{pick};
ghost use Rattle.base.specs.Limits.{sheet_header_bytes, record_bytes};
ghost use Rattle.sheet_records.specs.Sheet.{count};

use super::NEXT_SHEET;
use super::faults::Failure;
use base::limits::{MOST_SHEET_BYTES, RECORD_BYTES, SHEET_HEADER_BYTES, STATE_WORDS};
use sheet_records::words;
use std::fs;
use std::fs::OpenFile;
use std::io::{Error, ErrorKind, Write};
use std::rt::{Env, Files};

// Carries the year and writes next year's sheet. A refusal touches no file.
pub(super) fn write_next<R: Env + Files>(
    rt: &R,
    sheet: &[u8],
    state: &[u32; STATE_WORDS],
) -> Result<(), Failure> {
    let mut next = [0u8; MOST_SHEET_BYTES];
    carrying::carry(sheet, state, &mut next).map_err(Failure::NotCarried)?;
    write_argument(rt, sheet_in(&next))
}

// The sheet that bytes begin with: its 12 + 8·K bytes, or as many of them as there are. (Its length is read back from its
// bytes: carry answers kW and passes, as each call does for C, and no length.)
#[tactic(auto, using(lists::proofs::EncodedLaws::take_most))]
fn sheet_in(bytes: &[u8]) -> &[u8]
    ensures { let b = bytes.now in
        result.now ≡ take (sheet_header_bytes + record_bytes * pick (ltb (length b) sheet_header_bytes) 0 (count b)) b }
{
    let length = SHEET_HEADER_BYTES + RECORD_BYTES * (words::record_count(bytes) as usize);
    &bytes[..length.min(bytes.len())]
}

// Writes next year's sheet to the file that the third argument names.
fn write_argument<R: Env + Files>(rt: &R, sheet: &[u8]) -> Result<(), Failure> {
    let mut room = io::buffer();
    let name = input::argument(rt, NEXT_SHEET, &mut room).map_err(Failure::Name)?;
    write_file(rt, name, sheet).map_err(|error| Failure::File(NEXT_SHEET, error))
}

// Writes a file of that name, over the one that there is.
fn write_file(files: &impl Files, name: &[u8], bytes: &[u8]) -> Result<(), Error> {
    let mut file = fs::create(files, input::file_name(name)?)?;
    file.write_all(bytes)?;
    keep(&file)
}

// Has the system store what was written. What isn't stored, as a pipe, has nothing to keep.
fn keep(file: &impl OpenFile) -> Result<(), Error> {
    match file.sync_all() {
        Err(error) if error.kind() != ErrorKind::InvalidInput => Err(error),
        _ => Ok(()),
    }
}
