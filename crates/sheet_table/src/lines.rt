// The lines of a text: the sizes, then a record a line.
ghost use Rattle.std.specs.Prelude.{◌≡◌, ◌≤◌, ◌^◌, length, map, IfOk};
ghost use Rattle.text.specs.Pieces.{fields};
ghost use Rattle.text.specs.Left.{pieces_left};
ghost use Rattle.sheet_table.specs.Fields.{comma, sizes_in};
ghost use Rattle.sheet_table.specs.Lines.{bare, in_line, sizes_on, entry_of, entries_of};
ghost use Rattle.sheet_table.specs.Workers.Steps.{records_read};

use crate::faults::{Fault, Unreadable};
use crate::fields;
use crate::fields::{Flaw, Sizes};
use arrayvec::ArrayVec;
use base::limits::MOST_RECORDS;
use sheet_records::reader::Record;
use text::Pieces;

// A line without one carriage return at its end.
fn bare(line: &[u8]) -> &[u8]
    ensures { result.now ≡ bare line.now }
{
    if let Some(b'\r') = line.last() {
        &line[..line.len() - 1]
    } else {
        line
    }
}

// A flaw by the number of its line.
fn in_line(line: usize, flaw: Flaw) -> Unreadable
    ensures { result ≡ in_line line flaw }
{
    Unreadable {
        line,
        column: flaw.column,
        fault: flaw.fault,
    }
}

// Reads the first line.
pub(crate) fn read_first(line: &[u8]) -> Result<Sizes, Unreadable>
    ensures { result ≡ sizes_on (sizes_in (fields comma (bare line.now))) }
{
    fields::read_sizes(bare(line)).map_err(|flaw| in_line(1, flaw))
}

// Reads the line of a number after so many records. An empty line has no record.
fn read_line(line: &[u8], number: usize, count: usize) -> Result<Option<Record>, Unreadable>
    ensures { result ≡ entry_of number count (bare line.now) }
{
    let text = bare(line);
    if text.is_empty() {
        return Ok(None);
    }
    if MOST_RECORDS <= count {
        return Err(Unreadable {
            line: number,
            column: 1,
            fault: Fault::TooManyRecords,
        });
    }
    fields::read_entry(text)
        .map(Some)
        .map_err(|flaw| in_line(number, flaw))
}

// Records, as `write_sheet` takes them: a list of records would have to be split again.
#[derive(Drop)]
pub(crate) struct Records {
    pub keys: ArrayVec<u32, MOST_RECORDS>,
    pub kws: ArrayVec<u32, MOST_RECORDS>,
}

// Reads the lines past the first, up to the first fault.
pub(crate) fn read_lines(lines: Pieces) -> Result<Records, Unreadable>
    requires { length (pieces_left lines) ≤ 2 ^ 63 }
    ensures { (records_read result ≡ entries_of 2 0 (map bare (pieces_left lines.entry)))
        × IfOk result (λ read. length read.kws.items ≡ length read.keys.items) }
{
    let mut keys = ArrayVec::new();
    let mut kws = ArrayVec::new();
    for (place, line) in lines.enumerate() {
        if let Some(record) = read_line(line, place + 2, keys.len())? {
            keys.push(record.key);
            kws.push(record.kw);
        }
    }
    Ok(Records { keys, kws })
}
