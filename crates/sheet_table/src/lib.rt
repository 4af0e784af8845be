// A sheet as comma-separated text, and back. Line 1 has I and H; each later line that is not empty
// has a record's kind, holder, intertie, rank, years and kilowatts.
#![tactic(auto)]

mod faults;
mod fields;
mod kinds;
mod lines;
mod rows;

ghost use Rattle.std.specs.Prelude.{◌≡◌, Some, None};
ghost use Rattle.std.specs.Option.{option_map};
ghost use Rattle.std.specs.Result.{result_map_both};
ghost use Rattle.base.specs.Choice.{pick};
ghost use Rattle.sheet_records.specs.Refusal.{bad_length};
ghost use Rattle.sheet_table.specs.Lines.{sheet_of};
ghost use Rattle.sheet_table.specs.Table.{table_of};

use arrayvec::ArrayVec;
use base::limits::MOST_RECORDS;
pub use base::limits::MOST_SHEET_BYTES;
pub use faults::{Fault, Unreadable};
use sheet_records::{words, writing};

// The longest line of sizes, the longest line of a record, and the longest text of a sheet.
const SIZES_BYTES: usize = 22;

const ROW_BYTES: usize = 34;

pub const TABLE_BYTES: usize = SIZES_BYTES + ROW_BYTES * MOST_RECORDS;

// The bytes of the sheet that a text says. The rules of the sheet are not judged.
pub fn to_sheet(text: &[u8]) -> Result<ArrayVec<u8, MOST_SHEET_BYTES>, Unreadable>
    ensures { result_map_both (λ sheet. sheet.items) (λ unreadable. unreadable) result ≡ sheet_of text.now }
{
    let mut lines = text::split(text, b'\n');
    let first = lines.next().unwrap_or(&[]);
    let sizes = lines::read_first(first)?;
    let records = lines::read_lines(lines)?;
    let mut bytes = [0u8; MOST_SHEET_BYTES];
    // (Never none: there are at most 1,024 records, and room for them.)
    let count = writing::write_sheet(
        sizes.interties,
        sizes.holders,
        records.keys.as_slice(),
        records.kws.as_slice(),
        &mut bytes,
    )
    .unwrap_or(0);
    let mut sheet = ArrayVec::from(bytes);
    sheet.truncate(count);
    Ok(sheet)
}

// The text of a sheet; none for bytes that refusal 1 refuses.
pub fn to_table(sheet: &[u8]) -> Option<ArrayVec<u8, TABLE_BYTES>>
    ensures { let s = sheet.now in
        option_map (λ table. table.items) result ≡ pick (bad_length s) None (Some (table_of s)) }
{
    if words::bad_length(sheet) {
        return None;
    }
    let interties = words::intertie_count(sheet);
    let holders = words::holder_count(sheet);
    let mut table = ArrayVec::new();
    rows::put_sizes(interties, holders, &mut table);
    rows::put_rows(sheet, &mut table);
    Some(table)
}
