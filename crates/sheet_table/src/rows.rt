// The lines of a table, put one after the other.
ghost use Rattle.std.specs.Prelude.{◌≡◌, false, ◌∷◌, [], ◌++◌, ◌≤◌, length};
ghost use Rattle.text.specs.Decimal.{decimal};
ghost use Rattle.text.specs.Written.{appended};
ghost use Rattle.text.specs.Lines.{line_of};
ghost use Rattle.sheet_records.specs.Sheet.{count};
ghost use Rattle.sheet_records.specs.Refusal.{bad_length};
ghost use Rattle.sheet_table.specs.Fields.{comma};
ghost use Rattle.sheet_table.specs.Workers.Steps.{sizes_bytes, table_bytes};
ghost use Rattle.sheet_table.specs.Table.{row_of, rows_of};

use crate::{TABLE_BYTES, kinds};
use arrayvec::ArrayVec;
use base::kinds::Kind;
use itoa::Buffer;
use sheet_keys::key::Key;
use sheet_records::reader;
use sheet_records::reader::Record;
use text::put_line;

// I and H.
pub(crate) fn put_sizes(interties: u32, holders: u32, table: &mut ArrayVec<u8, TABLE_BYTES>)
    ensures { let line = line_of (decimal interties) comma (holders ∷ []) in
        table.new.items ≡ appended table_bytes line table.old.items }
{
    let mut digits = Buffer::new();
    let label = digits.format(interties).as_bytes();
    put_line(label, b',', &[u64::from(holders)], table);
}

// The line of a record.
fn put_row(row: Record, table: &mut ArrayVec<u8, TABLE_BYTES>)
    ensures { table.new.items ≡ appended table_bytes (row_of row.key row.kw) table.old.items }
{
    let key = Key::from(row.key);
    let figures = [
        u64::from(key.holder),
        u64::from(key.intertie),
        u64::from(key.rank),
        u64::from(key.years),
        u64::from(row.kw),
    ];
    if let Ok(kind) = Kind::try_from(key.kind) {
        put_line(kinds::name(kind), b',', &figures, table);
        return;
    }
    let mut digits = Buffer::new();
    put_line(digits.format(key.kind).as_bytes(), b',', &figures, table);
}

// The lines of all records.
pub(crate) fn put_rows(sheet: &[u8], table: &mut ArrayVec<u8, TABLE_BYTES>)
    requires { (bad_length sheet.now ≡ false) × (length table.old.items ≤ sizes_bytes) }
    ensures { let s = sheet.now in
        table.new.items ≡ table.old.items ++ rows_of s (count s) }
{
    for record in reader::records(sheet) {
        put_row(record, table);
    }
}
