// A reader over the lent bytes of a sheet: an iterator that gives its records in their order. It leaves the work to
// `read_at`, which finds the record at a place of a plain slice.
ghost use Rattle.std.specs.Prelude.{◌≡◌};
ghost use Rattle.std.specs.Iterator.{YieldsFirst, item_count};
ghost use Rattle.sheet_records.specs.Reading.{read_of, records_of};

use crate::words;
use crate::words::KEYS_AT;
use base::limits::{MOST_RECORDS, RECORD_BYTES, SHEET_HEADER_BYTES};
use std::marker::Model;

// A record: its key, and its quantity in kilowatts.
#[derive(Clone, Copy, Debug, PartialEq, Eq)]
pub struct Record {
    pub key: u32,
    pub kw: u32,
}

// The record at a place of the bytes of a sheet of `count` records, or none past the last; bytes of another length have none.
#[tactic(auto, using(crate::proofs::ReadingLaws::reading))]
pub fn read_at(sheet: &[u8], count: usize, place: usize) -> Option<Record>
    ensures { result ≡ read_of sheet.now count place }
{
    if MOST_RECORDS < count {
        return None;
    }
    if sheet.len() != SHEET_HEADER_BYTES + RECORD_BYTES * count {
        return None;
    }
    if count <= place {
        return None;
    }
    let key = words::word(sheet, KEYS_AT + place);
    let kw = words::word(sheet, KEYS_AT + count + place);
    Some(Record { key, kw })
}

// Where a walk over the records of a sheet stands: the sheet, how many records it has, and the place of the next.
#[derive(Clone, Copy)]
pub struct Reader<'a> {
    pub sheet: &'a [u8],
    pub count: usize,
    pub place: usize,
}

// A walk over records, seen as the list of those that are left: from where its reader stands to the last. (Not the reader
// itself: what is seen as a list can't be copied.)
#[derive(Drop)]
pub struct Walk<'a> {
    reader: Reader<'a>,
}

impl<'a> Model for Walk<'a> {
    ghost use Rattle.std.specs.Prelude.{List};
    ghost use Rattle.sheet_records.specs.Reading.{records_from};
    ghost use Rattle.sheet_records.specs.declared.reader.Record.{Record};

    ghost Value = { List Record };

    ghost view = { λ walk. records_from walk.reader.sheet.now walk.reader.count walk.reader.place };
}

// The records of a sheet from the first on. A sheet that refusal 1 refuses has none.
#[tactic(auto, using(crate::proofs::ReadingLaws::first))]
pub fn records<'a>(sheet: &'a [u8]) -> Walk<'a>
    ensures { result ≡ records_of sheet.now }
{
    Walk {
        reader: Reader {
            sheet,
            count: words::record_count(sheet) as usize,
            place: 0,
        },
    }
}

impl<'a> Iterator for Walk<'a> {
    type Item = Record;

    ghost next_gives = { YieldsFirst (λ left. left) };

    ghost remaining = { item_count (λ left. left) };

    fn next(&mut self) -> Option<Record> {
        let reader = self.reader;
        let record = read_at(reader.sheet, reader.count, reader.place)?;
        self.reader.place = reader.place + 1;
        Some(record)
    }
}
