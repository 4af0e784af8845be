// The tables that the records fill. A record's slot goes by its kind, holder, intertie and rank, and is found for all of them
// before the first is added. Records of no kind, and those of kinds 4 to 6 with a holder from 32 up, share the last slot.
ghost use Rattle.std.specs.Prelude.{◌≡◌, ℕ, ◌<◌, ◌^◌, length, replicate, Ok};
ghost use Rattle.base.specs.Choice.{pick};
ghost use Rattle.base.specs.Words.{at};
ghost use Rattle.sheet_keys.specs.Key.{key_holders, key_interties, key_ranks};
ghost use Rattle.sheet_reading.specs.Headed.{headed};
ghost use Rattle.sheet_reading.specs.Tables.{slot, slot_of, slots, count_table, kw_table, intertie_table};
ghost use Rattle.sheet_reading.specs.Workers.Adding.{SlotsOf};

use crate::refusal::Headed;
use base::kinds::Kind;
use base::limits::MOST_RECORDS;
use base::limits::words::MOST_HOLDERS;
use sheet_keys::key;
use sheet_keys::key::Key;
use sheet_records::reader;

// A holder's row has a slot for each intertie that a key can name, or for each rank. (Here and in the crates above a row is cut by
// its place, as `EXISTING + HOLDER_INTERTIES * holder`, where one is read or something is written for each holder; where all are
// only read, `as_chunks` gives the rows.)
pub const HOLDER_INTERTIES: usize = key::INTERTIES;

pub const HOLDER_RANKS: usize = key::RANKS;

// Where the slots of a kind start, limits at 0: those of interties, of holders, or of 32 holders' rows.
pub const OUTSIDE: usize = 64;

pub const LOAD_SHARES: usize = 128;

pub const EXISTING: usize = 192;

pub const PRE_RA: usize = 2_240;

pub const NEW_USE: usize = 4_288;

// The slot of the rest.
const OTHER: u32 = 12_480;

// How many slots a table has.
pub const SLOTS: usize = 12_481;

// The tables of a sheet: how many records each slot has, their kilowatts, and their interties.
#[derive(Clone, Copy)]
pub struct Tables {
    pub counts: [u16; SLOTS],
    pub kw: [u64; SLOTS],
    pub interties: [u16; SLOTS],
}

impl Tables {
    // Tables of no records.
    pub fn empty() -> Tables
        ensures { (result.counts ≡ replicate slots 0) × (result.kw ≡ replicate slots 0) × (result.interties ≡ replicate slots 0) }
    {
        Tables {
            counts: [0; SLOTS],
            kw: [0; SLOTS],
            interties: [0; SLOTS],
        }
    }
}

// What a sheet that was read is looked up by: its tables, and how many interties and holders it has.
#[derive(Clone, Copy)]
pub struct Read<'a> {
    pub tables: &'a Tables,
    pub interties: usize,
    pub holders: usize,
}

// A choice without a branch: both numbers are at hand.
fn either(test: bool, one: u32, other: u32) -> u32
    ensures { result ≡ pick {A = ℕ} test one other }
{
    if test {
        return one;
    }
    other
}

// The slot of a record by its kind, holder, intertie and rank. (A comparison for each kind: by a match over `Kind` each record
// branches on its kind, and the slots of 1,024 records take 0.8 µs longer, a tenth of a refusal. Constants by kind, as rules.rt has,
// were tried in plain Rust: 3.7 µs, where the comparisons take 1.2 there. Casts: a key's fields have 32 bits, and places in tables
// are usize.)
fn slot(key: Key) -> u32
    requires { (key.holder < key_holders) × (key.intertie < key_interties) × (key.rank < key_ranks) }
    ensures { result ≡ slot key.kind key.holder key.intertie key.rank }
{
    let new_use = either(
        key.kind == Kind::NewUseCommitment.number(),
        NEW_USE as u32 + HOLDER_RANKS as u32 * key.holder + key.rank,
        OTHER,
    );
    let pre_ra = either(
        key.kind == Kind::PreRaCommitment.number(),
        PRE_RA as u32 + HOLDER_INTERTIES as u32 * key.holder + key.intertie,
        new_use,
    );
    let existing = either(
        key.kind == Kind::ExistingContract.number(),
        EXISTING as u32 + HOLDER_INTERTIES as u32 * key.holder + key.intertie,
        pre_ra,
    );
    let by_holder = either(MOST_HOLDERS <= key.holder, OTHER, existing);
    let load_share = either(
        key.kind == Kind::LoadShare.number(),
        LOAD_SHARES as u32 + key.holder,
        by_holder,
    );
    let outside = either(
        key.kind == Kind::OutsideRight.number(),
        OUTSIDE as u32 + key.intertie,
        load_share,
    );
    either(key.kind == Kind::Limit.number(), key.intertie, outside)
}

// The slot of a key.
fn slot_of(key: u32) -> u32
    ensures { result ≡ slot_of key }
{
    slot(Key::from(key))
}

// Finds the slot of each record and writes it into the room. (The room is the caller's: `Found` is handed on by value, and
// with the slots in it 4 KB would go along each time. By place, here and below: the laws of a record and its place serve
// all three walks.)
pub(crate) fn find_slots<'a>(headed: &'a Headed<'a>, room: &'a mut [u32; MOST_RECORDS]) -> Found<'a>
    ensures { result.sheet.now ≡ headed.now }
{
    let sheet = headed.sheet;
    for (place, record) in reader::records(sheet).enumerate() {
        room[place] = slot_of(record.key);
    }
    Found { sheet, slots: room }
}

// A sheet that refusals 1 and 2 let pass, with the slots of its records.
#[derive(Clone, Copy)]
pub(crate) struct Found<'a> {
    pub sheet: &'a [u8],
    slots: &'a [u32; MOST_RECORDS],
    ghost passed: { headed sheet.now ≡ Ok sheet.now },
    ghost bytes: { (i : ℕ) → at sheet.now i < 2 ^ 8 },
    ghost known: { SlotsOf sheet.now slots.now },
}

impl Found<'_> {
    // Counts each record in cleared tables and adds its kilowatts.
    pub(crate) fn add_records(self, counts: &mut [u16; SLOTS], kw: &mut [u64; SLOTS])
        requires { (counts.old ≡ replicate slots 0) × (kw.old ≡ replicate slots 0) }
        ensures { let sheet = self.entry.sheet.now in (counts.new ≡ count_table sheet) × (kw.new ≡ kw_table sheet) }
    {
        for (place, record) in reader::records(self.sheet).enumerate() {
            let slot = self.slots[place] as usize;
            counts[slot] += 1;
            kw[slot] += u64::from(record.kw);
        }
    }

    // Adds the intertie of each record to a cleared table.
    pub(crate) fn place_records(self, interties: &mut [u16; SLOTS])
        requires { interties.old ≡ replicate slots 0 }
        ensures { interties.new ≡ intertie_table self.entry.sheet.now }
    {
        for (place, record) in reader::records(self.sheet).enumerate() {
            interties[self.slots[place] as usize] += Key::from(record.key).intertie as u16;
        }
    }
}
