// A draft of next year's sheet, made before a byte of it is written: what goes on of the old sheet, then the locks.
ghost use Rattle.std.specs.Prelude.{◌≡◌, false, List, [], ◌++◌, ◌+◌, ◌*◌, ◌≤◌, ◌<◌, length};
ghost use Rattle.base.specs.Choice.{pick};
ghost use Rattle.base.specs.Limits.{most_holders, most_interties, most_records, most_rank};
ghost use Rattle.sheet_keys.specs.Key.{key_holders};
ghost use Rattle.sheet_records.specs.Sheet.{count, size_of};
ghost use Rattle.sheet_records.specs.Bytes.{sheet_bytes, with_sheet};
ghost use Rattle.sheet_records.specs.Refusal.{bad_length};
ghost use Rattle.state.specs.Layout.{interties, holders};
ghost use Rattle.carrying.specs.NextRecord.{NextRecord};
ghost use Rattle.carrying.specs.NextRecords.{kept_of, kept, with_lock, with_locks_of, with_locks};
ghost use Rattle.carrying.specs.Carry.{does_not_fit};
ghost use Rattle.carrying.specs.Workers.Draft.{places, with_record, DraftOf, Adds};

use crate::key;
use base::kinds::Kind;
use base::limits::{MOST_PAIRS, MOST_RANK, MOST_RECORDS, RECORD_BYTES, SHEET_HEADER_BYTES};
use sheet_keys::key::{HOLDERS, Key};
use sheet_records::reader::Record;
use sheet_records::{reader, writing};
use state::layout;
use std::marker::Model;

// The places of a draft: those of 1,024 old records, and of a lock for each pair.
const PLACES: usize = MOST_RECORDS + MOST_PAIRS;

// A draft: the keys of its records, their quantities, how many there are, and each holder's highest rank among them. Keys and
// quantities are two arrays, since the bytes of a sheet have them so; the count stands beside them, since a record is written
// before it is known whether it counts.
#[derive(Drop)]
pub(crate) struct Draft {
    keys: [u32; PLACES],
    kws: [u32; PLACES],
    ranks: [u32; HOLDERS],
    count: usize,
}

impl Model for Draft {
    ghost use Rattle.carrying.specs.Workers.Draft.{Drafted, Tables, shown};

    ghost Value = { Drafted };

    ghost view = { λ d. shown d.keys d.kws d.ranks d.count };

    ghost invariant = { λ d. Tables d.keys d.kws d.ranks d.count };
}

impl Draft {
    // A draft of no records.
    #[tactic(auto, using(crate::proofs::DraftLaws::no_tables, crate::proofs::DraftLaws::draft_none))]
    pub(crate) fn new() -> Draft
        ensures { DraftOf [] result }
    {
        Draft {
            keys: [0; PLACES],
            kws: [0; PLACES],
            ranks: [0; HOLDERS],
            count: 0,
        }
    }

    // Writes a record after the others, and counts it and its rank if it is one that goes on. Both ways do the same, since a
    // branch would be taken at random. (Holder and rank beside the key, since a lock's rank may be more than a key can say.)
    fn put(&mut self, on: bool, key: u32, kw: u32, holder: usize, rank: u32)
        requires { (length self.old.keys < places) × (holder < key_holders) × (rank ≤ most_rank + length self.old.keys + 1) }
        ensures { self.new ≡ pick on (with_record key kw holder rank self.old) self.old }
    {
        let place = self.count;
        self.keys[place] = key;
        self.kws[place] = kw;
        let highest = self.ranks[holder];
        self.ranks[holder] = if on { highest.max(rank) } else { highest };
        self.count = place + usize::from(on);
    }

    // Drafts a record of the old sheet, if it goes on.
    fn keep(&mut self, old_record: Record)
        requires { length self.old.keys < places }
        ensures { Adds (λ (records : List NextRecord). records ++ kept_of old_record.key old_record.kw) self.old self.new }
    {
        self.put(
            key::goes_on(old_record.key),
            key::next_key(old_record.key),
            old_record.kw,
            Key::from(old_record.key).holder as usize,
            key::new_use_rank(old_record.key),
        );
    }

    // Drafts what goes on of a sheet that refusal 1 lets pass.
    pub(crate) fn keep_records(&mut self, sheet: &[u8])
        requires { (bad_length sheet.now ≡ false) × DraftOf [] self.old }
        ensures { DraftOf (kept sheet.now (count sheet.now)) self.new }
    {
        for record in reader::records(sheet) {
            self.keep(record);
        }
    }

    // Drafts the lock of a pair, if it has one. (Here and below a contract says that numbers and sizes are in range: a state is words that
    // C lends, and the types that say so of one, orderly's `Rows` and weights' `Holders`, are private to their crates.)
    fn add_lock(&mut self, state: &[u32], holder: u32, intertie: u32)
        requires { (holder < most_holders) × (intertie < most_interties)
            × (length self.old.keys ≤ most_records + most_interties * holder + intertie) }
        ensures { (length self.new.keys ≤ length self.old.keys + 1)
            × Adds (with_lock state.now holder intertie) self.old self.new }
    {
        let locked = state::pair_word(state, layout::LOCKED, holder, intertie);
        if locked == 0 {
            return;
        }
        let term = state::pair_word(state, layout::TERM, holder, intertie);
        let rank = self.ranks[holder as usize] + 1;
        let key = u32::from(Key {
            kind: Kind::NewUseCommitment.number(),
            holder,
            intertie,
            rank,
            years: term,
        });
        self.put(true, key, locked, holder as usize, rank);
    }

    // The locks of a holder, by intertie.
    fn add_holder_locks(&mut self, state: &[u32], holder: u32)
        requires { (holder < most_holders) × (interties state.now ≤ most_interties)
            × (length self.old.keys ≤ most_records + most_interties * holder) }
        ensures { (length self.new.keys ≤ most_records + most_interties * (holder + 1))
            × Adds (with_locks_of state.now holder (interties state.now)) self.old self.new }
    {
        for intertie in 0..state::intertie_count(state) {
            self.add_lock(state, holder, intertie);
        }
    }

    // All locks, by holder.
    pub(crate) fn add_locks(&mut self, state: &[u32])
        requires { (interties state.now ≤ most_interties) × (holders state.now ≤ most_holders)
            × (length self.old.keys ≤ most_records) }
        ensures { Adds (with_locks state.now (holders state.now)) self.old self.new }
    {
        for holder in 0..state::holder_count(state) {
            self.add_holder_locks(state, holder);
        }
    }

    // Whether a draft is no sheet: over 1,024 records, a rank over 255, or an output that is too short.
    pub(crate) fn does_not_fit(&self, holders: usize, room: usize) -> bool
        requires { holders ≤ most_holders }
        ensures { (records : List NextRecord) → DraftOf records self.now → result ≡ does_not_fit holders records room }
    {
        (MOST_RECORDS < self.count)
            | self.ranks[..holders].iter().any(|rank| MOST_RANK < *rank)
            | (room < SHEET_HEADER_BYTES + RECORD_BYTES * self.count)
    }

    // Writes a draft that fits as a sheet. (What `write_sheet` answers is never none: there is room.)
    pub(crate) fn write(&self, interties: u32, holders: u32, output: &mut [u8])
        requires { (length self.now.keys ≤ most_records) × (size_of (length self.now.keys) ≤ length output.old) }
        ensures { output.new ≡ with_sheet (sheet_bytes interties holders self.now.keys self.now.kws) output.old }
    {
        writing::write_sheet(
            interties,
            holders,
            &self.keys[..self.count],
            &self.kws[..self.count],
            output,
        );
    }
}
