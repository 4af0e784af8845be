// Refusals 1 to 4 of a sheet, lowest first, and the tables of the sheet.
ghost use Rattle.std.specs.Prelude.{◌≡◌, ◌≤◌, ◌<◌, length, replicate, Ok};
ghost use Rattle.base.specs.Limits.{most_holders};
ghost use Rattle.base.specs.Sums.{all_to};
ghost use Rattle.base.specs.Words.{at};
ghost use Rattle.sheet_keys.specs.Key.{key_interties};
ghost use Rattle.base.specs.Refused.{number_in};
ghost use Rattle.sheet_records.specs.Refusal.{within, sheet_refusal};
ghost use Rattle.sheet_reading.specs.Headed.{headed};
ghost use Rattle.sheet_reading.specs.Tables.{slots, count_table, kw_table, ReadSheet};
ghost use Rattle.sheet_reading.specs.Workers.Deciding.{table_rules_hold, table_existing_on, table_limit_holds, Modest};

use crate::tables::{Found, HOLDER_INTERTIES, SLOTS, Tables};
use crate::{rules, tables};
use base::limits;
use base::limits::MOST_RECORDS;
use base::refusals::Refusal;
use sheet_records::words;
use std::marker::Model;

// A sheet that refusals 1 and 2 let pass: its length is that of its records, and I and H are in range. A clause sees its bytes.
#[derive(Drop)]
pub struct Headed<'a> {
    pub(crate) sheet: &'a [u8],
}

impl<'a> Model for Headed<'a> {
    ghost use Rattle.std.specs.Prelude.{◌≡◌, ◌<◌, ◌^◌, ℕ, List, Ok};
    ghost use Rattle.base.specs.Words.{at};
    ghost use Rattle.sheet_reading.specs.Headed.{headed};

    ghost Value = { List ℕ };

    ghost view = { λ h. h.sheet.now };

    ghost invariant = { λ h. (headed h.sheet.now ≡ Ok h.sheet.now) × ((i : ℕ) → at h.sheet.now i < 2 ^ 8) };
}

impl<'a> Headed<'a> {
    // Refusals 1 and 2, those of the length and of I and H.
    pub fn of(sheet: &'a [u8]) -> Result<Headed<'a>, Refusal>
        ensures { result ≡ headed sheet.now }
    {
        if words::bad_length(sheet) {
            return Err(Refusal::SheetLength);
        }
        if !limits::sizes_in_range(words::intertie_count(sheet), words::holder_count(sheet)) {
            return Err(Refusal::Sizes);
        }
        Ok(Headed { sheet })
    }
}

// Whether each of these slots counts from LEAST to MOST records. All of them are looked at, so that no branch stands between
// them: `all` would have one. (A loop: `fold` with & was tried, and of a closure over const parameters the check found nothing.)
fn counts_within<const LEAST: u16, const MOST: u16>(counts: &[u16]) -> bool
    ensures { result ≡ all_to (length counts.now) (λ i. within LEAST MOST (at counts.now i)) }
{
    let mut hold = true;
    for count in counts {
        hold = hold & (LEAST..=MOST).contains(count);
    }
    hold
}

// What refusals 3 and 4 are decided from: how many records each slot has, their kilowatts, and I and H.
#[derive(Clone, Copy)]
struct Filled<'a> {
    counts: &'a [u16; SLOTS],
    kw: &'a [u64; SLOTS],
    interties: usize,
    holders: usize,
    ghost few_holders: { holders ≤ most_holders },
    ghost few_interties: { interties ≤ key_interties },
    ghost modest: { Modest kw.now },
}

impl Filled<'_> {
    // The existing contracts of all holders on an intertie.
    fn existing_on(self, intertie: usize) -> u64
        requires { intertie < key_interties }
        ensures { result ≡ table_existing_on self.entry.kw.now self.entry.holders intertie }
    {
        let kw = self.kw;
        let (rows, _) = kw[tables::EXISTING..].as_chunks::<HOLDER_INTERTIES>();
        let mut sum = 0;
        for row in &rows[..self.holders] {
            sum += row[intertie];
        }
        sum
    }

    // Whether outside rights and existing contracts fit into an intertie's limit.
    fn limit_holds(self, intertie: usize) -> bool
        requires { intertie < key_interties }
        ensures { result ≡ table_limit_holds self.entry.kw.now self.entry.holders intertie }
    {
        self.kw[tables::OUTSIDE + intertie] + self.existing_on(intertie) <= self.kw[intertie]
    }

    // Whether they fit on each intertie. All interties are looked at, so that no branch stands between them. (Beside
    // orderly's `all_of`: one home for both would be public, and a public function has no `requires`, which one that takes a test has.)
    fn limits_hold(self) -> bool
        ensures { result ≡ all_to self.entry.interties (table_limit_holds self.entry.kw.now self.entry.holders) }
    {
        let mut hold = true;
        for i in 0..self.interties {
            hold = hold & self.limit_holds(i);
        }
        hold
    }

    // Whether the records keep the rules of the sheet, where `stand` says it of each by itself.
    fn rules_hold(self, stand: bool) -> bool
        ensures { result ≡ table_rules_hold stand self.entry.counts.now self.entry.holders self.entry.interties }
    {
        let counts = self.counts;
        let shares = &counts[tables::LOAD_SHARES..tables::LOAD_SHARES + self.holders];
        let ranks = &counts[tables::NEW_USE..tables::NEW_USE + tables::HOLDER_RANKS * self.holders];
        stand
            & counts_within::<1, 1>(&counts[..self.interties])
            & counts_within::<0, 1>(shares)
            & counts_within::<0, 1>(ranks)
    }
}

// Refusals 3 and 4 of a sheet that 1 and 2 let pass, and its records in cleared tables.
fn read_sized(found: Found, counts: &mut [u16; SLOTS], kw: &mut [u64; SLOTS]) -> Result<(), Refusal>
    requires { (counts.old ≡ replicate slots 0) × (kw.old ≡ replicate slots 0) }
    ensures { let sheet = found.entry.sheet.now in
        (number_in result ≡ sheet_refusal sheet) × (counts.new ≡ count_table sheet) × (kw.new ≡ kw_table sheet) }
{
    let sheet = found.sheet;
    let interties = words::intertie_count(sheet) as usize;
    let holders = words::holder_count(sheet) as usize;
    let stand = rules::records_stand(found);
    found.add_records(counts, kw);
    let filled = Filled {
        counts,
        kw,
        interties,
        holders,
    };
    let rules = filled.rules_hold(stand);
    let limits = filled.limits_hold();
    if !rules {
        return Err(Refusal::Records);
    }
    if !limits {
        return Err(Refusal::AboveLimit);
    }
    Ok(())
}

impl Headed<'_> {
    // Refusals 3 and 4, and the tables of the sheet's records (docs/RULES.md, "The sheet"). The tables may have any content before.
    // (Lent: in an answer their 150 KB would be copied. Of a sheet with its head read, so that no test stands between a caller's
    // making of the tables and this clearing, and they are cleared once.)
    pub fn read(&self, tables: &mut Tables) -> Result<(), Refusal>
        ensures { ReadSheet self.now tables.old (number_in result) tables.new }
    {
        *tables = Tables::empty();
        let mut room = [0; MOST_RECORDS];
        let found = tables::find_slots(self, &mut room);
        found.place_records(&mut tables.interties);
        read_sized(found, &mut tables.counts, &mut tables.kw)
    }
}

// Refuses a sheet, or lets it pass (docs/RULES.md, "The sheet"). (Two tables and no `Tables`: a refusal alone has no use for the
// third.)
pub fn sheet_refusal(sheet: &[u8]) -> Result<(), Refusal>
    ensures { number_in result ≡ sheet_refusal sheet.now }
{
    let headed = Headed::of(sheet)?;
    let mut room = [0; MOST_RECORDS];
    let found = tables::find_slots(&headed, &mut room);
    let mut counts = [0; SLOTS];
    let mut kw = [0; SLOTS];
    read_sized(found, &mut counts, &mut kw)
}
