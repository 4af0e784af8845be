// The rule of the sheet for a single record, by its kind, and for all of them. What a kind says is a match that gives constants,
// so that a record takes no branch.
ghost use Rattle.std.specs.Prelude.{◌≡◌, eqb};
ghost use Rattle.base.specs.Choice.{pick};
ghost use Rattle.sheet_records.specs.Refusal.{record_stands, records_stand};
ghost use Rattle.sheet_reading.specs.Workers.Kinds.{rule_of};

use crate::tables::Found;
use base::kinds::Kind;
use base::limits::MOST_YEARS;
use base::limits::words::{MOST_KW, MOST_LOAD_SHARE};
use base::numbered::Unnamed;
use sheet_keys::key::Key;
use sheet_records::reader::Record;
use sheet_records::{reader, words};

// What a kind says: whether it names a holder, an intertie, a rank, years, and from which to which quantity stands.
#[derive(Clone, Copy)]
struct Rule {
    holder: bool,
    intertie: bool,
    rank: bool,
    years: bool,
    least: u32,
    most: u32,
}

// The rule of a kind by its number. Limits and load shares may be 0; of kinds 0 and 7 to 15 no quantity stands.
fn rule_of(kind: u32) -> Rule
    ensures { result ≡ rule_of kind }
{
    match Kind::try_from(kind) {
        Ok(Kind::Limit) => Rule {
            holder: false,
            intertie: true,
            rank: false,
            years: false,
            least: 0,
            most: MOST_KW,
        },
        Ok(Kind::OutsideRight) => Rule {
            holder: false,
            intertie: true,
            rank: false,
            years: false,
            least: 1,
            most: MOST_KW,
        },
        Ok(Kind::LoadShare) => Rule {
            holder: true,
            intertie: false,
            rank: false,
            years: false,
            least: 0,
            most: MOST_LOAD_SHARE,
        },
        Ok(Kind::ExistingContract) | Ok(Kind::PreRaCommitment) => Rule {
            holder: true,
            intertie: true,
            rank: false,
            years: true,
            least: 1,
            most: MOST_KW,
        },
        Ok(Kind::NewUseCommitment) => Rule {
            holder: true,
            intertie: true,
            rank: true,
            years: true,
            least: 1,
            most: MOST_KW,
        },
        Err(Unnamed) => Rule {
            holder: false,
            intertie: false,
            rank: false,
            years: false,
            least: 1,
            most: 0,
        },
    }
}

// A field that the kind names is in its range; one that it doesn't name is 0.
#[tactic(auto, using(crate::proofs::RuleLaws::one_of))]
fn field_stands(named: bool, in_range: bool, field: u32) -> bool
    ensures { result ≡ pick named in_range (eqb field 0) }
{
    (named & in_range) | (!named & (field == 0))
}

// Whether a record keeps the rule of its kind, on a sheet of so many interties and holders.
fn record_stands(entry: Record, interties: u32, holders: u32) -> bool
    ensures { result ≡ record_stands interties holders entry.key entry.kw }
{
    let key = Key::from(entry.key);
    let rule = rule_of(key.kind);
    field_stands(rule.holder, key.holder < holders, key.holder)
        & field_stands(rule.intertie, key.intertie < interties, key.intertie)
        & field_stands(rule.rank, 1 <= key.rank, key.rank)
        & field_stands(rule.years, (1..=MOST_YEARS).contains(&key.years), key.years)
        & (rule.least..=rule.most).contains(&entry.kw)
}

// Whether each record keeps its rule. (With &: `all` would branch on each record.)
pub(crate) fn records_stand(found: Found) -> bool
    ensures { result ≡ records_stand found.entry.sheet.now }
{
    let sheet = found.sheet;
    let interties = words::intertie_count(sheet);
    let holders = words::holder_count(sheet);
    reader::records(sheet).fold(true, |stand, record| {
        stand & record_stands(record, interties, holders)
    })
}
