// The fields of a line, read as numbers.
ghost use Rattle.std.specs.Prelude.{◌≡◌, ◌≤◌, ◌<◌};
ghost use Rattle.text.specs.Pieces.{fields};
ghost use Rattle.text.specs.Left.{pieces_left};
ghost use Rattle.sheet_keys.specs.Key.{key_kinds, key_holders, key_interties, key_ranks, key_years, key_from};
ghost use Rattle.sheet_table.specs.Fields.{comma, within, kind_in, numbers_in, sizes_in, entry_in};
ghost use Rattle.sheet_table.specs.Workers.Steps.{fields_past_kind, entry_of};

use crate::faults::Fault;
use crate::kinds;
use sheet_keys::key;
use sheet_keys::key::Key;
use sheet_records::reader::Record;
use text::{NumberError, Pieces};

// The first fault of a line, and its column. (Not nested in `Unreadable`, whose fields stand side by side for its Display,
// tests/compare and the definitions.)
#[derive(Clone, Copy, Debug, PartialEq, Eq)]
pub(crate) struct Flaw {
    pub column: usize,
    pub fault: Fault,
}

// I and H.
#[derive(Clone, Copy, Debug, PartialEq, Eq)]
pub(crate) struct Sizes {
    pub interties: u32,
    pub holders: u32,
}

// A number that is at most so much.
fn check_number(number: Result<u32, NumberError>, most: u32) -> Result<u32, Fault>
    ensures { result ≡ within most number }
{
    let number = number?;
    if most < number {
        Err(Fault::TooLarge)
    } else {
        Ok(number)
    }
}

// A kind, by its name or by its number.
fn kind_in(field: &[u8]) -> Result<u32, NumberError>
    ensures { result ≡ kind_in field.now }
{
    match kinds::named(field) {
        Some(kind) => Ok(kind.number()),
        None => text::read_number(field),
    }
}

// Reads the fields that are left, from a column on, and no field more. (By place, by which the column is counted too.)
fn read_numbers<const N: usize>(
    fields: &mut Pieces,
    column: usize,
    limits: &[u32; N],
) -> Result<[u32; N], Flaw>
    requires { (column ≤ 2) × (N ≤ fields_past_kind) }
    ensures { result ≡ numbers_in column limits.now (pieces_left fields.old) }
{
    let mut numbers = [0u32; N];
    for (i, most) in limits.iter().enumerate() {
        let place = column + i;
        let Some(field) = fields.next() else {
            return Err(Flaw {
                column: place,
                fault: Fault::WrongFields,
            });
        };
        numbers[i] = check_number(text::read_number(field), *most).map_err(|fault| Flaw {
            column: place,
            fault,
        })?;
    }
    match fields.next() {
        Some(_) => Err(Flaw {
            column: column + N,
            fault: Fault::WrongFields,
        }),
        None => Ok(numbers),
    }
}

// A key from fields within their widths. (A function for its clause: so the fields aren't cut.)
fn pack(key: Key) -> u32
    requires { (key.kind < key_kinds) × (key.holder < key_holders) × (key.intertie < key_interties)
        × (key.rank < key_ranks) × (key.years < key_years) }
    ensures { result ≡ key_from key.kind key.holder key.intertie key.rank key.years }
{
    u32::from(key)
}

// The first line: I and H.
pub(crate) fn read_sizes(line: &[u8]) -> Result<Sizes, Flaw>
    ensures { result ≡ sizes_in (fields comma line.now) }
{
    let mut fields = text::split(line, b',');
    let [interties, holders] = read_numbers(&mut fields, 1, &[u32::MAX, u32::MAX])?;
    Ok(Sizes { interties, holders })
}

// The line of a record.
pub(crate) fn read_entry(line: &[u8]) -> Result<Record, Flaw>
    ensures { result ≡ entry_in (fields comma line.now) }
{
    let mut fields = text::split(line, b',');
    let name = fields.next().unwrap_or(&[]);
    let kind = check_number(kind_in(name), key::KIND_MASK).map_err(|fault| Flaw {
        column: 1,
        fault,
    })?;
    read_entry_of(kind, &mut fields)
}

// The record of a kind, with the fields after it.
fn read_entry_of(kind: u32, fields: &mut Pieces) -> Result<Record, Flaw>
    requires { kind < key_kinds }
    ensures { result ≡ entry_of kind (pieces_left fields.old) }
{
    let limits = [
        key::HOLDER_MASK,
        key::INTERTIE_MASK,
        key::RANK_MASK,
        key::YEARS_MASK,
        u32::MAX,
    ];
    let [holder, intertie, rank, years, kw] = read_numbers(fields, 2, &limits)?;
    Ok(Record {
        key: pack(Key {
            kind,
            holder,
            intertie,
            rank,
            years,
        }),
        kw,
    })
}
