// What becomes of a key in the next year. (Each function takes the word, which the definitions take too, and
// reads the fields that it needs.)
ghost use Rattle.std.specs.Prelude.{◌≡◌};
ghost use Rattle.sheet_keys.specs.Key.{holder_of};
ghost use Rattle.carrying.specs.NextRecords.{yearless, goes_on, next_years, next_record, rank_for};
ghost use Rattle.carrying.specs.Workers.Draft.{record_key};

use base::kinds::Kind;
use sheet_keys::key::Key;

// Whether a key is of kind 1, 2 or 3, which have no years. (Kinds by their numbers, here and below: a key may hold one that has no
// name.)
fn yearless(key: u32) -> bool
    ensures { result ≡ yearless key }
{
    Key::from(key).kind <= Kind::LoadShare.number()
}

// Whether a record goes on into the next year.
pub(crate) fn goes_on(key: u32) -> bool
    ensures { result ≡ goes_on key }
{
    yearless(key) | (2 <= Key::from(key).years)
}

// The years of a record that goes on: one less, but for kinds 1, 2 and 3.
fn next_years(key: u32) -> u32
    ensures { result ≡ next_years key }
{
    if yearless(key) {
        Key::from(key).years
    } else {
        Key::from(key).years.saturating_sub(1)
    }
}

// The key of a record that goes on, taken apart and put together again.
pub(crate) fn next_key(key: u32) -> u32
    ensures { result ≡ record_key (next_record key 0) }
{
    u32::from(Key {
        years: next_years(key),
        ..Key::from(key)
    })
}

// The rank of a New Use commitment, 0 of a key of another kind. (0 raises no holder's highest rank; an Option would be taken apart
// for `max`.)
pub(crate) fn new_use_rank(key: u32) -> u32
    ensures { result ≡ rank_for (holder_of key) (next_record key 0) }
{
    let fields = Key::from(key);
    if fields.kind == Kind::NewUseCommitment.number() {
        fields.rank
    } else {
        0
    }
}
