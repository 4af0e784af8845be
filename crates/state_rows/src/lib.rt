// Whole rows of the year's state, written at once. Apart from state for the prover's time.
#![tactic(auto)]

ghost use Rattle.std.specs.Prelude.{◌≡◌, ℕ, ◌+◌, ◌*◌, ◌^◌, ◌≤◌, ◌<◌, length};
ghost use Rattle.base.specs.Limits.{state_words, most_interties, most_holders};
ghost use Rattle.base.specs.Words.{at};
ghost use Rattle.state.specs.Layout.{row_words, place, whole_rows};
ghost use Rattle.state_rows.specs.Rows.{fill_row, fill_pairs, low32, fit_row, fit_field, fit_pairs};
ghost use Rattle.state_rows.specs.Rows.{stored_row, stored_pairs, raised_pairs, cleared_pairs};

use base::limits::{MOST_HOLDERS, MOST_INTERTIES, MOST_PAIRS, STATE_WORDS, WORD_VALUES};
use state::layout::{LAST_ROW, ROW_WORDS, WHOLE_ROWS};

// How a word of the state is changed by what stands at a place of a table. (A place and no number, since what clears has no
// table; it is an index that none of these moves on. A trait and no closure: what a word becomes is named by its ghost members,
// and the table with its length goes from row to row by one reference.)
trait Change {
    // The places that the table has.
    ghost places: { Self → ℕ };

    // What a word becomes by the value at a place.
    ghost gives: { Self → ℕ → ℕ → ℕ };

    fn change(&self, word: u32, at: usize) -> u32
        requires { at < places self.now }
        ensures { result ≡ gives self.now word at };
}

// A value takes the word's place, of one over 32 bits its low ones.
#[derive(Clone, Copy)]
struct Stored<'a> {
    values: &'a [u64],
}

impl<'a> Change for Stored<'a> {
    ghost places = { λ table. length table.values.now };

    ghost gives = { λ table word p. low32 (at table.values.now p) };

    fn change(&self, _word: u32, at: usize) -> u32 {
        (self.values[at] % WORD_VALUES) as u32
    }
}

// The word is raised by a value, in 32 bits.
#[derive(Clone, Copy)]
struct Raised<'a> {
    values: &'a [u64],
}

impl<'a> Change for Raised<'a> {
    ghost places = { λ table. length table.values.now };

    ghost gives = { λ table word p. low32 (word + low32 (at table.values.now p)) };

    fn change(&self, word: u32, at: usize) -> u32 {
        word.wrapping_add((self.values[at] % WORD_VALUES) as u32)
    }
}

// The word becomes 0.
#[derive(Clone, Copy)]
struct Cleared;

impl Change for Cleared {
    ghost places = { λ table. row_words * most_holders };

    ghost gives = { λ table word p. 0 };

    fn change(&self, _word: u32, _at: usize) -> u32 {
        0
    }
}

// Changes the first columns of a row by a table, from one of its places on.
fn change_row<C: Change>(state: &mut [u32], row: usize, count: usize, table: &C, from: usize)
    requires { (state_words ≤ length state.old) × (row < whole_rows) × (count ≤ row_words) × (from + count ≤ C.places table.now)
        × (from + count < 2 ^ 64) }
    ensures { let s = state.old in state.new
        ≡ fill_row row count (λ c. C.gives table.now (at s (place row c)) (from + c)) s }
{
    let first = ROW_WORDS * row;
    for (column, word) in state[first..first + count].iter_mut().enumerate() {
        *word = table.change(*word, from + column);
    }
}

// Changes the first columns of as many rows by the rows of a table, 48 places a row. (Field, holders and interties are three numbers
// here and below: a struct would be made at each call and taken apart at once.)
#[tactic(auto, unfolding(crate::specs::Rows::fill_pairs))]
fn change_rows<C: Change>(
    state: &mut [u32],
    field: usize,
    holders: usize,
    interties: usize,
    table: &C,
)
    requires { (state_words ≤ length state.old) × (field + holders ≤ whole_rows) × (interties ≤ most_interties)
        × (row_words * holders ≤ C.places table.now) }
    ensures { let s = state.old in state.new
        ≡ fill_pairs field holders interties (λ h i. C.gives table.now (at s (place (field + h) i)) (place h i)) s }
{
    for holder in 0..holders {
        change_row(state, field + holder, interties, table, ROW_WORDS * holder);
    }
}

// Whether a row of so many values fits a state of so many words.
fn fits_row(words: usize, row: usize, count: usize, values: usize) -> bool
    ensures { result ≡ fit_row words row count values }
{
    (STATE_WORDS <= words) & (row < WHOLE_ROWS) & (count <= ROW_WORDS) & (count <= values)
}

// Writes values over the first columns of a row, of a value over 32 bits its low ones. Does nothing
// where the state, the row, the count or the values don't fit. (Nothing, and no error, here and below: what calls these has tested
// the sizes. A row is a usize: a narrower type would ask more of callers.)
pub fn store_row(state: &mut [u32], row: usize, count: usize, values: &[u64])
    ensures { state.new ≡ stored_row row count values.now state.old }
{
    if fits_row(state.len(), row, count, values.len()) {
        change_row(state, row, count, &Stored { values }, 0);
    }
}

// Whether a field of the pairs lies in a state of so many words.
fn fits_field(words: usize, field: usize, holders: usize, interties: usize) -> bool
    ensures { result ≡ fit_field words field holders interties }
{
    (STATE_WORDS <= words)
        & (field <= LAST_ROW)
        & (holders <= MOST_HOLDERS)
        & (interties <= MOST_INTERTIES)
}

// Whether a table of the pairs fits a state of so many words.
fn fits_pairs(words: usize, field: usize, holders: usize, interties: usize, values: usize) -> bool
    ensures { result ≡ fit_pairs words field holders interties values }
{
    fits_field(words, field, holders, interties) & (MOST_PAIRS <= values)
}

// Writes a table of the pairs, 48 values a holder, into the field that starts at a row, of a value
// over 32 bits its low ones. Does nothing where the state, the field, the sizes or the values don't fit. (It and `raise_pairs` differ
// in the change alone; they are two by name, since `Change` is this crate's own.)
pub fn store_pairs(
    state: &mut [u32],
    field: usize,
    holders: usize,
    interties: usize,
    values: &[u64],
)
    ensures { state.new ≡ stored_pairs field holders interties values.now state.old }
{
    if fits_pairs(state.len(), field, holders, interties, values.len()) {
        change_rows(state, field, holders, interties, &Stored { values });
    }
}

// Raises the field that starts at a row by a table of the pairs, 48 values a holder, in 32 bits. Does nothing
// where the state, the field, the sizes or the values don't fit.
pub fn raise_pairs(
    state: &mut [u32],
    field: usize,
    holders: usize,
    interties: usize,
    values: &[u64],
)
    ensures { state.new ≡ raised_pairs field holders interties values.now state.old }
{
    if fits_pairs(state.len(), field, holders, interties, values.len()) {
        change_rows(state, field, holders, interties, &Raised { values });
    }
}

// Clears the pairs of the field that starts at a row. Does nothing where the state, the field or the sizes
// don't fit.
pub fn clear_pairs(state: &mut [u32], field: usize, holders: usize, interties: usize)
    ensures { state.new ≡ cleared_pairs field holders interties state.old }
{
    if fits_field(state.len(), field, holders, interties) {
        change_rows(state, field, holders, interties, &Cleared);
    }
}
