// The numbers of the posting, read from an opened state.
ghost use Rattle.std.specs.Prelude.{◌≡◌, ℕ, ◌^◌, ◌≤◌, ◌<◌};
ghost use Rattle.base.specs.Limits.{most_interties, most_holders};
ghost use Rattle.state.specs.Layout.{row_words, whole_rows, last_row};
ghost use Rattle.state_rows.specs.Rows.{fill_row};
ghost use Rattle.posting.specs.Rows.{posting_rows};
ghost use Rattle.posting.specs.Workers.Lines.{row_word, field_on, interties_from, holders_from};

use super::rows;
use super::rows::NUMBERS;
use base::limits::{MOST_HOLDERS, STATE_WORDS};
use state::layout;
use state::layout::ROW_WORDS;

// A word of the state as a number. (Here and in `sum_on` the array is read and `state` not asked, which tests the place of each
// word, and rows are usize, since a place counted in 32 bits and cast costs an address a word: by both a posting takes 2.9 µs above its
// opening, where it took 4.6.)
fn word(state: &[u32; STATE_WORDS], row: usize, column: usize) -> u64
    requires { (row < whole_rows) × (column < row_words) }
    ensures { (result ≡ row_word state.now row column) × (result < 2 ^ 32) }
{
    u64::from(state[ROW_WORDS * row + column])
}

// A field of the pairs on an intertie, summed over the holders. (Rows as usize, as in `word`.)
fn sum_on(state: &[u32; STATE_WORDS], field: usize, holders: usize, intertie: usize) -> u64
    requires { (field ≤ last_row) × (holders ≤ most_holders) × (intertie < most_interties) }
    ensures { result ≡ field_on state.now field holders intertie }
{
    let mut sum = 0;
    for holder in 0..holders {
        sum += word(state, field + holder, intertie);
    }
    sum
}

// Fills the first columns of a row by what a figure is in each. (As the `fill_by` of steps_2_to_4, beside which stands why each crate
// has its own, and of opening; here the row is cut from the array of lines.)
fn fill_row<F: Fn(usize) -> u64>(lines: &mut [u64; NUMBERS], row: usize, count: usize, figure: F)
    requires { (row < posting_rows) × (count ≤ row_words) × ((c : ℕ) → c < count → F.pre figure c) }
    ensures { (f : ℕ → ℕ) → ((c r : ℕ) → c < count → F.post figure c r → r ≡ f c) → lines.new ≡ fill_row row count f lines.old }
{
    let first = ROW_WORDS * row;
    for (column, number) in lines[first..first + count].iter_mut().enumerate() {
        *number = figure(column);
    }
}

// Limit, outside, E, P, N and unassigned of each intertie. (I and H as parameters, with their ranges: a struct of the state
// and both would be made for two calls.)
pub(super) fn intertie_lines(
    state: &[u32; STATE_WORDS],
    interties: usize,
    holders: usize,
    lines: &mut [u64; NUMBERS],
)
    requires { (interties ≤ most_interties) × (holders ≤ most_holders) }
    ensures { lines.new ≡ interties_from interties holders state.now lines.old }
{
    fill_row(
        lines,
        rows::LIMIT,
        interties,
        |i| word(state, layout::LIMIT as usize, i),
    );
    fill_row(
        lines,
        rows::OUTSIDE,
        interties,
        |i| word(state, layout::OUTSIDE as usize, i),
    );
    fill_row(
        lines,
        rows::EXISTING,
        interties,
        |i| sum_on(state, layout::EXISTING as usize, holders, i),
    );
    fill_row(
        lines,
        rows::PRE_RA,
        interties,
        |i| sum_on(state, layout::PRE_RA as usize, holders, i),
    );
    fill_row(
        lines,
        rows::NEW_USE,
        interties,
        |i| sum_on(state, layout::NEW_USE as usize, holders, i),
    );
    fill_row(
        lines,
        rows::UNASSIGNED,
        interties,
        |i| word(state, layout::UNASSIGNED as usize, i),
    );
}

// Load share, Load Share Quantity, reserved and Step 5 share of each holder.
pub(super) fn holder_lines(
    state: &[u32; STATE_WORDS],
    quantities: &[u64; MOST_HOLDERS],
    holders: usize,
    lines: &mut [u64; NUMBERS],
)
    requires { holders ≤ most_holders }
    ensures { lines.new ≡ holders_from holders state.now quantities.now lines.old }
{
    fill_row(
        lines,
        rows::LOAD_SHARE,
        holders,
        |h| word(state, layout::LOAD_SHARE as usize, h),
    );
    fill_row(lines, rows::LOAD_SHARE_QUANTITY, holders, |h| quantities[h]);
    fill_row(
        lines,
        rows::RESERVED,
        holders,
        |h| word(state, layout::RESERVED as usize, h),
    );
    fill_row(
        lines,
        rows::STEP_5_SHARE,
        holders,
        |h| word(state, layout::STEP_5_SHARE as usize, h),
    );
}
