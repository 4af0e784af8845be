// Rows of the state as numbers.
ghost use Rattle.std.specs.Prelude.{◌≡◌, ℕ, ◌≤◌, length};
ghost use Rattle.base.specs.Words.{at, tab};
ghost use Rattle.state.specs.Layout.{place};

use state::layout::ROW_WORDS;

// Reads the words of a state from a row on, as many as there are numbers. (Lent, of 32, 48 and 1,536: an array for an answer is no
// plainer, since it has a const parameter and two of the four callers fill a row that is lent to them; and it would be copied, 12 KB
// of the longest. By place: what a zip of `iter_mut` lends is lost to the proof. Not by a closure, as steps_2_to_4's `fill_by`: it is
// the one such loop here.)
pub(super) fn read_rows(state: &[u32], row: u32, numbers: &mut [u64])
    requires { place row (length numbers.old) ≤ length state.now }
    ensures { numbers.new ≡ tab (length numbers.old) (λ (c : ℕ). at state.now (place row c)) }
{
    let first = ROW_WORDS * (row as usize);
    for (c, number) in numbers.iter_mut().enumerate() {
        *number = u64::from(state[first + c]);
    }
}
