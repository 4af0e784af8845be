// Rows of numbers, word by word.
ghost use Rattle.std.specs.Prelude.{◌≡◌, ℕ, ◌-◌, ◌≤◌, ◌<◌, length};
ghost use Rattle.base.specs.Words.{at, tab};

// Fills a row by what a figure is in each place. (Not base's: a public function asks nothing, and of any closure it would ask that it
// may be called. By place: what a zip of `iter_mut` lends is lost to the proof.)
pub(super) fn fill_by<F: Fn(usize) -> u64>(row: &mut [u64], figure: F)
    requires { (c : ℕ) → c < length row.old → F.pre figure c }
    ensures { (f : ℕ → ℕ) → ((c r : ℕ) → c < length row.old → F.post figure c r → r ≡ f c) → row.new ≡ tab (length row.old) f }
{
    for (c, number) in row.iter_mut().enumerate() {
        *number = figure(c);
    }
}

// Writes over a row what the numbers of a list have above those of another. (Not a copy and base's `take_off`: its three callers
// would have two calls each.)
pub(super) fn differences(list: &[u64], other: &[u64], row: &mut [u64])
    requires { (length row.old ≤ length list.now) × (length row.old ≤ length other.now) }
    ensures { row.new
        ≡ tab (length row.old) (λ (c : ℕ). at list.now c - at other.now c) }
{
    fill_by(row, |c| list[c].saturating_sub(other[c]));
}
