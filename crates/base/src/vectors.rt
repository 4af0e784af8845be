// Lists of numbers: cleared, tested, added up, taken off one another. A caller lends the very words that are meant.
ghost use Rattle.std.specs.Prelude.{◌≡◌, ℕ, ◌-◌, ◌%◌, ◌^◌, ◌&&◌, length, nat_le, leb, eqb, get_or, []};
ghost use Rattle.base.specs.Limits.{most_holders};
ghost use Rattle.base.specs.Sums.{sum_to, all_to};
ghost use Rattle.base.specs.Words.{at, tab};

use crate::limits::MOST_HOLDERS;

// Whether two lists of the holders' numbers are alike in length, of as many holders as there may be, and have room in a third.
pub fn lengths_fit(first: usize, second: usize, room: usize) -> bool
    ensures { result ≡ (eqb first second && (leb first most_holders && leb first room)) }
{
    (first == second) & ((first <= MOST_HOLDERS) & (first <= room))
}

// Makes every number 0. (A function for its clause: `fill` says the list as copies, and callers speak of places.)
pub fn clear(list: &mut [u64])
    ensures { list.new ≡ tab (length list.old) (λ (c : ℕ). 0) }
{
    list.fill(0);
}

// Whether every number is within a most.
pub fn all_within(list: &[u64], most: u64) -> bool
    ensures { result ≡ all_to (length list.now) (λ (c : ℕ). nat_le (at list.now c) most) }
{
    list.iter().all(|number| *number <= most)
}

// The sum of the numbers, modulo 2^64. (The library's `sum` asks that it fits.)
pub fn sum_of(list: &[u64]) -> u64
    ensures { result ≡ sum_to (length list.now) (at list.now) % 2 ^ 64 }
{
    list.iter().fold(0, |sum, number| sum.wrapping_add(*number))
}

// What is left of a number once those of a list are taken off, 0 if nothing.
pub fn left_of(start: u64, list: &[u64]) -> u64
    ensures { result ≡ start - sum_to (length list.now) (at list.now) }
{
    list.iter()
        .fold(start, |left, number| left.saturating_sub(*number))
}

// Takes the numbers of a list off those of a row, each off the one at its place; what would be below 0 is 0, and a number
// of the row past the list's end stays. (By place: what a zip of `iter_mut` lends is lost to the proof.)
pub fn take_off(list: &[u64], row: &mut [u64])
    ensures { row.new
        ≡ tab (length row.old) (λ (c : ℕ). at row.old c - at list.now c) }
{
    let count = list.len().min(row.len());
    for c in 0..count {
        row[c] = row[c].saturating_sub(list[c]);
    }
}

// Takes the numbers of each list off those of a row, in turn.
pub fn take_off_each<const N: usize>(lists: &[[u64; N]], row: &mut [u64])
    ensures { let lists = lists.now in row.new
        ≡ tab (length row.old) (λ (c : ℕ). at row.old c - sum_to (length lists) (λ (h : ℕ). at (get_or lists h []) c)) }
{
    for list in lists {
        take_off(list, row);
    }
}
