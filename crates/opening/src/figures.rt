// Steps 5 to 7: what each holder holds, its Step 5 share and its Step 7 total.
ghost use Rattle.std.specs.Prelude.{◌≡◌, ℕ, ◌<◌, length};
ghost use Rattle.base.specs.Words.{tab};
ghost use Rattle.opening.specs.Workers.Figures.{held_from, HeldGiven, HeldTaken};

use base::limits::{MOST_HOLDERS, MOST_INTERTIES, MOST_PAIRS};
use base::vectors::sum_of;
use sheet_reading::tables::{EXISTING, HOLDER_INTERTIES, LOAD_SHARES, Read};

// What Steps 5 to 7 are made over: T, what was read of a sheet, and P and N of every pair.
// E, P and N of a pair are each at most what a record may have, and the holders together hold at most T.
#[derive(Clone, Copy)]
pub(super) struct Reserves<'a> {
    pub(super) total: u64,
    pub(super) read: Read<'a>,
    pub(super) pre_ra: &'a [u64; MOST_PAIRS],
    pub(super) new_use: &'a [u64; MOST_PAIRS],
    ghost given: { HeldGiven total read.tables.now.kw read.interties read.holders pre_ra.now new_use.now },
}

impl Reserves<'_> {
    // What a holder holds: all its E, P and N.
    fn held_by(self, holder: usize) -> u64
        requires { holder < self.read.holders }
        ensures { let r = self.entry in result ≡ held_from r.read.interties r.read.tables.now.kw r.pre_ra.now r.new_use.now holder }
    {
        let kw = &self.read.tables.kw;
        let pre_ra = self.pre_ra;
        let new_use = self.new_use;
        let existing = EXISTING + HOLDER_INTERTIES * holder;
        let existing_end = existing + self.read.interties;
        let row = MOST_INTERTIES * holder;
        let row_end = row + self.read.interties;
        sum_of(&kw[existing..existing_end])
            + sum_of(&pre_ra[row..row_end])
            + sum_of(&new_use[row..row_end])
    }

    // Steps 5 to 7: writes what each holder holds, its Step 5 share and its Step 7 total over the first words of three rows.
    // (Lent one by one: `pre_ra` and `new_use` of the same struct are read. Step 5 isn't refused: T and what is held are in range.)
    pub(super) fn steps_5_to_7(
        self,
        held: &mut [u64; MOST_HOLDERS],
        shares: &mut [u64; MOST_HOLDERS],
        totals: &mut [u64; MOST_HOLDERS],
    )
        ensures { let r = self.entry in
            HeldTaken r.total r.read.tables.now.kw r.read.interties r.read.holders r.pre_ra.now r.new_use.now
            held.new shares.new totals.new }
    {
        let held = &mut held[..self.read.holders];
        let shares = &mut shares[..self.read.holders];
        let kw = &self.read.tables.kw;
        let end = LOAD_SHARES + self.read.holders;
        fill_by(held, |holder| self.held_by(holder));
        step_5::step_5_shares(self.total, held, &kw[LOAD_SHARES..end], shares);
        fill_by(&mut totals[..self.read.holders], |h| held[h] + shares[h]);
    }
}

// Fills a row by what a figure is in each place. (steps_2_to_4 has its own, beside which stands why.)
fn fill_by<F: Fn(usize) -> u64>(row: &mut [u64], figure: F)
    requires { (c : ℕ) → c < length row.old → F.pre figure c }
    ensures { (f : ℕ → ℕ) → ((c r : ℕ) → c < length row.old → F.post figure c r → r ≡ f c) → row.new ≡ tab (length row.old) f }
{
    for (c, number) in row.iter_mut().enumerate() {
        *number = figure(c);
    }
}
