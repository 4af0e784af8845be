// The claims of Steps 4a and 4b, a table of the pairs with a row of the interties for each holder.
ghost use Rattle.std.specs.Prelude.{◌≡◌, ℕ, ◌<◌, length};
ghost use Rattle.base.specs.Limits.{most_interties};
ghost use Rattle.base.specs.Words.{at};
ghost use Rattle.steps.specs.Step4a.{pre_ra_claim};
ghost use Rattle.steps_2_to_4.specs.Reserved.{inputs};
ghost use Rattle.steps_2_to_4.specs.Workers.Vectors.{Pairs, kept_from};

use super::{Inputs, vectors};
use base::limits::{MOST_INTERTIES, MOST_PAIRS};
use base::vectors::left_of;
use sheet_reading::tables::{EXISTING, HOLDER_INTERTIES, HOLDER_RANKS, NEW_USE, PRE_RA};

impl Inputs<'_> {
    // Step 4a: a claim is the part of Pre-RA kW above E at that pair. (By place: of `as_chunks_mut` nothing is said of what the
    // slice ends as.)
    pub(super) fn pre_ra_claims(self, claims: &mut [u64; MOST_PAIRS])
        ensures { let r = self.entry.read in let y = inputs r.tables.now r.interties r.holders in
            Pairs r.holders most_interties claims.new (pre_ra_claim y) }
    {
        let kw = &self.read.tables.kw;
        for holder in 0..self.read.holders {
            let row = MOST_INTERTIES * holder;
            let end = row + MOST_INTERTIES;
            let pre_ra = PRE_RA + HOLDER_INTERTIES * holder;
            let existing = EXISTING + HOLDER_INTERTIES * holder;
            vectors::differences(&kw[pre_ra..], &kw[existing..], &mut claims[row..end]);
        }
    }

    // Step 4b: the New Use kW of a holder that stay, on each intertie.
    fn holder_claims(
        self,
        holder: usize,
        quantity: u64,
        granted: &[u64; MOST_PAIRS],
        row: &mut [u64],
    )
        requires { (holder < self.read.holders) × (length row.old ≡ most_interties) }
        ensures { let r = self.entry.read in row.new ≡ (kept_from r.tables.now r.interties quantity granted.now holder).kept }
    {
        let kw = &self.read.tables.kw;
        let ties = &self.read.tables.interties;
        let existing = EXISTING + HOLDER_INTERTIES * holder;
        let pre_ra = PRE_RA + HOLDER_INTERTIES * holder;
        let first = NEW_USE + HOLDER_RANKS * holder;
        let end = first + HOLDER_RANKS;
        let mut cover = [0u64; MOST_INTERTIES];
        vectors::differences(&kw[existing..], &kw[pre_ra..], &mut cover);
        let existing_end = existing + self.read.interties;
        let beyond = left_of(quantity, &kw[existing..existing_end]);
        let granted_at = MOST_INTERTIES * holder;
        let granted_end = granted_at + self.read.interties;
        let allowance = left_of(beyond, &granted[granted_at..granted_end]);
        step_4b::keep_new_use(
            &kw[first..end],
            &ties[first..end],
            allowance,
            &mut cover,
            row,
        );
    }

    // Step 4b: the claims of all holders, each with its own Load Share Quantity. (By place, as above.)
    pub(super) fn new_use_claims(
        self,
        quantities: &[u64],
        granted: &[u64; MOST_PAIRS],
        claims: &mut [u64; MOST_PAIRS],
    )
        requires { length quantities.now ≡ self.read.holders }
        ensures { let r = self.entry.read in Pairs r.holders most_interties claims.new
            (λ (h i : ℕ). at (kept_from r.tables.now r.interties
            (at quantities.now h) granted.now h).kept i) }
    {
        for (holder, quantity) in quantities.iter().enumerate() {
            let row = MOST_INTERTIES * holder;
            let end = row + MOST_INTERTIES;
            self.holder_claims(holder, *quantity, granted, &mut claims[row..end]);
        }
    }
}
