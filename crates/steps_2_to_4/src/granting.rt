// Steps 3 to 4b: P and N of every pair, by share-outs on each intertie.
ghost use Rattle.std.specs.Prelude.{◌≡◌, ℕ, length};
ghost use Rattle.base.specs.Limits.{most_interties};
ghost use Rattle.base.specs.Words.{at, tab};
ghost use Rattle.steps.specs.Step2.{available, load_share_quantity};
ghost use Rattle.steps.specs.Step4a.{pre_ra_claim};
ghost use Rattle.steps_2_to_4.specs.Reserved.{inputs};
ghost use Rattle.steps_2_to_4.specs.Workers.Vectors.{Pairs, kept_from, SharedOver};
ghost use Rattle.steps_2_to_4.specs.Workers.Steps.{Granted};

use super::Inputs;
use base::limits::{MOST_INTERTIES, MOST_PAIRS};
use base::vectors::take_off_each;
use sheet_reading::tables::{EXISTING, HOLDER_INTERTIES};

impl Inputs<'_> {
    // Shares out the pool of each intertie over the claims there, with the holders' load shares. (Sizes that are asked for here
    // are not refused.)
    fn grant(self, pools: &[u64], claimed: &[u64; MOST_PAIRS], granted: &mut [u64; MOST_PAIRS])
        requires { length pools.now ≡ self.read.interties }
        ensures { let r = self.entry.read in let y = inputs r.tables.now r.interties r.holders in
            (claim : ℕ → ℕ → ℕ) → Pairs y.holders most_interties claimed.now claim
            → SharedOver y pools.now claim granted.old granted.new }
    {
        let _ = intertie_shares::share_out_each(
            self.read.interties,
            self.read.holders,
            pools,
            claimed,
            self.loads,
            granted,
        );
    }

    // Step 4a: shares out what Step 3 left on each intertie over the Pre-RA claims.
    fn grant_pre_ra(self, pools: &[u64], granted: &mut [u64; MOST_PAIRS])
        requires { length pools.now ≡ self.read.interties }
        ensures { let r = self.entry.read in let y = inputs r.tables.now r.interties r.holders in
            SharedOver y pools.now (pre_ra_claim y) granted.old granted.new }
    {
        let mut claimed = [0u64; MOST_PAIRS];
        self.pre_ra_claims(&mut claimed);
        self.grant(pools, &claimed, granted);
    }

    // Step 4b: shares out what Step 4a left on each intertie over the New Use kW that stay.
    fn grant_new_use(
        self,
        pools: &[u64],
        quantities: &[u64],
        pre_ra: &[u64; MOST_PAIRS],
        granted: &mut [u64; MOST_PAIRS],
    )
        requires { (length pools.now ≡ self.read.interties) × (length quantities.now ≡ self.read.holders) }
        ensures { let r = self.entry.read in let y = inputs r.tables.now r.interties r.holders in
            SharedOver y pools.now
            (λ (h i : ℕ). at (kept_from r.tables.now r.interties
            (at quantities.now h) pre_ra.now h).kept i)
            granted.old granted.new }
    {
        let mut claimed = [0u64; MOST_PAIRS];
        self.new_use_claims(quantities, pre_ra, &mut claimed);
        self.grant(pools, &claimed, granted);
    }

    // Steps 3 to 4b: from what is available on each intertie, P and N of every pair and what stays unassigned.
    pub(super) fn steps_3_and_4(
        self,
        quantities: &[u64],
        pools: &mut [u64],
        pre_ra: &mut [u64; MOST_PAIRS],
        new_use: &mut [u64; MOST_PAIRS],
    )
        requires { let r = self.read in let y = inputs r.tables.now r.interties r.holders in
            (pools.old ≡ tab self.read.interties (available y)) × (quantities.now ≡ tab self.read.holders (load_share_quantity y)) }
        ensures { let r = self.entry.read in let y = inputs r.tables.now r.interties r.holders in
            Granted y pre_ra.old new_use.old pools.new pre_ra.new new_use.new }
    {
        let kw = &self.read.tables.kw;
        let (existing, _) = kw[EXISTING..].as_chunks::<HOLDER_INTERTIES>();
        take_off_each(&existing[..self.read.holders], pools);
        self.grant_pre_ra(pools, pre_ra);
        let (rows, _) = pre_ra.as_chunks::<MOST_INTERTIES>();
        take_off_each(&rows[..self.read.holders], pools);
        self.grant_new_use(pools, quantities, pre_ra, new_use);
        let (rows, _) = new_use.as_chunks::<MOST_INTERTIES>();
        take_off_each(&rows[..self.read.holders], pools);
    }
}
