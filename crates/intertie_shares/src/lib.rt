// A share-out on each intertie, over the holders' claims there: Steps 4a and 4b and the closings make theirs by it
// (docs/RULES.md, "Opening" and "Calls of the year").
#![tactic(auto)]

ghost use Rattle.std.specs.Prelude.{◌≡◌, ◌/◌, ◌≤◌, ◌<◌, leb, eqb, length, take, SomeIff};
ghost use Rattle.std.specs.Simd.{first_chunks};
ghost use Rattle.base.specs.Answers.{granted};
ghost use Rattle.base.specs.Choice.{pick};
ghost use Rattle.base.specs.Limits.{most_load_share, most_interties, most_holders, most_pairs};
ghost use Rattle.base.specs.Refused.{answer_of};
ghost use Rattle.base.specs.Sums.{sum_to, all_to};
ghost use Rattle.base.specs.Words.{at, tab};
ghost use Rattle.intertie_shares.specs.Pairs.{at_pair, column, fill_column};
ghost use Rattle.intertie_shares.specs.Rule.{unfit_sizes, over_interties, share_out_each};
ghost use Rattle.intertie_shares.specs.Workers.Fit.{SharedOn};

use base::limits::{MOST_HOLDERS, MOST_INTERTIES, MOST_KW, MOST_LOAD_SHARE, MOST_PAIRS};
use base::refusals::Refusal;
use base::{Granted, vectors};

// Refusal 5 where the table of grants is whole: whether a size is over its limit, a pool or a weight is missing, or claims are
// missing. (Five lengths, as the definition has them: a struct of them would be made and taken apart at once.)
fn unfit_sizes(
    interties: usize,
    holders: usize,
    pools: usize,
    claims: usize,
    weights: usize,
) -> bool
    ensures { result ≡ unfit_sizes interties holders pools claims weights most_pairs }
{
    (MOST_INTERTIES < interties)
        | ((MOST_HOLDERS < holders)
            | ((pools < interties) | ((weights < holders) | (claims < MOST_PAIRS))))
}

// What a share-out granted. One that was refused has left its output as it was: it is cleared, and grants nothing.
fn settle(made: Result<Granted, Refusal>, output: &mut [u64]) -> Granted
    ensures { let answer = answer_of made in let before = output.old in
        (result.kw ≡ answer.kw) × (result.passes ≡ answer.passes)
        × (output.new ≡ pick (eqb answer.refusal 0) before (tab (length before) (λ h. 0))) }
{
    match made {
        Ok(granted) => granted,
        Err(_) => {
            vectors::clear(output);
            Granted { kw: 0, passes: 0 }
        }
    }
}

// Scatters the holders' words over an intertie of a table. (By place: of `as_chunks_mut` nothing is said of what the slice ends as.
// `grant_claims` fills such a column from rows: one function over a closure would read both by place, where each goes through its list.)
fn scatter(words: &[u64], intertie: usize, table: &mut [u64; MOST_PAIRS])
    requires { (intertie < most_interties) × (length words.now ≤ most_holders) }
    ensures { let words = words.now in
        table.new ≡ fill_column intertie (length words) (at words) table.old }
{
    for (h, word) in words.iter().enumerate() {
        table[MOST_INTERTIES * h + intertie] = *word;
    }
}

// What is shared out: a pool for each intertie, a claim for each pair and a weight for each holder, and whether the share-out takes
// every weight. (The claims as a slice: an array of its first words would not be the list that the clauses name.)
#[derive(Clone, Copy)]
struct Claims<'a> {
    pools: &'a [u64],
    claims: &'a [u64],
    weights: &'a [u64],
    weighable: bool,
    ghost few_interties: { length pools.now ≤ most_interties },
    ghost few_holders: { length weights.now ≤ most_holders },
    ghost claimed: { most_pairs ≤ length claims.now },
    ghost light: { weighable ≡ all_to (length weights.now) (λ h. leb (at weights.now h) most_load_share) },
}

impl<'a> Claims<'a> {
    // The holders' rows of claims.
    fn rows(self) -> &'a [[u64; MOST_INTERTIES]]
        ensures { let claims = self.entry.claims.now in
            (result.now ≡ take (length self.entry.weights.now) (first_chunks most_interties (length claims / most_interties) claims))
            × (length result.now ≡ length self.entry.weights.now) }
    {
        let (rows, _) = self.claims.as_chunks::<MOST_INTERTIES>();
        &rows[..self.weights.len()]
    }

    // Gathers what the holders claim on an intertie. (Rows by place: what a zip of `iter_mut` lends is lost to the proof.)
    fn gather(self, intertie: usize, claimed: &mut [u64])
        requires { (intertie < length self.pools.now) × (length claimed.old ≡ length self.weights.now) }
        ensures { claimed.new ≡ column self.entry.claims.now (length self.entry.weights.now) intertie }
    {
        let rows = self.rows();
        for (h, claim) in claimed.iter_mut().enumerate() {
            *claim = rows[h][intertie];
        }
    }

    // The claims on an intertie together, or none where they exceed its pool.
    fn claimed_on(self, intertie: usize) -> Option<u64>
        requires { intertie < length self.pools.now }
        ensures { let claimed = sum_to (length self.entry.weights.now) (λ h. at_pair self.entry.claims.now h intertie) in
            SomeIff result (claimed ≤ at self.entry.pools.now intertie) claimed }
    {
        let pool = self.pools[intertie];
        let mut left = pool;
        for row in self.rows() {
            left = left.checked_sub(row[intertie])?;
        }
        Some(pool - left)
    }

    // Grants each claim on an intertie whole. (By place, as in `scatter`.)
    fn grant_claims(self, intertie: usize, grants: &mut [u64; MOST_PAIRS])
        requires { intertie < length self.pools.now }
        ensures { let claim = at_pair self.entry.claims.now in
            grants.new ≡ fill_column intertie (length self.entry.weights.now) (λ h. claim h intertie) grants.old }
    {
        for (h, row) in self.rows().iter().enumerate() {
            grants[MOST_INTERTIES * h + intertie] = row[intertie];
        }
    }

    // Shares out on one intertie by the share-out; claimed and output are room for what its holders claim and get. (Lent, since
    // arrays of its own would be cleared on each intertie; and apart, since a struct of both would be taken apart here at once.)
    fn share_out_gathered(
        self,
        intertie: usize,
        claimed: &mut [u64; MOST_HOLDERS],
        output: &mut [u64; MOST_HOLDERS],
        grants: &mut [u64; MOST_PAIRS],
    ) -> Granted
        requires { intertie < length self.pools.now }
        ensures { SharedOn intertie (length self.entry.weights.now) self.entry.pools.now self.entry.claims.now
            self.entry.weights.now grants.old result grants.new }
    {
        let claimed = &mut claimed[..self.weights.len()];
        let output = &mut output[..self.weights.len()];
        self.gather(intertie, claimed);
        let made = share_out::share_out(self.pools[intertie], claimed, self.weights, output);
        let granted = settle(made, output);
        scatter(output, intertie, grants);
        granted
    }

    // The same. Claims that are together within the pool are met without gathering them, where weights and pool are
    // such as the share-out takes.
    fn share_out_on(
        self,
        intertie: usize,
        claimed: &mut [u64; MOST_HOLDERS],
        output: &mut [u64; MOST_HOLDERS],
        grants: &mut [u64; MOST_PAIRS],
    ) -> Granted
        requires { intertie < length self.pools.now }
        ensures { SharedOn intertie (length self.entry.weights.now) self.entry.pools.now self.entry.claims.now
            self.entry.weights.now grants.old result grants.new }
    {
        if self.weighable & (self.pools[intertie] <= MOST_KW) {
            if let Some(kw) = self.claimed_on(intertie) {
                self.grant_claims(intertie, grants);
                return Granted { kw, passes: 0 };
            }
        }
        self.share_out_gathered(intertie, claimed, output, grants)
    }

    // Shares out on each intertie in turn; hands back kW and passes over all.
    fn on_each(self, grants: &mut [u64; MOST_PAIRS]) -> Granted
        ensures { let given = self.entry in
            let made = over_interties (length given.weights.now) (at given.pools.now) (at_pair given.claims.now) (at given.weights.now)
            (length given.pools.now) grants.old in
            (granted result.kw result.passes ≡ made.answer) × (grants.new ≡ made.output) }
    {
        let mut claimed = [0u64; MOST_HOLDERS];
        let mut output = [0u64; MOST_HOLDERS];
        let mut kw = 0;
        let mut passes = 0;
        for i in 0..self.pools.len() {
            let granted = self.share_out_on(i, &mut claimed, &mut output, grants);
            kw += granted.kw;
            passes += granted.passes;
        }
        Granted { kw, passes }
    }
}

// Shares each intertie's pool out over the holders' claims there, by weight: writes a grant for each
// holder and intertie and answers kW and passes over all interties. Refused with 5 it writes nothing.
pub fn share_out_each(
    interties: usize,
    holders: usize,
    pools: &[u64],
    claims: &[u64],
    weights: &[u64],
    grants: &mut [u64],
) -> Result<Granted, Refusal>
    ensures { let made = share_out_each interties holders pools.now claims.now weights.now grants.old in
        (answer_of result ≡ made.answer) × (grants.new ≡ made.output) }
{
    if unfit_sizes(interties, holders, pools.len(), claims.len(), weights.len()) {
        return Err(Refusal::Room);
    }
    let Some(grants) = grants.first_chunk_mut::<MOST_PAIRS>() else {
        return Err(Refusal::Room);
    };
    let pools = &pools[..interties];
    let weights = &weights[..holders];
    let weighable = vectors::all_within(weights, MOST_LOAD_SHARE);
    let claims = Claims {
        pools,
        claims,
        weights,
        weighable,
    };
    Ok(claims.on_each(grants))
}
