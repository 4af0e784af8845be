// The share-out: a pool over claims with weights, in passes (docs/RULES.md, "Share-out").
#![tactic(auto)]

ghost use Rattle.std.specs.Prelude.{◌≡◌, ◌&&◌, ℕ, ◌*◌, ◌/◌, ◌≤◌, ◌<◌, length, leb, ltb};
ghost use Rattle.base.specs.Answers.{granted};
ghost use Rattle.base.specs.Choice.{pick};
ghost use Rattle.base.specs.Limits.{most_kw, most_claim_kw, most_load_share};
ghost use Rattle.base.specs.Refused.{answer_of};
ghost use Rattle.base.specs.Words.{at};
ghost use Rattle.share_out.specs.Rule.{shared, unfit_numbers, shared_answer, share_out};
ghost use Rattle.share_out.specs.Workers.Fit.{Covered, above_weights, raised, kw_parts, none, Weighable, Weighed, Rated};
ghost use Rattle.share_out.specs.Workers.Fit.{Serving, Served, Completed, Ready, Accepted};

use base::limits::{MOST_CLAIM_KW, MOST_HOLDERS, MOST_KW, MOST_LOAD_SHARE, WORD_VALUES};
use base::refusals::Refusal;
use base::{Granted, vectors};

// The parts of a kW that a rate counts: 2 to the power 38.
const PARTS: u64 = 274_877_906_944;

// 2 to the power 27, which every weight in range is below.
const ABOVE_WEIGHTS: u64 = 134_217_728;

// What raises the most that a weight can be to the last number below that power.
const RAISE: u64 = ABOVE_WEIGHTS - 1 - MOST_LOAD_SHARE;

// The bits of all claims put together, which no claim is above.
fn claim_bits(claims: &[u64]) -> u64
    ensures { Covered (length claims.now) (at claims.now) result }
{
    claims.iter().fold(0, |bits, claim| bits | *claim)
}

// The bits of a weight together with those of the sum of its lower 32 bits and RAISE: below 2 to the power 27 exactly where the
// weight is in range. (Its lower 32 bits alone, so that the sum never wraps.)
#[tactic(auto, unfolding(crate::specs::Workers::Fit::raised))]
fn raised(weight: u64) -> u64
    ensures { result ≡ raised weight }
{
    weight | (weight % WORD_VALUES + RAISE)
}

// The bits of all raised weights put together, which none of them is above.
fn weight_bits(weights: &[u64]) -> u64
    ensures { Covered (length weights.now) (λ (i : ℕ). raised (at weights.now i)) result }
{
    weights
        .iter()
        .fold(0, |bits, weight| bits | raised(*weight))
}

// Whether the bits of all show that each is within its range.
fn surely_in_range(claims: u64, weights: u64) -> bool
    ensures { result ≡ (leb claims most_claim_kw && ltb weights above_weights) }
{
    (claims <= MOST_CLAIM_KW) & (weights < ABOVE_WEIGHTS)
}

// Refusal 9: whether the pool, a claim or a weight is out of its range. Most lists are told by their bits alone. (Claims and
// weights stay two lists, as C lends them: what is known of both differs from worker to worker, and stands in its record. Not one
// with step_5's `fit_numbers`: its limits are others, and it has no way by bits.)
#[tactic(auto, using(crate::proofs::NumberLaws::numbers))]
fn unfit_numbers(pool: u64, claims: &[u64], weights: &[u64]) -> bool
    requires { length weights.now ≡ length claims.now }
    ensures { result ≡ unfit_numbers pool claims.now weights.now }
{
    if MOST_KW < pool {
        return true;
    }
    if surely_in_range(claim_bits(claims), weight_bits(weights)) {
        return false;
    }
    !(vectors::all_within(claims, MOST_CLAIM_KW) & vectors::all_within(weights, MOST_LOAD_SHARE))
}

// The weight that a holder brings into W after its part: none once the part meets its unmet claim.
fn weight_after(part: u64, unmet: u64, weight: u64) -> u64
    ensures { result ≡ pick (ltb part unmet) weight 0 }
{
    if part < unmet { weight } else { 0 }
}

// Before anything is granted, notes the weight that each holder brings into W; hands back W, the open weights' sum. (By place,
// as the passes go: a zip of three lists would yield pairs in pairs. Lent: an answer of W and these weights would be taken apart at once.)
fn weigh_open(claims: &[u64], weights: &[u64], open_weights: &mut [u64; MOST_HOLDERS]) -> u64
    requires { Weighable claims.now weights.now open_weights.old }
    ensures { let claims = claims.now in
        Weighed result claims weights.now (none claims) open_weights.new }
{
    let mut all = 0;
    for (i, claim) in claims.iter().enumerate() {
        let weight = weight_after(0, *claim, weights[i]);
        open_weights[i] = weight;
        all += weight;
    }
    all
}

// The rate of a pass: what a weight of 1 gets, in parts of a kW rounded down.
fn rate_of(left: u64, all: u64) -> u64
    requires { left ≤ most_kw }
    ensures { result ≡ left * kw_parts / all }
{
    (left * PARTS).checked_div(all).unwrap_or(0)
}

// left × weight / all rounded down. (Not inlined, since it is seldom asked for: with a division in it the passes' loop is made wide,
// and slower.)
#[cold]
#[inline(never)]
fn exact_portion(left: u64, weight: u64, all: u64) -> u64
    requires { (left ≤ most_kw) × (weight ≤ most_load_share) × (0 < all) }
    ensures { result ≡ left * weight / all }
{
    left * weight / all
}

// left × weight / all rounded down, by the rate: the exact number of parts is at least weight × rate and at most
// `weight` more, so a division is needed only where a whole kW lies between the two.
#[tactic(auto, using(crate::proofs::RateLaws::by_rate))]
fn portion(left: u64, weight: u64, all: u64, rate: u64) -> u64
    requires { Rated left weight all rate }
    ensures { result ≡ left * weight / all }
{
    let parts = weight * rate;
    let kw = parts / PARTS;
    if (parts + weight) / PARTS == kw {
        return kw;
    }
    exact_portion(left, weight, all)
}

// Serves holders in turn, lowest number first, until the pool is empty: each gets what it wants, by its unmet claim and the
// weight that it brings into W. Hands back the kW given. (By place: what a zip of `iter_mut` lends is lost to the proof.)
fn serve_in_turn<F: Fn(u64, u64) -> u64>(
    left: u64,
    want: F,
    claims: &[u64],
    open_weights: &[u64; MOST_HOLDERS],
    grants: &mut [u64],
) -> u64
    requires lists { Serving left claims.now grants.old }
    requires asked { F.IsAlwaysCallable want }
    ensures { let claims = claims.now in let g = grants.old in
        Served (F.post want) left result claims open_weights.now g grants.new }
{
    let mut rest = left;
    for (i, claim) in claims.iter().enumerate() {
        if rest == 0 {
            return left;
        }
        let unmet = claim.saturating_sub(grants[i]);
        let kw = want(unmet, open_weights[i]).min(rest);
        grants[i] += kw;
        rest -= kw;
    }
    left - rest
}

// Completes a pass that gave `given` by weight: where that is 0, holders are served in turn, with 1 kW each of the open ones
// if any is open, else with their unmet claims.
fn complete(
    given: u64,
    left: u64,
    all: u64,
    claims: &[u64],
    open_weights: &[u64; MOST_HOLDERS],
    grants: &mut [u64],
) -> u64
    requires { Serving left claims.now grants.old }
    ensures { Completed given left all result claims.now open_weights.now
        grants.old grants.new }
{
    if 0 < given {
        return given;
    }
    if 0 < all {
        let single = |_, weight| u64::from(0 < weight);
        return serve_in_turn(left, single, claims, open_weights, grants);
    }
    serve_in_turn(left, |unmet, _| unmet, claims, open_weights, grants)
}

// Shares the pool out in passes until it is empty; hands back how many were made. From pass to pass it keeps W
// (`all`) and the weight that each holder brings into it, which is 0 once its claim is met. (The labelled loop is asked for:
// docs/RULES.md, "Forms in the code". The loop over holders goes by place, as in `serve_in_turn`.)
fn by_passes(pool: u64, claims: &[u64], weights: &[u64], grants: &mut [u64]) -> u64
    requires { Ready pool claims.now weights.now grants.old }
    ensures { shared pool claims.now weights.now
        ≡ record { grants = grants.new; passes = result } }
{
    let mut open_weights = [0u64; MOST_HOLDERS];
    let mut all = weigh_open(claims, weights, &mut open_weights);
    let mut left = pool;
    let mut made = 0;
    let passes = 'passes: loop {
        if left == 0 {
            break 'passes made;
        }
        let rate = rate_of(left, all);
        let mut given = 0;
        let mut still_open = 0;
        for (i, claim) in claims.iter().enumerate() {
            let unmet = *claim - grants[i];
            let part = portion(left, open_weights[i], all, rate);
            let kw = unmet.min(part);
            grants[i] += kw;
            given += kw;
            let weight = weight_after(part, unmet, open_weights[i]);
            open_weights[i] = weight;
            still_open += weight;
        }
        left -= complete(given, left, all, claims, &open_weights, grants);
        all = still_open;
        made += 1;
    };
    passes
}

// Grants each claim whole. (By place: `copy_from_slice` asks for C's `memmove`, which nothing else here does, and what a zip of
// `iter_mut` lends is lost to the proof.)
fn grant_all(claims: &[u64], grants: &mut [u64])
    requires { length grants.old ≡ length claims.now }
    ensures { grants.new ≡ claims.now }
{
    for (i, claim) in claims.iter().enumerate() {
        grants[i] = *claim;
    }
}

// Shares out what refusals 5 and 9 let pass: each claim whole where they fit, else by passes.
fn share(pool: u64, claims: &[u64], weights: &[u64], grants: &mut [u64]) -> Granted
    requires { Accepted pool claims.now weights.now grants.old }
    ensures { let claims = claims.now in let weights = weights.now in
        (granted result.kw result.passes ≡ shared_answer pool claims weights)
        × (grants.new ≡ (shared pool claims weights).grants) }
{
    let total = vectors::sum_of(claims);
    if total <= pool {
        grant_all(claims, grants);
        return Granted {
            kw: total,
            passes: 0,
        };
    }
    vectors::clear(grants);
    let passes = by_passes(pool, claims, weights, grants);
    Granted { kw: pool, passes }
}

// Shares the pool out over the claims by weight: writes a grant for each claim into the first places of
// the output and answers the kW granted and the passes. Refused with 5 or 9 it writes nothing.
pub fn share_out(
    pool: u64,
    claims: &[u64],
    weights: &[u64],
    output: &mut [u64],
) -> Result<Granted, Refusal>
    ensures { let made = share_out pool claims.now weights.now output.old in
        (answer_of result ≡ made.answer) × (output.new ≡ made.output) }
{
    let n = claims.len();
    if !vectors::lengths_fit(n, weights.len(), output.len()) {
        return Err(Refusal::Room);
    }
    if unfit_numbers(pool, claims, weights) {
        return Err(Refusal::Range);
    }
    Ok(share(pool, claims, weights, &mut output[..n]))
}
