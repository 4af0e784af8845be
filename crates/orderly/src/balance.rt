// The limits, and the balance on each intertie, added in 32 bits. A limit is below 2^25, and so are
// the kW of each pair that stand against it; where they are, their sums don't pass 32 bits.
ghost use Rattle.std.specs.Prelude.{◌≡◌, ℕ, ◌+◌, ◌*◌, ◌/◌, ◌%◌, ◌^◌, ◌<◌, ◌≤◌, ◌&&◌, nat_lt};
ghost use Rattle.base.specs.Sums.{sum_to, all_to};
ghost use Rattle.base.specs.Words.{at, fill};
ghost use Rattle.base.specs.Limits.{most_holders, most_interties};
ghost use Rattle.state.specs.Layout.{interties, holders};
ghost use Rattle.state.specs.Orderly.{limits_in_range, balanced};
ghost use Rattle.orderly.specs.Workers.Check.{too_many_kw, pair_kw, pair_fits, Cleared, Added, limit_met};

use super::all_of;
use super::rows::{Rows, within};
use base::limits::MOST_INTERTIES;
use base::limits::words::MOST_KW;
use state::layout;

// 2^25: more than a limit may be.
const TOO_MANY_KW: u32 = 33_554_432;

// The kW of one pair or more that stand against an intertie's limit: their sum, in 32 bits, and the bits of each pair's words and
// of each pair's own sum, put together by `|`. The bits are below 2^25 where all of these are, and then no pair's sum has wrapped.
#[derive(Clone, Copy)]
struct Kw {
    sum: u32,
    bits: u32,
}

// The kW of a pair.
#[tactic(auto, using(crate::proofs::BalanceLaws::pair_kw_wraps, crate::proofs::BalanceLaws::pair_bits_tell))]
fn pair_kw(rows: &Rows, holder: u32, intertie: usize) -> Kw
    requires { (holder < most_holders) × (intertie < most_interties) }
    ensures { let s = rows.now in
        (result.sum ≡ pair_kw s holder intertie % 2 ^ 32) × (nat_lt result.bits too_many_kw ≡ pair_fits s holder intertie) }
{
    let existing = rows.word(layout::EXISTING + holder, intertie);
    let pre_ra = rows.word(layout::PRE_RA + holder, intertie);
    let new_use = rows.word(layout::NEW_USE + holder, intertie);
    let placed = rows.word(layout::PLACED + holder, intertie);
    let taken = rows.word(layout::TAKEN + holder, intertie);
    let reserved = existing.wrapping_add(pre_ra).wrapping_add(new_use);
    let sum = reserved.wrapping_add(placed).wrapping_add(taken);
    Kw {
        sum,
        bits: existing | pre_ra | new_use | placed | taken | sum,
    }
}

// The kW of the pairs of N holders, from one of them on, on an intertie.
#[tactic(auto, using(crate::proofs::BalanceLaws::turns), unfolding(base::specs::Sums::sum_to, base::specs::Sums::all_to))]
fn kw_of<const N: u32>(rows: &Rows, holder: u32, intertie: usize) -> Kw
    requires { (holder + N ≤ most_holders) × (intertie < most_interties) }
    ensures { let s = rows.now in
        (result.sum ≡ sum_to N (λ (k : ℕ). pair_kw s (holder + k) intertie) % 2 ^ 32)
        × (nat_lt result.bits too_many_kw ≡ all_to N (λ (k : ℕ). pair_fits s (holder + k) intertie)) }
{
    let mut sum: u32 = 0;
    let mut bits: u32 = 0;
    for k in 0..N {
        let pair = pair_kw(rows, holder + k, intertie);
        sum = sum.wrapping_add(pair.sum);
        bits = bits | pair.bits;
    }
    Kw { sum, bits }
}

// Adds the kW of N holders, from one of them on, to the sums of the interties. (Two at once are quicker than one after the
// other.) The result has the bits of their pairs. (By place: `kw_of` goes by an intertie's number, and of the sums only the first I are
// meant, which a walk over them would have to cut off and count.)
fn add_kw<const N: u32>(rows: &Rows, holder: u32, sums: &mut [u32; MOST_INTERTIES]) -> u32
    requires { holder + N ≤ most_holders }
    ensures { let s = rows.now in let before = sums.old in
        (nat_lt result too_many_kw ≡ all_to (interties s) (λ (i : ℕ). all_to N (λ (k : ℕ). pair_fits s (holder + k) i)))
        × (sums.new ≡ fill (interties s)
        (λ (i : ℕ). (at before i + sum_to N (λ (k : ℕ). pair_kw s (holder + k) i) % 2 ^ 32) % 2 ^ 32) before) }
{
    let mut bits: u32 = 0;
    for intertie in 0..rows.interties() {
        let kw = kw_of::<N>(rows, holder, intertie);
        bits = bits | kw.bits;
        sums[intertie] = sums[intertie].wrapping_add(kw.sum);
    }
    bits
}

// The kW of each intertie, two holders after two, added to sums of 0. The result has the bits of
// their pairs. (Twos are counted: a `for` over `step_by(2)` is no shorter, and asks for a measure besides.)
#[tactic(auto, using(crate::proofs::BalanceLaws::added_none))]
fn add_by_two(rows: &Rows, sums: &mut [u32; MOST_INTERTIES]) -> u32
    requires { Cleared (interties rows.now) sums.old }
    ensures { let s = rows.now in Added s (2 * (holders s / 2)) result sums.new }
{
    let mut bits: u32 = 0;
    for two in 0..rows.holders() / 2 {
        bits = bits | add_kw::<2>(rows, 2 * two, sums);
    }
    bits
}

// The same, of all holders.
fn add_holders(rows: &Rows, sums: &mut [u32; MOST_INTERTIES]) -> u32
    requires { Cleared (interties rows.now) sums.old }
    ensures { let s = rows.now in Added s (holders s) result sums.new }
{
    let holders = rows.holders();
    let bits = add_by_two(rows, sums);
    if holders % 2 == 0 {
        return bits;
    }
    bits | add_kw::<1>(rows, holders - 1, sums)
}

// Whether an intertie's limit is its outside rights, what its pairs have, and its unassigned kW.
fn limit_met(rows: &Rows, intertie: usize, kw: u32) -> bool
    requires { intertie < most_interties }
    ensures { result ≡ limit_met rows.now intertie kw }
{
    let limit = rows.word(layout::LIMIT, intertie);
    let outside = rows.word(layout::OUTSIDE, intertie);
    let unassigned = rows.word(layout::UNASSIGNED, intertie);
    u64::from(limit) == u64::from(outside) + u64::from(kw) + u64::from(unassigned)
}

// Whether every limit is met by the sums of the pairs. (Cast twice: `all_of` counts in u32, as H is one, and an intertie is a place.)
fn limits_met(rows: &Rows, sums: &[u32; MOST_INTERTIES]) -> bool
    ensures { let s = rows.now in result ≡ all_to (interties s) (λ (i : ℕ). limit_met s i (at sums.now i)) }
{
    let interties = rows.interties() as u32;
    all_of(interties, |i| limit_met(rows, i as usize, sums[i as usize]))
}

// Limits in range, and the balance on each intertie. (The sums are lent on, and cleared once: each two holders are added to them.)
pub(super) fn limits_balance(rows: &Rows) -> bool
    ensures { let s = rows.now in result ≡ (limits_in_range s && balanced s) }
{
    let interties = rows.interties();
    let mut sums = [0u32; MOST_INTERTIES];
    let bits = add_holders(rows, &mut sums);
    within(rows.row(layout::LIMIT, interties), MOST_KW)
        & (bits < TOO_MANY_KW)
        & limits_met(rows, &sums)
}
