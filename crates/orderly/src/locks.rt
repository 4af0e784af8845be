// Locked kW and lock terms.
ghost use Rattle.std.specs.Prelude.{◌≡◌, ℕ, ◌<◌, ◌&&◌};
ghost use Rattle.base.specs.Sums.{all_to};
ghost use Rattle.base.specs.Limits.{most_holders, most_interties};
ghost use Rattle.state.specs.Layout.{interties};
ghost use Rattle.state.specs.Orderly.{locked_within_placed, terms_fit};
ghost use Rattle.orderly.specs.Workers.Check.{lock_fits, pair_lock_fits, unlocked};

use super::all_of;
use super::rows::Rows;
use base::limits;
use base::stages::Stage;
use state::layout;

// Whether locked kW and a lock term are in order.
fn lock_fits(placed: u32, locked: u32, term: u32) -> bool
    ensures { result ≡ lock_fits placed locked term }
{
    (locked <= placed) & (term <= limits::MOST_YEARS) & ((locked == 0) == (term == 0))
}

// The same of a pair.
fn pair_lock_fits(rows: &Rows, holder: u32, intertie: usize) -> bool
    requires { (holder < most_holders) × (intertie < most_interties) }
    ensures { result ≡ pair_lock_fits rows.now holder intertie }
{
    lock_fits(
        rows.word(layout::PLACED + holder, intertie),
        rows.word(layout::LOCKED + holder, intertie),
        rows.word(layout::TERM + holder, intertie),
    )
}

// Whether the pairs of a holder have their locks in order. (I as a u32, as in `limits_met`.)
fn pair_locks_in_order(rows: &Rows, holder: u32) -> bool
    requires { holder < most_holders }
    ensures { let s = rows.now in result ≡ all_to (interties s) (λ (i : ℕ). pair_lock_fits s holder i) }
{
    let interties = rows.interties() as u32;
    all_of(interties, |i| pair_lock_fits(rows, holder, i as usize))
}

// Whether a holder has no locked kW and no lock term. (One loop over both, by the place that both have: as
// `is_clear` of two rows a check took up to 15 per cent longer.)
#[tactic(auto, using(crate::proofs::CheckLaws::unlocked_turn), unfolding(base::specs::Sums::all_to))]
fn has_no_lock(rows: &Rows, holder: u32) -> bool
    requires { holder < most_holders }
    ensures { let s = rows.now in result ≡ all_to (interties s) (λ (i : ℕ). unlocked s holder i) }
{
    let mut bits: u32 = 0;
    for intertie in 0..rows.interties() {
        bits = bits
            | rows.word(layout::LOCKED + holder, intertie)
            | rows.word(layout::TERM + holder, intertie);
    }
    bits == 0
}

// Whether the locks of a holder are in order. Before stage 4 there are none, which is quicker to see.
#[tactic(auto, using(crate::proofs::CheckLaws::no_lock_fits))]
fn holder_locks_in_order(rows: &Rows, holder: u32) -> bool
    requires { holder < most_holders }
    ensures { let s = rows.now in result ≡ all_to (interties s) (λ (i : ℕ). pair_lock_fits s holder i) }
{
    if rows.stage() != Stage::Open {
        if has_no_lock(rows, holder) {
            return true;
        }
    }
    pair_locks_in_order(rows, holder)
}

// Whether the locks of all holders are in order.
pub(super) fn locks_in_order(rows: &Rows) -> bool
    ensures { let s = rows.now in result ≡ (locked_within_placed s && terms_fit s) }
{
    all_of(rows.holders(), |h| holder_locks_in_order(rows, h))
}
