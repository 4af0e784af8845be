// Pending kW.
ghost use Rattle.std.specs.Prelude.{◌≡◌, ◌<◌, nat_le};
ghost use Rattle.base.specs.Limits.{most_holders};
ghost use Rattle.state.specs.Layout.{pending_of, of_holder};
ghost use Rattle.state.specs.Orderly.{pending_within_unplaced};
ghost use Rattle.orderly.specs.Workers.Check.{most_pending};

use super::all_of;
use super::rows::{Rows, is_clear, sum};
use base::stages::Stage;
use state::layout;

// The most that a holder may have pending: its unplaced, and 0 in stages 1 and 4.
fn most_pending(rows: &Rows, holder: u32) -> u64
    requires { holder < most_holders }
    ensures { result ≡ most_pending rows.now holder }
{
    match rows.stage() {
        Stage::Trading | Stage::Open => 0,
        Stage::FirstRequests | Stage::SecondRequests => {
            u64::from(rows.word(layout::UNPLACED, holder as usize))
        }
    }
}

// Whether a holder's pending kW are within their most. Where that is 0, so is each of them.
fn holder_pending_in_order(rows: &Rows, holder: u32) -> bool
    requires { holder < most_holders }
    ensures { let s = rows.now in result ≡ nat_le (of_holder pending_of s holder) (most_pending s holder) }
{
    let pending = rows.row(layout::PENDING + holder, rows.interties());
    let most = most_pending(rows, holder);
    if most == 0 {
        return is_clear(pending);
    }
    sum(pending) <= most
}

// Whether the pending kW of all holders are in order.
pub(super) fn pending_in_order(rows: &Rows) -> bool
    ensures { result ≡ pending_within_unplaced rows.now }
{
    all_of(rows.holders(), |h| holder_pending_in_order(rows, h))
}
