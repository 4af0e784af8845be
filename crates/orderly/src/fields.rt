// The fields of the holders.
ghost use Rattle.std.specs.Prelude.{◌≡◌};
ghost use Rattle.orderly.specs.Workers.Check.{fields_in_range};

use super::rows::{Rows, sum, within};
use base::limits;
use base::limits::words::{MOST_LOAD_SHARE, MOST_TOTAL_KW};
use state::layout;

// Whether they are in range.
pub(super) fn fields_in_range(rows: &Rows) -> bool
    ensures { result ≡ fields_in_range rows.now }
{
    let holders = rows.holders() as usize;
    let most_sellers = u32::MAX >> (limits::MOST_HOLDERS - holders);
    within(rows.row(layout::LOAD_SHARE, holders), MOST_LOAD_SHARE)
        & (sum(rows.row(layout::UNPLACED, holders)) <= limits::MOST_TOTAL_KW)
        & within(rows.row(layout::STEP_5_SHARE, holders), MOST_TOTAL_KW)
        & within(rows.row(layout::STEP_7_TOTAL, holders), MOST_TOTAL_KW)
        & within(rows.row(layout::RESERVED, holders), MOST_TOTAL_KW)
        & within(rows.row(layout::TAKINGS, holders), limits::MOST_TAKINGS)
        & within(rows.row(layout::SELLERS, holders), most_sellers)
}
