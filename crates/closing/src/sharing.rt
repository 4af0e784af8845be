// The share-outs of a closing: each intertie's unassigned kW over what is pending there.
ghost use Rattle.std.specs.Prelude.{◌≡◌};
ghost use Rattle.base.specs.Answers.{granted};
ghost use Rattle.base.specs.Refused.{answer_of};
ghost use Rattle.closing.specs.Close.{close_kw, close_passes};
ghost use Rattle.closing.specs.Workers.Work.{Closable, Grants};

use super::rows;
use base::Granted;
use base::limits::{MOST_HOLDERS, MOST_INTERTIES, MOST_PAIRS};
use base::refusals::Refusal;
use state::layout;

// Writes what each pair is granted into a table, and hands back kW and passes over all interties. In
// stage 1 nothing is pending, so nothing is granted. No share-out of a closing is refused. (The table is lent on to what fills it.)
pub(super) fn share_out_pending(
    state: &[u32],
    table: &mut [u64; MOST_PAIRS],
) -> Result<Granted, Refusal>
    requires { Closable state.now }
    ensures { (answer_of result ≡ granted (close_kw state.now) (close_passes state.now))
        × Grants state.now table.new }
{
    let interties = state::intertie_count(state) as usize;
    let holders = state::holder_count(state) as usize;
    let mut pools = [0u64; MOST_INTERTIES];
    rows::read_rows(state, layout::UNASSIGNED, &mut pools);
    let mut claims = [0u64; MOST_PAIRS];
    rows::read_rows(state, layout::PENDING, &mut claims);
    let mut weights = [0u64; MOST_HOLDERS];
    weights::weigh(state, &mut weights);
    intertie_shares::share_out_each(interties, holders, &pools, &claims, &weights, table)
}
