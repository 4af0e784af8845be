// Close: grants pending kilowatts on every intertie (docs/RULES.md, "Calls of the year").
#![tactic(auto)]

mod applying;
mod grants;
mod rows;
mod sharing;

ghost use Rattle.std.specs.Prelude.{◌≡◌};
ghost use Rattle.base.specs.Refused.{number_in, answer_of};
ghost use Rattle.closing.specs.Close.{close_refusal, close};

use base::Granted;
use base::limits::{GRANTS_WORDS, MOST_PAIRS};
use base::refusals::Refusal;
use base::stages::Stage;
use grants::Closing;

// Close: shares each intertie's unassigned kW out over what is pending there, in stages 2 and 3, and
// raises the stage. Word h·I + i of the grants buffer gets the kW of holder h on intertie i.
pub fn close(state: &mut [u32], grants: &mut [u32]) -> Result<Granted, Refusal>
    ensures { let done = close state.old grants.old in
        (answer_of result ≡ done.answer) × (state.new ≡ done.state) × (grants.new ≡ done.grants) }
{
    check_close(state, grants)?;
    let mut table = [0u64; MOST_PAIRS];
    let granted = sharing::share_out_pending(state, &mut table)?;
    let closing = Closing {
        state,
        table: &table,
    };
    closing.write_grants(grants);
    applying::apply(state, &table);
    Ok(granted)
}

// The first refusal that applies to a closing.
#[tactic(auto, using(call::proofs::LadderLaws::passes, call::proofs::LadderLaws::stops), unfolding(crate::specs::Close::close_refusal))]
fn check_close(state: &[u32], grants: &[u32]) -> Result<(), Refusal>
    ensures { number_in result ≡ close_refusal state.now grants.now }
{
    call::refuse_if(grants.len() < GRANTS_WORDS, Refusal::Room)?;
    orderly::check_state(state)?;
    let stages = [Stage::Trading, Stage::FirstRequests, Stage::SecondRequests];
    call::refuse_if(!call::is_in(state, &stages), Refusal::Stage)
}
