// The state after a closing: grants go from unassigned to placed and leave unplaced, nothing is pending,
// and the stage is one more.
ghost use Rattle.std.specs.Prelude.{◌≡◌};
ghost use Rattle.closing.specs.Close.{close_state};
ghost use Rattle.closing.specs.Workers.Work.{Closable, Grants, Written};

use super::grants::Closing;
use base::limits::{MOST_HOLDERS, MOST_INTERTIES, MOST_PAIRS};
use state::layout;

// Writes the rows that a closing changes, raises what is placed by the grants, clears what is pending, and
// raises the stage. (By its number: a closing raises the word.)
fn write_state(
    state: &mut [u32],
    unassigned: &[u64; MOST_INTERTIES],
    unplaced: &[u64; MOST_HOLDERS],
    table: &[u64; MOST_PAIRS],
)
    requires { Closable state.old × Grants state.old table.now × Written state.old unassigned.now unplaced.now }
    ensures { state.new ≡ close_state state.old }
{
    let interties = state::intertie_count(state) as usize;
    let holders = state::holder_count(state) as usize;
    let stage = state::stage(state);
    state_rows::store_row(state, layout::UNASSIGNED as usize, interties, unassigned);
    state_rows::store_row(state, layout::UNPLACED as usize, holders, unplaced);
    state_rows::raise_pairs(state, layout::PLACED as usize, holders, interties, table);
    state_rows::clear_pairs(state, layout::PENDING as usize, holders, interties);
    state::store(state, layout::YEAR, layout::STAGE, stage + 1);
}

// Carries this closing's grants, which a table has, into the state. (No method of `Closing`, which only reads the
// state.)
pub(super) fn apply(state: &mut [u32], table: &[u64; MOST_PAIRS])
    requires { Closable state.old × Grants state.old table.now }
    ensures { state.new ≡ close_state state.old }
{
    let mut unassigned = [0u64; MOST_INTERTIES];
    let mut unplaced = [0u64; MOST_HOLDERS];
    let closing = Closing { state, table };
    closing.leave_unassigned(&mut unassigned);
    closing.leave_unplaced(&mut unplaced);
    write_state(state, &unassigned, &unplaced, table);
}
