// What a control room asks for: the figures of an intertie and of a holder, from the year's state and
// from a list of calls with its answers.
#![tactic(auto)]

mod sums;
mod trades;

ghost use Rattle.std.specs.Prelude.{◌≡◌};
ghost use Rattle.control_room.specs.Figures.{intertie_figures, holder_figures};
ghost use Rattle.control_room.specs.Trades.{called_count};

use base::limits::STATE_WORDS;
use state::layout;
pub use trades::Called;
use trades::Party;

// The figures of an intertie, in kW: reserved is E, P and N of all holders on it, placed and taken are
// those of all holders.
#[derive(Clone, Copy, Default)]
pub struct IntertieFigures {
    pub limit: u64,
    pub outside: u64,
    pub reserved: u64,
    pub placed: u64,
    pub taken: u64,
    pub unassigned: u64,
}

// The figures of a holder, in kW: bought and sold by the granted trades of the list, placed and locked
// over all interties.
#[derive(Clone, Copy, Default)]
pub struct HolderFigures {
    pub step_5_share: u64,
    pub bought: u64,
    pub sold: u64,
    pub placed: u64,
    pub unplaced: u64,
    pub reserved: u64,
    pub locked: u64,
}

// The figures of an intertie; all 0 where the state has none of that number, as they are printed then (an Option would be no
// plainer).
#[tactic(auto, using(crate::proofs::FigureLaws::few_holders, crate::proofs::FigureLaws::intertie_read))]
pub fn intertie_figures(state: &[u32; STATE_WORDS], intertie: u32) -> IntertieFigures
    ensures { result ≡ intertie_figures state.now intertie }
{
    if !sums::is_among(state, intertie, state::intertie_count(state)) {
        return IntertieFigures::default();
    }
    IntertieFigures {
        limit: sums::field_word(state, layout::LIMIT, intertie),
        outside: sums::field_word(state, layout::OUTSIDE, intertie),
        reserved: sums::reserved_on(state, intertie),
        placed: state::on_intertie(state, layout::PLACED, intertie),
        taken: state::on_intertie(state, layout::TAKEN, intertie),
        unassigned: sums::field_word(state, layout::UNASSIGNED, intertie),
    }
}

// The figures of a holder, with the trades of the calls; all 0 where the state has no holder of that number.
#[tactic(auto, using(crate::proofs::FigureLaws::holder_read), unfolding(crate::specs::Trades::bought, crate::specs::Trades::sold))]
pub fn holder_figures(state: &[u32; STATE_WORDS], called: Called<'_>, holder: u32) -> HolderFigures
    ensures { let calls = called.entry.calls.now in let answers = called.entry.answers.now in
        result ≡ holder_figures state.now calls answers (called_count calls answers) holder }
{
    if !sums::is_among(state, holder, state::holder_count(state)) {
        return HolderFigures::default();
    }
    HolderFigures {
        step_5_share: sums::field_word(state, layout::STEP_5_SHARE, holder),
        bought: called.traded(Party::Buyer, holder),
        sold: called.traded(Party::Seller, holder),
        placed: state::of_holder(state, layout::PLACED, holder),
        unplaced: sums::field_word(state, layout::UNPLACED, holder),
        reserved: sums::field_word(state, layout::RESERVED, holder),
        locked: state::of_holder(state, layout::LOCKED, holder),
    }
}
