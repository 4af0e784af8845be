// Fields of the state: a word of them, and the sums over holders.
ghost use Rattle.std.specs.Prelude.{◌≡◌, ◌≤◌, ◌&&◌, ltb};
ghost use Rattle.base.specs.Words.{at};
ghost use Rattle.base.specs.Limits.{most_holders};
ghost use Rattle.state.specs.Layout.{place, holders};
ghost use Rattle.control_room.specs.Figures.{sizes_fit, reserved_on};

use base::limits::STATE_WORDS;
use base::limits::words::{MOST_HOLDERS, MOST_INTERTIES};
use state::layout;

// Whether the state has no more interties and holders than a sheet may have. (Not base's `sizes_in_range`, which asks for one
// of each: a holder of a state without interties has figures.)
#[tactic(auto, unfolding(crate::specs::Figures::sizes_fit))]
fn sizes_in_range(state: &[u32; STATE_WORDS]) -> bool
    ensures { result ≡ sizes_fit state.now }
{
    (state::intertie_count(state) <= MOST_INTERTIES) & (state::holder_count(state) <= MOST_HOLDERS)
}

// Whether the state's sizes are in range and a number is below one of them.
pub(super) fn is_among(state: &[u32; STATE_WORDS], number: u32, count: u32) -> bool
    ensures { result ≡ (sizes_fit state.now && ltb number count) }
{
    sizes_in_range(state) & (number < count)
}

// The word of an intertie or a holder in a field.
pub(super) fn field_word(state: &[u32; STATE_WORDS], field: u32, number: u32) -> u64
    ensures { result ≡ at state.now (place field number) }
{
    u64::from(state::word(state, field, number))
}

// E, P and N of all holders on an intertie.
#[tactic(auto, unfolding(crate::specs::Figures::reserved_on))]
pub(super) fn reserved_on(state: &[u32; STATE_WORDS], intertie: u32) -> u64
    requires { holders state.now ≤ most_holders }
    ensures { result ≡ reserved_on state.now intertie }
{
    state::on_intertie(state, layout::EXISTING, intertie)
        + state::on_intertie(state, layout::PRE_RA, intertie)
        + state::on_intertie(state, layout::NEW_USE, intertie)
}
