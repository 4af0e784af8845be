// What the calls of the year share: the tests of the table of refusals, each tried in its turn.
#![tactic(auto)]

ghost use Rattle.std.specs.Prelude.{◌≡◌, eqb};
ghost use Rattle.state.specs.Layout.{stage_of};
ghost use Rattle.base.specs.Refused.{number_of as refusal_number, number_in};
ghost use Rattle.base.specs.Stage.{number_of};
ghost use Rattle.call.specs.Outcome.{whenever};
ghost use Rattle.call.specs.InStage.{is_in};
ghost use Rattle.call.specs.Tests.{open_refusal, no_holder, no_intertie, no_pair, unfit_parties, bad_kw, bad_term};

use base::limits;
use base::refusals::Refusal;
use base::stages::Stage;

// A refusal where its condition holds.
pub fn refuse_if(condition: bool, refusal: Refusal) -> Result<(), Refusal>
    ensures { number_in result ≡ whenever condition (refusal_number refusal) }
{
    if condition { Err(refusal) } else { Ok(()) }
}

// Refusals 5 to 7 of a call in stage 4: the state is short or not orderly, or the stage is another.
pub fn check_open(state: &[u32]) -> Result<(), Refusal>
    ensures { number_in result ≡ open_refusal state.now }
{
    orderly::check_state(state)?;
    refuse_if(!is_stage(state, Stage::Open), Refusal::Stage)
}

// Whether a state is of a stage. (By the number: a word made a `Stage` first may name none, which would be one case more with the
// same answer.)
pub fn is_stage(state: &[u32], stage: Stage) -> bool
    ensures { result ≡ eqb (stage_of state.now) (number_of stage) }
{
    state::stage(state) == stage.number()
}

// Whether a state is of one of the stages. (A request, a move and a closing, which more than one stage allows, test this after
// `check_state`: two tests, as their definitions have them.)
pub fn is_in(state: &[u32], stages: &[Stage]) -> bool
    ensures { result ≡ is_in (stage_of state.now) stages.now }
{
    stages.iter().any(|stage| is_stage(state, *stage))
}

// Refusal 8: whether the state has no such holder. (This and `no_intertie` are two: with the count as a parameter each caller
// would read it.)
pub fn no_holder(state: &[u32], holder: u32) -> bool
    ensures { result ≡ no_holder state.now holder }
{
    state::holder_count(state) <= holder
}

// Refusal 8: whether the state has no such intertie.
pub fn no_intertie(state: &[u32], intertie: u32) -> bool
    ensures { result ≡ no_intertie state.now intertie }
{
    state::intertie_count(state) <= intertie
}

// Refusal 8: whether the state has no such holder or no such intertie.
pub fn no_pair(state: &[u32], holder: u32, intertie: u32) -> bool
    ensures { result ≡ no_pair state.now holder intertie }
{
    no_holder(state, holder) | no_intertie(state, intertie)
}

// Refusal 8: whether a party is no holder, or both are one.
pub fn unfit_parties(state: &[u32], first: u32, second: u32) -> bool
    ensures { result ≡ unfit_parties state.now first second }
{
    no_holder(state, first) | no_holder(state, second) | (first == second)
}

// Refusal 9: whether kW are not 1 to 20,000,000. (This and `bad_term` share but `contains`: their limits differ, and so do their
// types, 64 bits and 32.)
pub fn bad_kw(kw: u64) -> bool
    ensures { result ≡ bad_kw kw }
{
    !(1..=limits::MOST_KW).contains(&kw)
}

// Refusal 9: whether a term is not 1 to 30 years.
pub fn bad_term(years: u32) -> bool
    ensures { result ≡ bad_term years }
{
    !(1..=limits::MOST_YEARS).contains(&years)
}
