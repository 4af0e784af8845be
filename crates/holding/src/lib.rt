// Placed kW in their holder's hands: moved to another holder, or locked for years to come (docs/RULES.md, "Calls of the year").
#![tactic(auto)]

ghost use Rattle.std.specs.Prelude.{◌≡◌, ◌||◌, ◌-◌, ◌≤◌, ltb};
ghost use Rattle.base.specs.Limits.{most_interties, most_kw};
ghost use Rattle.base.specs.Refused.{number_in, answer_of};
ghost use Rattle.state.specs.Layout.{interties, placed_of, locked_of};
ghost use Rattle.call.specs.Tests.{no_intertie, unfit_parties, bad_kw, bad_term};
ghost use Rattle.holding.specs.Move.{move_refusal, move};
ghost use Rattle.holding.specs.Lock.{past_three_quarters, lock_refusal, lock};

use base::Granted;
use base::refusals::Refusal;
use base::stages::Stage;
use state::layout;

// Moves placed kW above locked from a holder to another on an intertie, in stages 3 and 4.
#[tactic(auto, using(call::proofs::LadderLaws::is_refused))]
pub fn move_kw(
    state: &mut [u32],
    giver: u32,
    taker: u32,
    intertie: u32,
    kw: u64,
) -> Result<Granted, Refusal>
    ensures { let done = move state.old giver taker intertie kw in
        (answer_of result ≡ done.answer) × (state.new ≡ done.state) }
{
    check_move(state, giver, taker, intertie, kw)?;
    let moved = kw as u32;
    let given = state::pair_word(state, layout::PLACED, giver, intertie);
    let held = state::pair_word(state, layout::PLACED, taker, intertie);
    state::store_pair(state, layout::PLACED, giver, intertie, given - moved);
    state::store_pair(state, layout::PLACED, taker, intertie, held + moved);
    Ok(Granted { kw, passes: 0 })
}

// Locks placed kW of a pair for a term of 1 to 30 years, in stage 4.
#[tactic(auto, using(call::proofs::LadderLaws::is_refused, call::proofs::LadderLaws::is_done), unfolding(crate::specs::Lock::lock))]
pub fn lock(
    state: &mut [u32],
    holder: u32,
    intertie: u32,
    kw: u64,
    term: u32,
) -> Result<Granted, Refusal>
    ensures { let done = lock state.old holder intertie kw term in
        (answer_of result ≡ done.answer) × (state.new ≡ done.state) }
{
    check_lock(state, holder, intertie, kw, term)?;
    state::store_pair(state, layout::LOCKED, holder, intertie, kw as u32);
    state::store_pair(state, layout::TERM, holder, intertie, term);
    Ok(Granted { kw, passes: 0 })
}

// The first refusal that applies to a move.
#[tactic(auto, using(call::proofs::LadderLaws::passes, call::proofs::LadderLaws::stops), unfolding(crate::specs::Move::move_refusal))]
fn check_move(state: &[u32], giver: u32, taker: u32, intertie: u32, kw: u64) -> Result<(), Refusal>
    ensures { number_in result ≡ move_refusal state.now giver taker intertie kw }
{
    orderly::check_state(state)?;
    let movable = call::is_in(state, &[Stage::SecondRequests, Stage::Open]);
    call::refuse_if(!movable, Refusal::Stage)?;
    call::refuse_if(unfit_move(state, giver, taker, intertie), Refusal::NoSuch)?;
    call::refuse_if(call::bad_kw(kw), Refusal::Range)?;
    call::refuse_if(over_movable(state, giver, intertie, kw), Refusal::TooMuch)
}

// The first refusal that applies to a lock. (State, holder, intertie and kW one by one, as C passes them: each test here, of a
// move too, takes only those that it tests, as its definition does.)
#[tactic(auto, using(call::proofs::LadderLaws::passes, call::proofs::LadderLaws::stops), unfolding(crate::specs::Lock::lock_refusal))]
fn check_lock(state: &[u32], holder: u32, intertie: u32, kw: u64, term: u32) -> Result<(), Refusal>
    ensures { number_in result ≡ lock_refusal state.now holder intertie kw term }
{
    call::check_open(state)?;
    call::refuse_if(call::no_pair(state, holder, intertie), Refusal::NoSuch)?;
    call::refuse_if(unfit_lock(kw, term), Refusal::Range)?;
    call::refuse_if(over_placed(state, holder, intertie, kw), Refusal::TooMuch)?;
    call::refuse_if(barred(state, holder, intertie, kw), Refusal::Lock)
}

// Refusal 8: whether the parties of a move are unfit, or there is no such intertie.
fn unfit_move(state: &[u32], giver: u32, taker: u32, intertie: u32) -> bool
    ensures { let s = state.now in result ≡ (unfit_parties s giver taker || no_intertie s intertie) }
{
    call::unfit_parties(state, giver, taker) | call::no_intertie(state, intertie)
}

// What a pair has placed above its locked kW.
fn movable(state: &[u32], holder: u32, intertie: u32) -> u64
    ensures { let s = state.now in result ≡ placed_of s holder intertie - locked_of s holder intertie }
{
    let placed = state::pair_word(state, layout::PLACED, holder, intertie);
    let locked = state::pair_word(state, layout::LOCKED, holder, intertie);
    u64::from(placed.saturating_sub(locked))
}

// Refusal 10: whether kW are more than the holder has placed above locked.
fn over_movable(state: &[u32], holder: u32, intertie: u32, kw: u64) -> bool
    ensures { let s = state.now in result ≡ ltb (placed_of s holder intertie - locked_of s holder intertie) kw }
{
    movable(state, holder, intertie) < kw
}

// Refusal 9: whether kW or term of a lock are out of their ranges.
fn unfit_lock(kw: u64, term: u32) -> bool
    ensures { result ≡ (bad_kw kw || bad_term term) }
{
    call::bad_kw(kw) | call::bad_term(term)
}

// Refusal 10: whether kW are more than the pair has placed.
fn over_placed(state: &[u32], holder: u32, intertie: u32, kw: u64) -> bool
    ensures { result ≡ ltb (placed_of state.now holder intertie) kw }
{
    u64::from(state::pair_word(state, layout::PLACED, holder, intertie)) < kw
}

// Refusal 13: whether the pair has a lock, or three quarters would be passed.
fn barred(state: &[u32], holder: u32, intertie: u32, kw: u64) -> bool
    requires { (interties state.now ≤ most_interties) × (kw ≤ most_kw) }
    ensures { let s = state.now in result ≡ (ltb 0 (locked_of s holder intertie) || past_three_quarters s holder kw) }
{
    (0 < state::pair_word(state, layout::LOCKED, holder, intertie))
        | past_three_quarters(state, holder, kw)
}

// Whether 4 × (reserved + all locked), with kW more, is above 3 × Step 7 total.
fn past_three_quarters(state: &[u32], holder: u32, kw: u64) -> bool
    requires { (interties state.now ≤ most_interties) × (kw ≤ most_kw) }
    ensures { result ≡ past_three_quarters state.now holder kw }
{
    let total = u64::from(state::word(state, layout::STEP_7_TOTAL, holder));
    let reserved = u64::from(state::word(state, layout::RESERVED, holder));
    let locked = state::of_holder(state, layout::LOCKED, holder) + kw;
    3 * total < 4 * (reserved + locked)
}
