// Trade and request: how unplaced kilowatts pass from holder to holder, and how they are asked for
// on an intertie (docs/RULES.md, "Calls of the year").
#![tactic(auto)]

ghost use Rattle.std.specs.Prelude.{◌≡◌, ◌+◌, ◌<◌, ltb};
ghost use Rattle.base.specs.Limits.{most_holders};
ghost use Rattle.base.specs.Refused.{number_in, answer_of};
ghost use Rattle.state.specs.Layout.{unplaced_of, pending_of, of_holder};
ghost use Rattle.trading.specs.Trade.{trade_refusal, with_seller, trade_state, trade};
ghost use Rattle.trading.specs.Request.{request_refusal, request_state, request};

use base::Granted;
use base::refusals::Refusal;
use base::stages::Stage;
use state::layout;

// Trade: unplaced kW from one holder to another, in stage 1. The seller joins the buyer's sellers.
#[tactic(auto, using(call::proofs::LadderLaws::is_refused, call::proofs::LadderLaws::is_done), unfolding(crate::specs::Trade::trade))]
pub fn trade(state: &mut [u32], seller: u32, buyer: u32, kw: u64) -> Result<Granted, Refusal>
    ensures { let done = trade state.old seller buyer kw in
        (answer_of result ≡ done.answer) × (state.new ≡ done.state) }
{
    check_trade(state, seller, buyer, kw)?;
    sell(state, seller, buyer, kw);
    Ok(Granted { kw, passes: 0 })
}

// Request: adds to a holder's pending kW on an intertie, in stages 2 and 3.
#[tactic(auto, using(call::proofs::LadderLaws::is_refused, call::proofs::LadderLaws::is_done), unfolding(crate::specs::Request::request))]
pub fn request(state: &mut [u32], holder: u32, intertie: u32, kw: u64) -> Result<Granted, Refusal>
    ensures { let done = request state.old holder intertie kw in
        (answer_of result ≡ done.answer) × (state.new ≡ done.state) }
{
    check_request(state, holder, intertie, kw)?;
    add_pending(state, holder, intertie, kw);
    Ok(Granted { kw, passes: 0 })
}

// The first refusal that applies to a trade. (State, holders, intertie and kW one by one, as C passes them: each test here, of a
// request too, takes only those that it tests, as its definition does.)
#[tactic(auto, using(call::proofs::LadderLaws::passes, call::proofs::LadderLaws::stops), unfolding(crate::specs::Trade::trade_refusal))]
fn check_trade(state: &[u32], seller: u32, buyer: u32, kw: u64) -> Result<(), Refusal>
    ensures { number_in result ≡ trade_refusal state.now seller buyer kw }
{
    orderly::check_state(state)?;
    call::refuse_if(!call::is_stage(state, Stage::Trading), Refusal::Stage)?;
    call::refuse_if(call::unfit_parties(state, seller, buyer), Refusal::NoSuch)?;
    call::refuse_if(call::bad_kw(kw), Refusal::Range)?;
    call::refuse_if(over_unplaced(state, seller, kw), Refusal::TooMuch)
}

// The first refusal that applies to a request.
#[tactic(auto, using(call::proofs::LadderLaws::passes, call::proofs::LadderLaws::stops), unfolding(crate::specs::Request::request_refusal))]
fn check_request(state: &[u32], holder: u32, intertie: u32, kw: u64) -> Result<(), Refusal>
    ensures { number_in result ≡ request_refusal state.now holder intertie kw }
{
    orderly::check_state(state)?;
    let asked = call::is_in(state, &[Stage::FirstRequests, Stage::SecondRequests]);
    call::refuse_if(!asked, Refusal::Stage)?;
    call::refuse_if(call::no_pair(state, holder, intertie), Refusal::NoSuch)?;
    call::refuse_if(call::bad_kw(kw), Refusal::Range)?;
    call::refuse_if(
        over_unplaced_with_pending(state, holder, kw),
        Refusal::TooMuch,
    )
}

// Refusal 10: whether kW are more than the holder's unplaced.
fn over_unplaced(state: &[u32], holder: u32, kw: u64) -> bool
    ensures { result ≡ ltb (unplaced_of state.now holder) kw }
{
    unplaced(state, holder) < kw
}

// Refusal 10: whether kW and all that the holder has pending are more than its unplaced.
fn over_unplaced_with_pending(state: &[u32], holder: u32, kw: u64) -> bool
    ensures { let s = state.now in result ≡ ltb (unplaced_of s holder) (of_holder pending_of s holder + kw) }
{
    let pending = state::of_holder(state, layout::PENDING, holder);
    unplaced(state, holder) < pending.saturating_add(kw)
}

// A holder's unplaced kW.
fn unplaced(state: &[u32], holder: u32) -> u64
    ensures { result ≡ unplaced_of state.now holder }
{
    u64::from(state::word(state, layout::UNPLACED, holder))
}

// Takes the kW from the seller's unplaced to the buyer's, and puts the seller among the buyer's
// sellers.
fn sell(state: &mut [u32], seller: u32, buyer: u32, kw: u64)
    requires { trade_refusal state.old seller buyer kw ≡ 0 }
    ensures { state.new ≡ trade_state state.old seller buyer kw }
{
    let left = unplaced(state, seller) - kw;
    let bought = unplaced(state, buyer) + kw;
    let sellers = with_seller(state::word(state, layout::SELLERS, buyer), seller);
    state::store(state, layout::UNPLACED, seller, left as u32);
    state::store(state, layout::UNPLACED, buyer, bought as u32);
    state::store(state, layout::SELLERS, buyer, sellers);
}

// A mask of sellers with one more. A bit is set once, however often its holder sold.
fn with_seller(sellers: u32, seller: u32) -> u32
    requires { seller < most_holders }
    ensures { result ≡ with_seller sellers seller }
{
    sellers | (1 << seller)
}

// Adds the kW to what the pair of holder and intertie has pending.
fn add_pending(state: &mut [u32], holder: u32, intertie: u32, kw: u64)
    requires { request_refusal state.old holder intertie kw ≡ 0 }
    ensures { state.new ≡ request_state state.old holder intertie kw }
{
    let pending = state::pair_word(state, layout::PENDING, holder, intertie);
    let more = u64::from(pending) + kw;
    state::store_pair(state, layout::PENDING, holder, intertie, more as u32);
}
