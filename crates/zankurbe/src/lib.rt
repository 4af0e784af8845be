// The library as C and Rust link it: every call under one prefix. A slice is a pointer and a count.
#![tactic(auto)]

ghost use Rattle.std.specs.Prelude.{◌≡◌};
ghost use Rattle.base.specs.Refused.{number_in};
ghost use Rattle.zankurbe.specs.Version.{version};
ghost use Rattle.share_out.specs.Rule.{share_out};
ghost use Rattle.sheet_records.specs.Refusal.{sheet_refusal};
ghost use Rattle.state.specs.Orderly.{state_refusal};
ghost use Rattle.opening.specs.Open.{opened};
ghost use Rattle.posting.specs.Post.{posted};
ghost use Rattle.same.specs.Same.{compared};
ghost use Rattle.trading.specs.Trade.{trade};
ghost use Rattle.trading.specs.Request.{request};
ghost use Rattle.holding.specs.Move.{move};
ghost use Rattle.holding.specs.Lock.{lock};
ghost use Rattle.taking.specs.Take.{take};
ghost use Rattle.closing.specs.Close.{close};
ghost use Rattle.lists.specs.Encoded.{run};
ghost use Rattle.carrying.specs.Carry.{carried};

use base::Answer;
use base::refusals::Refusal;
use posting::rows::NUMBERS;
use same::Verdict;

// The version of the library, named here once: 10,000 · major + 100 · minor + patch.
pub const VERSION: u32 = 10_000;

// The version of the library.
#[unsafe(no_mangle)]
pub extern "C" fn zankurbe_version() -> u32
    ensures { result ≡ version }
{
    VERSION
}

// The number of an outcome's refusal, or 0. (C reads a number.)
fn number_in(outcome: Result<(), Refusal>) -> u32
    ensures { result ≡ number_in outcome }
{
    match outcome {
        Ok(()) => 0,
        Err(refusal) => refusal.number(),
    }
}

// Shares a pool out over claims by weight (share_out::share_out).
#[unsafe(no_mangle)]
pub extern "C" fn zankurbe_share_out(
    pool: u64,
    claims: &[u64],
    weights: &[u64],
    output: &mut [u64],
) -> Answer
    ensures { let shared = share_out pool claims.now weights.now output.old in
        (result ≡ shared.answer) × (output.new ≡ shared.output) }
{
    Answer::from(share_out::share_out(pool, claims, weights, output))
}

// The refusal of a sheet, 1 to 4, or 0.
#[unsafe(no_mangle)]
pub extern "C" fn zankurbe_sheet_refusal(sheet: &[u8]) -> u32
    ensures { result ≡ sheet_refusal sheet.now }
{
    number_in(sheet_reading::refusal::sheet_refusal(sheet))
}

// The refusal that every call of the year begins with: 5, 6, or 0.
#[unsafe(no_mangle)]
pub extern "C" fn zankurbe_state_refusal(state: &[u32]) -> u32
    ensures { result ≡ state_refusal state.now }
{
    number_in(orderly::check_state(state))
}

// Opens the year from a sheet (Steps 1 to 7); answers T.
#[unsafe(no_mangle)]
pub extern "C" fn zankurbe_open(sheet: &[u8], state: &mut [u32]) -> Answer
    ensures { let year = opened sheet.now state.old in
        (result ≡ year.answer) × (state.new ≡ year.state) }
{
    Answer::from(opening::open(sheet, state))
}

// Posts a sheet: T, and the numbers of its lines in ten rows of 48 (posting::post).
#[unsafe(no_mangle)]
pub extern "C" fn zankurbe_post(sheet: &[u8], lines: &mut [u64; NUMBERS]) -> Answer
    ensures { let posting = posted sheet.now lines.old in
        (result ≡ posting.answer) × (lines.new ≡ posting.lines) }
{
    Answer::from(posting::post(sheet, lines))
}

// Says whether two sheets open to equal states, or refuses the first or the second.
#[unsafe(no_mangle)]
pub extern "C" fn zankurbe_same(first: &[u8], second: &[u8]) -> Verdict
    ensures { result ≡ compared first.now second.now }
{
    Verdict::from(same::same(first, second))
}

// Trades unplaced kW from one holder to another (stage 1).
#[unsafe(no_mangle)]
pub extern "C" fn zankurbe_trade(state: &mut [u32], seller: u32, buyer: u32, kw: u64) -> Answer
    ensures { let traded = trade state.old seller buyer kw in
        (result ≡ traded.answer) × (state.new ≡ traded.state) }
{
    Answer::from(trading::trade(state, seller, buyer, kw))
}

// Requests kW on an intertie (stages 2 and 3).
#[unsafe(no_mangle)]
pub extern "C" fn zankurbe_request(state: &mut [u32], holder: u32, intertie: u32, kw: u64) -> Answer
    ensures { let requested = request state.old holder intertie kw in
        (result ≡ requested.answer) × (state.new ≡ requested.state) }
{
    Answer::from(trading::request(state, holder, intertie, kw))
}

// Moves placed kW above locked from one holder to another on an intertie (stages 3 and 4).
#[unsafe(no_mangle)]
pub extern "C" fn zankurbe_move(
    state: &mut [u32],
    giver: u32,
    taker: u32,
    intertie: u32,
    kw: u64,
) -> Answer
    ensures { let moved = move state.old giver taker intertie kw in
        (result ≡ moved.answer) × (state.new ≡ moved.state) }
{
    Answer::from(holding::move_kw(state, giver, taker, intertie, kw))
}

// Locks placed kW of a pair for a term in years (stage 4).
#[unsafe(no_mangle)]
pub extern "C" fn zankurbe_lock(
    state: &mut [u32],
    holder: u32,
    intertie: u32,
    kw: u64,
    term: u32,
) -> Answer
    ensures { let locked = lock state.old holder intertie kw term in
        (result ≡ locked.answer) × (state.new ≡ locked.state) }
{
    Answer::from(holding::lock(state, holder, intertie, kw, term))
}

// Takes unassigned kW on an intertie, on a day (stage 4).
#[unsafe(no_mangle)]
pub extern "C" fn zankurbe_take(
    state: &mut [u32],
    holder: u32,
    intertie: u32,
    kw: u64,
    day: u32,
) -> Answer
    ensures { let taken = take state.old holder intertie kw day in
        (result ≡ taken.answer) × (state.new ≡ taken.state) }
{
    Answer::from(taking::take(state, holder, intertie, kw, day))
}

// Closes the stage (1 to 3): grants what is pending, writes the grants and raises the stage.
#[unsafe(no_mangle)]
pub extern "C" fn zankurbe_close(state: &mut [u32], grants: &mut [u32]) -> Answer
    ensures { let closed = close state.old grants.old in
        (result ≡ closed.answer) × (state.new ≡ closed.state) × (grants.new ≡ closed.grants) }
{
    Answer::from(closing::close(state, grants))
}

// Runs a list of calls (lists::run_calls). False, and nothing touched, where the words are no such list. (C reads a bool.)
#[unsafe(no_mangle)]
pub extern "C" fn zankurbe_run_calls(
    calls: &[u32],
    state: &mut [u32],
    grants: &mut [u32],
    answers: &mut [u64],
) -> bool
    ensures { let ran = run calls.now state.old grants.old answers.old in
        (result ≡ ran.done) × (state.new ≡ ran.state)
        × (grants.new ≡ ran.grants) × (answers.new ≡ ran.answers) }
{
    lists::run_calls(calls, state, grants, answers)
}

// Writes next year's sheet into the output (stage 4), from this year's sheet and state.
#[unsafe(no_mangle)]
pub extern "C" fn zankurbe_carry(sheet: &[u8], state: &[u32], output: &mut [u8]) -> Answer
    ensures { let next = carried sheet.now state.now output.old in
        (result ≡ next.answer) × (output.new ≡ next.output) }
{
    Answer::from(carrying::carry(sheet, state, output))
}
