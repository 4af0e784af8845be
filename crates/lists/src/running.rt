// Calls run one after the other, each on the state as the call before it left it.
ghost use Rattle.std.specs.Prelude.{◌≡◌, true, ◌+◌, ◌*◌, ◌≤◌, ◌<◌, min, length, take, drop};
ghost use Rattle.base.specs.Choice.{pick};
ghost use Rattle.base.specs.Encoding.{answer_words};
ghost use Rattle.base.specs.Limits.{grants_words};
ghost use Rattle.base.specs.Refused.{answer_of};
ghost use Rattle.balances.specs.Calls.{result as call_result, after};
ghost use Rattle.lists.specs.Encoded.{call_count, calls_of, accepted, grants_after, answers_after};
ghost use Rattle.lists.specs.Encoded.{kind_of, known_kind, is_closing, call_of, with_lent, with_answer};
ghost use Rattle.lists.specs.Workers.Said.{said, lent_after};

use super::encoded;
use super::encoded::Call;
use base::encoding::{ANSWER_WORDS, CALL_WORDS, CallKind};
use base::refusals::Refusal;
use base::{Answer, Granted};

// Runs all calls of a list. (What is lent to a closing and where an answer stands go by place: of `chunks_mut` and
// `as_chunks_mut` nothing is said of what the slice ends as.)
pub(super) fn run_all(calls: &[u32], state: &mut [u32], grants: &mut [u32], answers: &mut [u64])
    requires { accepted calls.now (length answers.old) ≡ true }
    ensures { let words = calls.now in let s = state.old in let g = grants.old in
        (state.new ≡ after (calls_of words g) s)
        × (grants.new ≡ grants_after words s g (call_count words))
        × (answers.new ≡ answers_after words s g answers.old (call_count words)) }
{
    let (calls, _) = calls.as_chunks::<CALL_WORDS>();
    let mut start = 0;
    for (n, words) in calls.iter().enumerate() {
        start = run_call(words, n, start, state, grants, answers);
    }
}

// Runs call n, given by its words. The next closing is lent the words of the grants buffer from
// `start` on. Returns where those of the closing after this call begin. (State, grants and answers are three, as C lends them.)
fn run_call(
    words: &[u32; CALL_WORDS],
    n: usize,
    start: usize,
    state: &mut [u32],
    grants: &mut [u32],
    answers: &mut [u64],
) -> usize
    requires { (known_kind (kind_of words.now) ≡ true) × (answer_words * n + 2 < length answers.old) × (start ≤ length grants.old) }
    ensures { let w = words.now in let g = grants.old in
        let gives = call_result (call_of w (take grants_words (drop start g))) state.old in
        (result ≡ pick (is_closing w) (min (start + grants_words) (length g)) start)
        × (state.new ≡ gives.state)
        × (grants.new ≡ with_lent w g start gives.grants)
        × (answers.new ≡ with_answer answers.old n gives.answer) }
{
    let call = Call::of(words);
    let end = encoded::lent_end(start, grants.len());
    let outcome = run_one(call, state, &mut grants[start..end]);
    store_answer(answers, n, Answer::from(outcome));
    match call.kind {
        CallKind::Close => end,
        _ => start,
    }
}

// Runs a call. A closing is lent words of the grants buffer, which other calls leave as they are.
#[tactic(auto, unfolding(balances::specs::Calls::result))]
fn run_one(call: Call, state: &mut [u32], lent: &mut [u32]) -> Result<Granted, Refusal>
    ensures { let gives = call_result (said call lent.old) state.old in
        (answer_of result ≡ gives.answer) × (state.new ≡ gives.state) × (lent.new ≡ lent_after call.kind gives.grants lent.old) }
{
    match call.kind {
        CallKind::Trade => trading::trade(state, call.a, call.b, call.kw),
        CallKind::Request => trading::request(state, call.a, call.b, call.kw),
        CallKind::Close => closing::close(state, lent),
        CallKind::Take => taking::take(state, call.a, call.b, call.kw, call.c),
        CallKind::Move => holding::move_kw(state, call.a, call.b, call.c, call.kw),
        CallKind::Lock => holding::lock(state, call.a, call.b, call.kw, call.c),
    }
}

// Writes the words of the answer to call n.
fn store_answer(answers: &mut [u64], n: usize, answer: Answer)
    requires { answer_words * n + 2 < length answers.old }
    ensures { answers.new ≡ with_answer answers.old n answer }
{
    let place = ANSWER_WORDS * n;
    let words = [u64::from(answer.refusal), answer.kw, answer.passes];
    answers[place..place + ANSWER_WORDS].copy_from_slice(&words);
}
