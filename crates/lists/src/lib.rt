// A list of calls as words, and a function that runs one. What holds after every list stands in `balances`.
#![tactic(auto)]

mod encoded;
mod running;

ghost use Rattle.std.specs.Prelude.{◌≡◌};
ghost use Rattle.lists.specs.Encoded.{run};

// Runs a list of calls over the lent words, as base::encoding has the words of a call and of its answer.
// Closing k, counted from 0, is lent the k-th 1,536 words of `grants` (base::limits), as many of them as there
// are. Answers false, and runs no call, where the words are no list of calls or `answers` has no room. (A bool, as C reads it:
// an error of one kind would say no more.)
#[tactic(auto, using(crate::proofs::RunLaws::run_none))]
pub fn run_calls(calls: &[u32], state: &mut [u32], grants: &mut [u32], answers: &mut [u64]) -> bool
    ensures { let ran = run calls.now state.old grants.old answers.old in
        (result ≡ ran.done) × (state.new ≡ ran.state)
        × (grants.new ≡ ran.grants) × (answers.new ≡ ran.answers) }
{
    if !encoded::accepted(calls, answers.len()) {
        return false;
    }
    running::run_all(calls, state, grants, answers);
    true
}
