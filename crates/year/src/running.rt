// The calls run in stretches that end with a closing, so that one grants buffer serves any number of
// closings, or with the most answers of a text; the answers and the grants of a stretch are printed when it has run.
ghost use Rattle.std.specs.Prelude.{◌≤◌, ◌<◌, OnOk};
ghost use Rattle.journal.specs.Sizes.{most_calls};
ghost use Rattle.year.specs.Year.{YearRan};
ghost use Rattle.year.specs.Workers.Stretches.{Ran, OneClosing};

use super::faults::Failure;
use super::output;
use arrayvec::ArrayVec;
use base::encoding::{ANSWER_WORDS, CALL_WORDS, CallKind};
use base::limits::GRANTS_WORDS;
use journal::sizes::{ANSWERS_WORDS, CALLS_WORDS};
use year_text::{MOST_ANSWERS, TEXT_BYTES};

// The calls of a journal: the first words are theirs. (With the count of calls, as reading a journal answers it, where control_room's
// `Called` has none: a stretch goes from a call to a call, and of words that end with the calls the count would be found again by a
// division, here and in each stretch.)
#[derive(Clone, Copy)]
pub(super) struct Calls<'a> {
    pub words: &'a [u32; CALLS_WORDS],
    pub count: usize,
    ghost few: { count ≤ most_calls },
}

impl Calls<'_> {
    // Runs the calls and prints what they answer. (A while: each stretch says where the next begins.)
    pub(super) fn run_all(
        self,
        stdout: &impl Print,
        state: &mut [u32],
        answers: &mut [u64; ANSWERS_WORDS],
        text: &mut ArrayVec<u8, TEXT_BYTES>,
    ) -> Result<(), Failure>
        ensures { let calls = self.entry in let s = state.old in let a = answers.old in
            OnOk result (YearRan calls.words.now s a calls.count state.new answers.new) }
    {
        // (Twice: what a field shows is lent again only by a variable.)
        let words = self.words;
        let words = &words[..];
        let mut first = 0;
        while first < self.count {
            let end = self.stretch_end(first);
            let stretch = &words[CALL_WORDS * first..CALL_WORDS * end];
            let room = &mut answers[ANSWER_WORDS * first..ANSWER_WORDS * end];
            run_stretch(stdout, stretch, state, room, text)?;
            first = end;
        }
        Ok(())
    }

    // Where the stretch from a call on ends: after its first closing, with the most answers of a text, or with the last call. (By
    // the call's number: `position` counts from where the stretch begins, which would be added to it again.)
    fn stretch_end(self, first: usize) -> usize
        requires { first < self.count }
        ensures { let calls = self.entry in
            (first < result) × (result ≤ calls.count) × OneClosing calls.words.now first result }
    {
        let last = self.count.min(first + MOST_ANSWERS);
        for n in first..last {
            if self.words[CALL_WORDS * n] == CallKind::Close.number() {
                return n + 1;
            }
        }
        last
    }
}

// Runs calls of which only the last may be a closing, and prints their answers and the grants of the
// closing. A refused closing leaves the grants at 0.
fn run_stretch(
    stdout: &impl Print,
    calls: &[u32],
    state: &mut [u32],
    answers: &mut [u64],
    text: &mut ArrayVec<u8, TEXT_BYTES>,
) -> Result<(), Failure>
    ensures { let words = calls.now in let s = state.old in let a = answers.old in
        OnOk result (Ran words s a state.new answers.new) }
{
    let mut grants = [0u32; GRANTS_WORDS];
    if !lists::run_calls(calls, state, &mut grants, answers) {
        return Err(Failure::NotRun);
    }
    year_text::answers_text(answers, text);
    output::write(stdout, text.as_slice())?;
    let interties = state::intertie_count(state) as usize;
    year_text::grants_text(&grants, interties, text);
    output::write(stdout, text.as_slice())
}
