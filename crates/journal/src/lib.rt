// Reads the text of a journal, a call a line, into the words that `lists::run_calls` runs.
#![tactic(auto)]

mod calls;
mod faults;
mod lines;
pub mod sizes;
mod words;

ghost use Rattle.std.specs.Prelude.{◌≡◌};
ghost use Rattle.journal.specs.Journals.{answer_of, calls_left};

use base::encoding::CALL_WORDS;
pub use faults::{Fault, Unreadable};

// Reads a journal into the words of its calls (base::encoding), CALL_WORDS to each, and answers how many there are.
// Where a line can't be read `calls` stays as it was, for which the lines are read twice: checked, then written. (Lent, with a count: the
// room for calls is the caller's.)
pub fn read_journal(text: &[u8], calls: &mut [u32]) -> Result<usize, Unreadable>
    ensures { let t = text.now in let words = calls.old in
        (result ≡ answer_of t words) × (calls.new ≡ calls_left t words) }
{
    let count = lines::check(text, calls.len() / CALL_WORDS)?;
    lines::put_calls(text, calls);
    Ok(count)
}
