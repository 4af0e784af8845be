// How long a journal is at most, named here once; specs/Sizes has the same. Nothing of `read_journal` hangs on it: these
// are the sizes that program `year` and its figures have room for.
use base::encoding::{ANSWER_WORDS, CALL_WORDS};

// The bytes of its text.
pub const MOST_JOURNAL_BYTES: usize = 1_048_576;

// Its calls.
pub const MOST_CALLS: usize = 16_384;

// The words of so many calls, and of their answers.
pub const CALLS_WORDS: usize = CALL_WORDS * MOST_CALLS;

pub const ANSWERS_WORDS: usize = ANSWER_WORDS * MOST_CALLS;
