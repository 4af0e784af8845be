// Calls as 32-bit words: whether words are a list of calls, and what the words of one say.
ghost use Rattle.std.specs.Prelude.{◌≡◌, true, ℕ, ◌+◌, ◌≤◌, [], get_or, min, length};
ghost use Rattle.base.specs.CallKind.{number_of};
ghost use Rattle.base.specs.Limits.{grants_words};
ghost use Rattle.base.specs.Sums.{all_to};
ghost use Rattle.base.specs.Words.{at};
ghost use Rattle.lists.specs.Encoded.{kind_of, known_kind, kw_of, accepted};

use base::encoding::{ANSWER_WORDS, CALL_WORDS, CallKind};
use base::limits::{GRANTS_WORDS, WORD_VALUES};

// A call as its words say it. (Not the `Call` of journal: a line's number is one word, and the kW of a call in a list are two.)
#[derive(Clone, Copy)]
pub(super) struct Call {
    pub kind: CallKind,
    pub a: u32,
    pub b: u32,
    pub c: u32,
    pub kw: u64,
}

impl Call {
    // The call of words whose kind is known. (Decoded again here: no call runs before the kinds of all are known.)
    pub(super) fn of(words: &[u32; CALL_WORDS]) -> Call
        requires { known_kind (kind_of words.now) ≡ true }
        ensures { let w = words.now in
            (number_of result.kind ≡ at w 0) × (result.a ≡ at w 1) × (result.b ≡ at w 2) × (result.c ≡ at w 3)
            × (result.kw ≡ kw_of (at w 4) (at w 5)) }
    {
        let [kind, a, b, c, low, high] = *words;
        Call {
            kind: CallKind::try_from(kind).unwrap(),
            a,
            b,
            c,
            kw: kw_of(low, high),
        }
    }
}

// Whether the words are a list of calls, with room for the answers.
pub(super) fn accepted(calls: &[u32], room: usize) -> bool
    ensures { result ≡ accepted calls.now room }
{
    let (calls, rest) = calls.as_chunks::<CALL_WORDS>();
    rest.is_empty() & (ANSWER_WORDS * calls.len() <= room) && known_kinds(calls)
}

// Whether each call has a known kind.
fn known_kinds(calls: &[[u32; CALL_WORDS]]) -> bool
    ensures { result ≡ all_to (length calls.now) (λ (n : ℕ). known_kind (kind_of (get_or calls.now n []))) }
{
    calls.iter().all(|words| known_kind(words[0]))
}

// Whether a kind is one of the six.
fn known_kind(kind: u32) -> bool
    ensures { result ≡ known_kind kind }
{
    CallKind::try_from(kind).is_ok()
}

// The kW of a call, from its low and its high word.
fn kw_of(low: u32, high: u32) -> u64
    ensures { result ≡ kw_of low high }
{
    u64::from(low) + WORD_VALUES * u64::from(high)
}

// Where the words of the grants buffer end that a closing is lent from a place on.
pub(super) fn lent_end(start: usize, words: usize) -> usize
    requires { start ≤ words }
    ensures { result ≡ min (start + grants_words) words }
{
    start + (words - start).min(GRANTS_WORDS)
}
