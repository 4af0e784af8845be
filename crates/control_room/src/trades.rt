// The granted trades of a list: what a holder bought and sold by them.
ghost use Rattle.std.specs.Prelude.{◌≡◌, min};
ghost use Rattle.base.specs.Sums.{sum_to};
ghost use Rattle.journal.specs.Sizes.{most_calls};
ghost use Rattle.control_room.specs.Trades.{word_of, called_count, traded_by, traded_in};

use base::encoding::{ANSWER_WORDS, CALL_WORDS, CallKind};
use journal::sizes::MOST_CALLS;

// The parties of a trade, each by the word that names it. The kind is word 0.
#[derive(Clone, Copy)]
pub(super) enum Party {
    Seller = 1,
    Buyer = 2,
}

impl Party {
    fn word(self) -> usize
        ensures { result ≡ word_of self }
    {
        self as usize
    }
}

// The word of a trade's kW.
const KW: usize = 4;

// The kW of a call where it is a granted trade with the holder as the party, else 0. (By its words: lists
// keeps its `Call` to itself, and reads one only of words whose kind is known, which the kinds of these needn't be.)
#[tactic(auto, using(crate::proofs::TradeLaws::traded_yes, crate::proofs::TradeLaws::traded_no))]
fn traded_in(
    call: &[u32; CALL_WORDS],
    answer: &[u64; ANSWER_WORDS],
    party: Party,
    holder: u32,
) -> u32
    ensures { result ≡ traded_by call.now answer.now (word_of party) holder }
{
    let granted = answer[0] == 0;
    if (call[0] == CallKind::Trade.number()) & granted & (holder == call[party.word()]) {
        return call[KW];
    }
    0
}

// The words of calls, and of the answers to them.
#[derive(Clone, Copy)]
pub struct Called<'a> {
    pub calls: &'a [u32],
    pub answers: &'a [u64],
}

impl Called<'_> {
    // The kW of these calls that are granted trades with the holder as the party, up to as many calls as a journal has.
    pub(super) fn traded(self, party: Party, holder: u32) -> u64
        ensures { let called = self.entry in let calls = called.calls.now in let answers = called.answers.now in
            result ≡ sum_to (min (called_count calls answers) most_calls) (traded_in calls answers (word_of party) holder) }
    {
        let (calls, _) = self.calls.as_chunks::<CALL_WORDS>();
        let (answers, _) = self.answers.as_chunks::<ANSWER_WORDS>();
        let calls = &calls[..calls.len().min(MOST_CALLS)];
        let mut sum = 0;
        for (call, answer) in calls.iter().zip(answers) {
            sum += u64::from(traded_in(call, answer, party, holder));
        }
        sum
    }
}
