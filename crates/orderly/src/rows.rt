// A state as its rows, and the tests of a row. A test has no branch: it goes through the row's words and puts together what
// it finds.
ghost use Rattle.std.specs.Prelude.{◌≡◌, ℕ, ◌<◌, ◌≤◌, leb, length};
ghost use Rattle.base.specs.Sums.{sum_to, all_to};
ghost use Rattle.base.specs.Words.{at, tab};
ghost use Rattle.base.specs.Limits.{most_interties, most_holders};
ghost use Rattle.base.specs.Stage.{number_of};
ghost use Rattle.state.specs.Layout.{row_words, place, last_row, interties, holders, stage_of};
ghost use Rattle.orderly.specs.Workers.Check.{Told};

use base::limits::{STATE_WORDS, sizes_in_range};
use base::refusals::Refusal;
use base::stages::Stage;
use state::layout;
use state::layout::ROW_WORDS;
use std::marker::Model;

// A state that has its 16,000 words, and sizes and a stage in range. A clause sees the words.
#[derive(Drop)]
pub(super) struct Rows<'a> {
    words: &'a [u32],
    interties: usize,
    holders: u32,
    stage: Stage,
}

impl<'a> Model for Rows<'a> {
    ghost use Rattle.std.specs.Prelude.{ℕ, List};
    ghost use Rattle.orderly.specs.Workers.Check.{Sized};

    ghost Value = { List ℕ };

    ghost view = { λ rows. rows.words.now };

    ghost invariant = { λ rows. Sized rows.words.now rows.interties rows.holders rows.stage };
}

impl<'a> Rows<'a> {
    // Refusal 5 of a state under 16,000 words, 6 of one whose sizes or stage are out of range.
    #[tactic(auto, using(crate::proofs::CheckLaws::told))]
    pub(super) fn of(state: &'a [u32]) -> Result<Rows<'a>, Refusal>
        ensures { Told state.now result }
    {
        if state.len() < STATE_WORDS {
            return Err(Refusal::Room);
        }
        let interties = state::intertie_count(state);
        let holders = state::holder_count(state);
        if !sizes_in_range(interties, holders) {
            return Err(Refusal::NotOrderly);
        }
        let Ok(stage) = Stage::try_from(state::stage(state)) else {
            return Err(Refusal::NotOrderly);
        };
        Ok(Rows {
            words: state,
            interties: interties as usize,
            holders,
            stage,
        })
    }
}

impl Rows<'_> {
    // I.
    pub(super) fn interties(&self) -> usize
        ensures { (result ≡ interties self.now) × (result ≤ most_interties) }
    {
        self.interties
    }

    // H.
    pub(super) fn holders(&self) -> u32
        ensures { (result ≡ holders self.now) × (1 ≤ result) × (result ≤ most_holders) }
    {
        self.holders
    }

    // The stage.
    pub(super) fn stage(&self) -> Stage
        ensures { number_of result ≡ stage_of self.now }
    {
        self.stage
    }

    // A word of a row. (Here and in what reads pairs, a row, a holder and an intertie are asked for by number, and each contract
    // says that it is in range: a type for a number in range would be taken apart at each word.)
    pub(super) fn word(&self, row: u32, column: usize) -> u32
        requires { (row ≤ last_row) × (column < row_words) }
        ensures { result ≡ at self.now (place row column) }
    {
        self.words[ROW_WORDS * (row as usize) + column]
    }

    // The first words of a row.
    pub(super) fn row(&self, row: u32, count: usize) -> &[u32]
        requires { (row ≤ last_row) × (count ≤ row_words) }
        ensures { (length result.now ≡ count) × (result.now ≡ tab count (λ (c : ℕ). at self.now (place row c))) }
    {
        let first = ROW_WORDS * (row as usize);
        &self.words[first..first + count]
    }
}

// Whether the words of a row are at most a number.
pub(super) fn within(words: &[u32], most: u32) -> bool
    ensures { let row = words.now in result ≡ all_to (length row) (λ (c : ℕ). leb (at row c) most) }
{
    words
        .iter()
        .fold(true, |within, word| within & (*word <= most))
}

// Whether they are all 0. (Tried as `within` with 0: a check in stage 1 took 5 per cent longer, which is 6 over what it took when the
// bar was set: 5 for each row of bench/. Their bits together are quicker than a test of each.)
pub(super) fn is_clear(words: &[u32]) -> bool
    ensures { let row = words.now in result ≡ all_to (length row) (λ (c : ℕ). leb (at row c) 0) }
{
    words.iter().fold(0, |bits, word| bits | *word) == 0
}

// Their sum. (Not base's `sum_of`, which is of numbers of 64 bits and modulo 2^64: the words of a row are so few that their sum fits.)
pub(super) fn sum(words: &[u32]) -> u64
    requires { length words.now ≤ row_words }
    ensures { let row = words.now in result ≡ sum_to (length row) (at row) }
{
    words.iter().map(|word| u64::from(*word)).sum()
}
