// The year's state: where its words stand, and how they are read and stored.
#![tactic(auto)]

pub mod layout;

ghost use Rattle.std.specs.Prelude.{◌≡◌, ℕ, ◌+◌, ◌*◌, ◌≤◌, set};
ghost use Rattle.base.specs.Sums.{sum_to};
ghost use Rattle.base.specs.Words.{at};
ghost use Rattle.state.specs.Layout.{place, interties, holders, stage_of};

use layout::ROW_WORDS;

// The word of a row and column: 0 past the end. (0 and no Option, here and in what follows: the callers'
// contracts say `at`, which is 0 past the end, so each would write 0 for a None. A call has tested the length before.)
pub fn word(state: &[u32], row: u32, column: u32) -> u32
    ensures { result ≡ at state.now (place row column) }
{
    read(state, ROW_WORDS * (row as usize) + (column as usize))
}

// The word of a pair, in the field that begins at a row: 0 past the end. (Not `word` of field + holder: the sum of any two numbers
// may pass 32 bits. Field, holder and intertie are three numbers, since a struct would be made at each call and taken apart at once.)
pub fn pair_word(state: &[u32], field: u32, holder: u32, intertie: u32) -> u32
    ensures { result ≡ at state.now (place (field + holder) intertie) }
{
    let row = (field as usize) + (holder as usize);
    read(state, ROW_WORDS * row + (intertie as usize))
}

// Stores the word of a row and column: nothing past the end.
pub fn store(state: &mut [u32], row: u32, column: u32, value: u32)
    ensures { state.new ≡ set state.old (place row column) value }
{
    write(state, ROW_WORDS * (row as usize) + (column as usize), value);
}

// Stores the word of a pair, in the field that begins at a row: nothing past the end.
pub fn store_pair(state: &mut [u32], field: u32, holder: u32, intertie: u32, value: u32)
    ensures { state.new ≡ set state.old (place (field + holder) intertie) value }
{
    let row = (field as usize) + (holder as usize);
    write(state, ROW_WORDS * row + (intertie as usize), value);
}

// The interties of a state: 0 where it has no words.
pub fn intertie_count(state: &[u32]) -> u32
    ensures { result ≡ interties state.now }
{
    word(state, layout::SIZES, layout::INTERTIES)
}

// The holders of a state: 0 where it has no such word.
pub fn holder_count(state: &[u32]) -> u32
    ensures { result ≡ holders state.now }
{
    word(state, layout::SIZES, layout::HOLDERS)
}

// The stage of a state: 0 where it has no such word.
pub fn stage(state: &[u32]) -> u32
    ensures { result ≡ stage_of state.now }
{
    word(state, layout::YEAR, layout::STAGE)
}

// A holder's words of a field of the pairs, summed over the interties.
pub fn of_holder(state: &[u32], field: u32, holder: u32) -> u64
    ensures { result ≡ sum_to (interties state.now) (λ (i : ℕ). at state.now (place (field + holder) i)) }
{
    let mut sum = 0;
    for intertie in 0..intertie_count(state) {
        sum += u64::from(pair_word(state, field, holder, intertie));
    }
    sum
}

// A field of the pairs on an intertie, summed over the holders. (It and `of_holder` differ in which of the two counts: one loop with
// a closure would be no plainer.)
pub fn on_intertie(state: &[u32], field: u32, intertie: u32) -> u64
    ensures { let s = state.now in
        (result ≡ sum_to (holders s) (λ (h : ℕ). at s (place (field + h) intertie))) × (result ≤ holders s * 4294967295) }
{
    let mut sum = 0;
    for holder in 0..holder_count(state) {
        let word = pair_word(state, field, holder, intertie);
        sum += u64::from(word);
    }
    sum
}

// The word at a place: 0 past the end.
fn read(state: &[u32], place: usize) -> u32
    ensures { result ≡ at state.now place }
{
    state.get(place).copied().unwrap_or(0)
}

// Stores the word at a place: nothing past the end. (By an index, since a proof loses the words that `get_mut` lent.)
#[tactic(auto, using(crate::proofs::FrameLaws::past_end))]
fn write(state: &mut [u32], place: usize, value: u32)
    ensures { state.new ≡ set state.old place value }
{
    if place < state.len() {
        state[place] = value;
    }
}
