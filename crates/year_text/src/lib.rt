// What program `year` prints, as text. Each public function makes its text in the room that it is lent, over what stood there:
// a text of 98 KB that is answered would be cleared and copied each time.
#![tactic(auto)]

ghost use Rattle.std.specs.Prelude.{◌≡◌};
ghost use Rattle.base.specs.Words.{at};
ghost use Rattle.text.specs.Written.{appended};
ghost use Rattle.control_room.specs.Trades.{called_count};
ghost use Rattle.year_text.specs.Text.{text_bytes, answer_line, answers_text, grant_line, grants_text};
ghost use Rattle.year_text.specs.Text.{intertie_line, interties_text, holder_line, holders_text};

use arrayvec::ArrayVec;
use base::encoding::ANSWER_WORDS;
use base::limits::words::{MOST_HOLDERS, MOST_INTERTIES};
use base::limits::{GRANTS_WORDS, STATE_WORDS};
use control_room::Called;
use text::put_line;

// The most answers of a text.
pub const MOST_ANSWERS: usize = 2_048;

// The most bytes of a grant's line: a letter, three figures of at most 20 digits, each after a blank, and the line end.
const GRANT_BYTES: usize = 65;

// Room for any of the texts; a closing's grants are the longest.
pub const TEXT_BYTES: usize = GRANTS_WORDS * GRANT_BYTES;

// The answers to calls, three numbers each, up to as many as a text has.
pub fn answers_text(answers: &[u64], text: &mut ArrayVec<u8, TEXT_BYTES>)
    ensures { text.new.items ≡ answers_text answers.now }
{
    text.clear();
    let (answers, _) = answers.as_chunks::<ANSWER_WORDS>();
    for answer in &answers[..answers.len().min(MOST_ANSWERS)] {
        put_answer(answer, text);
    }
}

// An answer: its refusal, or `ok`, its kW and its passes.
#[tactic(auto, unfolding(crate::specs::Text::answer_line, text::specs::Lines::bounded_line))]
fn put_answer(answer: &[u64; ANSWER_WORDS], text: &mut ArrayVec<u8, TEXT_BYTES>)
    ensures { let a = answer.now in
        text.new.items ≡ appended text_bytes (answer_line (at a 0) (at a 1) (at a 2)) text.old.items }
{
    match *answer {
        [0, kw, passes] => put_line(b"ok", b' ', &[kw, passes], text),
        [refusal, ..] => put_line(b"R", b' ', &[refusal], text),
    }
}

// The grants of a closing that are not 0: word h·I + i is holder h's on intertie i. (By the word's number: over
// `chunks` of I words it would be a loop in a loop.)
pub fn grants_text(
    grants: &[u32; GRANTS_WORDS],
    interties: usize,
    text: &mut ArrayVec<u8, TEXT_BYTES>,
)
    ensures { text.new.items ≡ grants_text grants.now interties }
{
    text.clear();
    if interties == 0 {
        return;
    }
    for (word, kw) in grants.iter().enumerate() {
        put_grant(word / interties, word % interties, *kw, text);
    }
}

// A grant, where it is not 0.
#[tactic(auto, unfolding(crate::specs::Text::grant_line, text::specs::Lines::bounded_line))]
fn put_grant(holder: usize, intertie: usize, kw: u32, text: &mut ArrayVec<u8, TEXT_BYTES>)
    ensures { text.new.items ≡ appended text_bytes (grant_line holder intertie kw) text.old.items }
{
    if kw != 0 {
        let figures = [holder as u64, intertie as u64, u64::from(kw)];
        put_line(b"G", b' ', &figures, text);
    }
}

// The figures of every intertie.
pub fn interties_text(state: &[u32; STATE_WORDS], text: &mut ArrayVec<u8, TEXT_BYTES>)
    ensures { text.new.items ≡ interties_text state.now }
{
    text.clear();
    let count = state::intertie_count(state).min(MOST_INTERTIES);
    for intertie in 0..count {
        put_intertie(state, intertie, text);
    }
}

// The figures of an intertie.
#[tactic(auto, unfolding(crate::specs::Text::intertie_line, text::specs::Lines::bounded_line))]
fn put_intertie(state: &[u32; STATE_WORDS], intertie: u32, text: &mut ArrayVec<u8, TEXT_BYTES>)
    ensures { text.new.items ≡ appended text_bytes (intertie_line state.now intertie) text.old.items }
{
    let figures = control_room::intertie_figures(state, intertie);
    let numbers = [
        u64::from(intertie),
        figures.limit,
        figures.outside,
        figures.reserved,
        figures.placed,
        figures.taken,
        figures.unassigned,
    ];
    put_line(b"I", b' ', &numbers, text);
}

// The figures of every holder, with the trades of the calls.
pub fn holders_text(
    state: &[u32; STATE_WORDS],
    called: Called<'_>,
    text: &mut ArrayVec<u8, TEXT_BYTES>,
)
    ensures { let calls = called.entry.calls.now in let answers = called.entry.answers.now in
        text.new.items ≡ holders_text state.now calls answers (called_count calls answers) }
{
    text.clear();
    let count = state::holder_count(state).min(MOST_HOLDERS);
    for holder in 0..count {
        put_holder(state, called, holder, text);
    }
}

// The figures of a holder.
#[tactic(auto, unfolding(crate::specs::Text::holder_line, text::specs::Lines::bounded_line))]
fn put_holder(
    state: &[u32; STATE_WORDS],
    called: Called<'_>,
    holder: u32,
    text: &mut ArrayVec<u8, TEXT_BYTES>,
)
    ensures { let calls = called.entry.calls.now in let answers = called.entry.answers.now in
        let line = holder_line state.now calls answers (called_count calls answers) holder in
        text.new.items ≡ appended text_bytes line text.old.items }
{
    let figures = control_room::holder_figures(state, called, holder);
    let numbers = [
        u64::from(holder),
        figures.step_5_share,
        figures.bought,
        figures.sold,
        figures.placed,
        figures.unplaced,
        figures.reserved,
        figures.locked,
    ];
    put_line(b"H", b' ', &numbers, text);
}
