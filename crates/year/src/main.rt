// Program `year`: the year of a sheet and of a journal in files, printed call by call, with what a
// control room asks for at its end. The same files always give the same output.
#![tactic(auto)]

mod faults;
mod files;
mod next;
mod output;
mod running;

use arrayvec::ArrayVec;
use base::encoding::CALL_WORDS;
use base::limits::{MOST_SHEET_BYTES, STATE_WORDS};
use control_room::Called;
use faults::Failure;
use input::{SHEET_ROOM, has_argument};
use journal::sizes::{ANSWERS_WORDS, CALLS_WORDS, MOST_JOURNAL_BYTES};
use running::Calls;
use std::rt::{Env, Files};
use year_text::TEXT_BYTES;

// The arguments: the names of the sheet, of the journal and, where there is a third, of the sheet that
// is written for next year. The program's own name is argument 0. (Numbers: an argument is asked for by its number.)
const SHEET: usize = 1;

const JOURNAL: usize = 2;

const NEXT_SHEET: usize = 3;

// Room for the longest journal and for one byte more, by which a longer file is told from it.
const JOURNAL_ROOM: usize = MOST_JOURNAL_BYTES + 1;

// Runs the year of the files that the arguments name.
fn main(rt: HostRuntime) {
    if let Err(failure) = run_files(&rt) {
        failure.report(&rt, &rt.stderr());
    }
}

// Reads both files whole, and then runs the calls on the sheet.
fn run_files<R: Env + Files + Print>(rt: &R) -> Result<(), Failure> {
    if !has_argument(rt, JOURNAL) || has_argument(rt, NEXT_SHEET + 1) {
        return Err(Failure::Usage);
    }
    let mut sheet = [0u8; SHEET_ROOM];
    let mut text = [0u8; JOURNAL_ROOM];
    let mut words = [0u32; CALLS_WORDS];
    let sheet = files::read_argument(rt, SHEET, &mut sheet)?;
    let calls = read_calls(rt, &mut text, &mut words)?;
    if MOST_SHEET_BYTES < sheet.len() {
        return Err(Failure::TooLongSheet);
    }
    run_list(rt, sheet, calls)
}

// Reads the calls of the journal.
fn read_calls<'a, R: Env + Files>(
    rt: &R,
    text: &mut [u8; JOURNAL_ROOM],
    words: &'a mut [u32; CALLS_WORDS],
) -> Result<Calls<'a>, Failure> {
    let text = files::read_argument(rt, JOURNAL, text)?;
    if MOST_JOURNAL_BYTES < text.len() {
        return Err(Failure::TooLongJournal);
    }
    let count = journal::read_journal(text, words).map_err(Failure::Journal)?;
    Ok(Calls { words, count })
}

// Runs the calls on the sheet and, where an argument names it, writes next year's sheet.
fn run_list<R: Env + Files + Print>(rt: &R, sheet: &[u8], calls: Calls<'_>) -> Result<(), Failure> {
    let mut state = [0u32; STATE_WORDS];
    let mut answers = [0u64; ANSWERS_WORDS];
    print_year(rt, sheet, calls, &mut state, &mut answers)?;
    if has_argument(rt, NEXT_SHEET) {
        next::write_next(rt, sheet, &state)?;
    }
    Ok(())
}

// Opens the sheet, runs the calls and prints the year, or the refusal of the sheet. (Standard output and the text's room are two, here
// and below: a struct of both would be lent again at each call. The refusal's words are made here: an `Answer` of it would be taken
// apart into the same three.)
fn print_year(
    stdout: &impl Print,
    sheet: &[u8],
    calls: Calls<'_>,
    state: &mut [u32; STATE_WORDS],
    answers: &mut [u64; ANSWERS_WORDS],
) -> Result<(), Failure> {
    let mut text = ArrayVec::new();
    if let Err(refusal) = opening::open(sheet, state) {
        year_text::answers_text(&[u64::from(refusal.number()), 0, 0], &mut text);
        output::write(stdout, text.as_slice())?;
        return Err(Failure::Refused);
    }
    calls.run_all(stdout, state, answers, &mut text)?;
    print_figures(stdout, state, calls, answers, &mut text)
}

// Prints what a control room asks for of every intertie and every holder.
fn print_figures<'a>(
    stdout: &impl Print,
    state: &[u32; STATE_WORDS],
    calls: Calls<'a>,
    answers: &'a [u64; ANSWERS_WORDS],
    text: &mut ArrayVec<u8, TEXT_BYTES>,
) -> Result<(), Failure> {
    year_text::interties_text(state, text);
    output::write(stdout, text.as_slice())?;
    let words = calls.words;
    let called = Called {
        calls: &words[..CALL_WORDS * calls.count],
        answers,
    };
    year_text::holders_text(state, called, text);
    output::write(stdout, text.as_slice())
}
