// The lines of a journal, one after the other.
ghost use Rattle.std.specs.Prelude.{◌≡◌, ◌+◌, ◌≤◌, length, Ok, Some};
ghost use Rattle.base.specs.Encoding.{call_words};
ghost use Rattle.text.specs.Written.{written};
ghost use Rattle.journal.specs.Calls.{line_of};
ghost use Rattle.journal.specs.Journals.{lines_of, counted, answer_from, words_in, encoded_calls};

use crate::calls::{Call, read_line};
use crate::faults::{Fault, Unreadable};
use base::encoding::CALL_WORDS;

// Finds the first line that can't be read, or counts the calls.
pub(super) fn check(text: &[u8], room: usize) -> Result<usize, Unreadable>
    ensures { result ≡ answer_from room 1 0 (lines_of text.now) }
{
    let mut count = 0;
    for (place, line) in text::split(text, b'\n').enumerate() {
        count = count_call(line, count, room).map_err(|fault| Unreadable {
            line: place + 1,
            fault,
        })?;
    }
    Ok(count)
}

// How many calls there are after a line, before which there were so many.
fn count_call(line: &[u8], count: usize, room: usize) -> Result<usize, Fault>
    ensures { result ≡ counted room count (line_of line.now) }
{
    match read_line(line)? {
        None => Ok(count),
        Some(_) => {
            if count < room {
                Ok(count + 1)
            } else {
                Err(Fault::TooManyCalls)
            }
        }
    }
}

// Writes the words of the calls of all lines. (By place: of `as_chunks_mut` nothing is said of what the slice ends as.)
pub(super) fn put_calls(text: &[u8], calls: &mut [u32])
    requires { length (encoded_calls (lines_of text.now)) ≤ length calls.old }
    ensures { calls.new ≡ written 0 (encoded_calls (lines_of text.now)) calls.old }
{
    let mut place = 0;
    for line in text::split(text, b'\n') {
        place = put_line(line, calls, place);
    }
}

// Writes the words of a line from a place on, and answers the place after them.
#[tactic(auto, using(crate::proofs::JournalLaws::none_put))]
fn put_line(line: &[u8], calls: &mut [u32], place: usize) -> usize
    requires { place + length (words_in (line_of line.now)) ≤ length calls.old }
    ensures { let words = words_in (line_of line.now) in
        (result ≡ place + length words) × (calls.new ≡ written place words calls.old) }
{
    let Ok(Some(call)) = read_line(line) else {
        return place;
    };
    put_call(call, calls, place)
}

// Writes the six words of a call from a place on, and answers the place after them.
fn put_call(call: Call, calls: &mut [u32], place: usize) -> usize
    requires { place + call_words ≤ length calls.old }
    ensures { (result ≡ place + call_words) × (calls.new ≡ written place (words_in (Ok (Some call))) calls.old) }
{
    let words = [call.kind.number(), call.a, call.b, call.c, call.kw, 0];
    calls[place..place + CALL_WORDS].copy_from_slice(&words);
    place + CALL_WORDS
}
