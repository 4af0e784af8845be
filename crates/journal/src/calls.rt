// A line read as a call.
ghost use Rattle.std.specs.Prelude.{◌≡◌, ◌≤◌, length};
ghost use Rattle.std.specs.Result.{result_map_both};
ghost use Rattle.journal.specs.Calls.{name, kind_of, takes, numbers_of, call_with, made, line_of};
ghost use Rattle.journal.specs.Workers.Left.{words_left};

use crate::faults::Fault;
use crate::words::{Words, words_of};
use base::encoding::CallKind;

// A call as read from a line: its kind, three numbers and its kW. (Not the `Call` of lists: its kW has 64 bits, and no number
// of a journal has more than 32.)
#[derive(Clone, Copy, Debug, PartialEq, Eq)]
pub struct Call {
    pub kind: CallKind,
    pub a: u32,
    pub b: u32,
    pub c: u32,
    pub kw: u32,
}

// Reads a line, without its line end. A blank line, and one that starts with #, has no call.
#[tactic(auto, using(crate::proofs::CallLaws::lines))]
pub(super) fn read_line(line: &[u8]) -> Result<Option<Call>, Fault>
    ensures { result ≡ line_of line.now }
{
    if let Some(b'#') = line.first() {
        return Ok(None);
    }
    let mut words = words_of(line);
    let Some(name) = words.next() else {
        return Ok(None);
    };
    let Some(kind) = kind_of(name) else {
        return Err(Fault::NotACall);
    };
    read_call(kind, &mut words)
}

// Reads the numbers of a call.
fn read_call(kind: CallKind, words: &mut Words) -> Result<Option<Call>, Fault>
    ensures { result ≡ made kind (numbers_of (takes kind) (words_left words.old)) }
{
    let mut numbers = [0u32; 4];
    read_numbers(words, &mut numbers[..takes(kind)])?;
    Ok(Some(call_with(kind, &numbers)))
}

// Reads as many numbers as there is room for, and no word more, or answers the fault of the first word that is wrong. (Not one
// with sheet_table's: its faults have columns.)
#[tactic(auto, using(crate::proofs::NumberLaws::reading))]
fn read_numbers(words: &mut Words, numbers: &mut [u32]) -> Result<(), Fault>
    ensures { result_map_both (λ _. numbers.new) (λ fault. fault) result ≡ numbers_of (length numbers.old) (words_left words.old) }
{
    for number in numbers.iter_mut() {
        let Some(word) = words.next() else {
            return Err(Fault::BadNumbers);
        };
        *number = text::read_number(word)?;
    }
    match words.next() {
        Some(_) => Err(Fault::BadNumbers),
        None => Ok(()),
    }
}

// How many numbers a call of a kind has.
fn takes(kind: CallKind) -> usize
    ensures { (result ≡ takes kind) × (result ≤ 4) }
{
    match kind {
        CallKind::Close => 0,
        CallKind::Trade | CallKind::Request => 3,
        CallKind::Take | CallKind::Move | CallKind::Lock => 4,
    }
}

// A call of a kind with its numbers.
fn call_with(kind: CallKind, n: &[u32; 4]) -> Call
    ensures { result ≡ call_with kind n.now }
{
    let [a, b, third, fourth] = *n;
    match kind {
        CallKind::Move => Call {
            kind,
            a,
            b,
            c: third,
            kw: fourth,
        },
        _ => Call {
            kind,
            a,
            b,
            c: fourth,
            kw: third,
        },
    }
}

// The name of the calls of a kind.
fn name(kind: CallKind) -> &'static [u8]
    ensures { result.now ≡ name kind }
{
    match kind {
        CallKind::Trade => b"trade",
        CallKind::Request => b"request",
        CallKind::Close => b"close",
        CallKind::Take => b"take",
        CallKind::Move => b"move",
        CallKind::Lock => b"lock",
    }
}

// The kinds of call.
const KINDS: [CallKind; 6] = [
    CallKind::Trade,
    CallKind::Request,
    CallKind::Close,
    CallKind::Take,
    CallKind::Move,
    CallKind::Lock,
];

// The kind of the call that a word names. (Kinds of record are found by their names in the same way, by sheet_table: kinds and names
// are all that differs, and the search is one chain.)
fn kind_of(word: &[u8]) -> Option<CallKind>
    ensures { result ≡ kind_of word.now }
{
    KINDS
        .iter()
        .find(|kind| text::same(word, name(**kind)))
        .copied()
}
