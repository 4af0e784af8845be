// A sheet written as bytes: the inverse of reading its words.
ghost use Rattle.std.specs.Prelude.{◌≡◌, ◌+◌, ◌*◌, ◌≤◌, length};
ghost use Rattle.std.proofs.lemmas.List.Edits.{sets};
ghost use Rattle.base.specs.Limits.{most_records};
ghost use Rattle.sheet_records.specs.Sheet.{word_size, size_of};
ghost use Rattle.sheet_records.specs.Bytes.{word_bytes, bytes_of, sheet_bytes, SheetWritten};

use crate::words::{COUNT_AT, HOLDERS_AT, INTERTIES_AT, KEYS_AT, WORD_BYTES};
use base::limits::{MOST_RECORDS, RECORD_BYTES, SHEET_HEADER_BYTES};

// Writes a word at its place, its lowest byte first. (By place, here and below: of `as_chunks_mut` nothing is said of what the
// slice ends as.)
fn write_word(word: u32, place: usize, output: &mut [u8])
    requires { word_size * place + word_size ≤ length output.old }
    ensures { output.new ≡ sets output.old (word_size * place) (word_bytes word) }
{
    let from = WORD_BYTES * place;
    output[from..from + WORD_BYTES].copy_from_slice(&word.to_le_bytes());
}

// Writes words one after the other, from a place on.
fn write_words(words: &[u32], first: usize, output: &mut [u8])
    requires { word_size * (first + length words.now) ≤ length output.old }
    ensures { output.new ≡ sets output.old (word_size * first) (bytes_of words.now) }
{
    for (k, word) in words.iter().enumerate() {
        write_word(*word, first + k, output);
    }
}

// Writes the parts of a sheet that fits one after the other.
fn put_sheet(interties: u32, holders: u32, keys: &[u32], kws: &[u32], output: &mut [u8])
    requires { (length keys.now ≤ most_records) × (length kws.now ≡ length keys.now)
        × (size_of (length keys.now) ≤ length output.old) }
    ensures { let sheet = sheet_bytes interties holders keys.now kws.now in
        output.new ≡ sets output.old 0 sheet }
{
    let count = keys.len();
    write_word(interties, INTERTIES_AT, output);
    write_word(holders, HOLDERS_AT, output);
    write_word(count as u32, COUNT_AT, output);
    write_words(keys, KEYS_AT, output);
    write_words(kws, KEYS_AT + count, output);
}

// Writes a sheet of I interties and H holders into the first bytes of the output, and gives how many they are. Where there are
// over 1,024 keys, not as many quantities as keys, or too short an output, nothing is written. Keys and quantities are two lists,
// as they stand in the bytes. (Lent, with a count: carry's output is C's, and sheet_table makes a list of both.)
#[tactic(auto, using(crate::proofs::BytesLaws::unwritten))]
pub fn write_sheet(
    interties: u32,
    holders: u32,
    keys: &[u32],
    kws: &[u32],
    output: &mut [u8],
) -> Option<usize>
    ensures { SheetWritten interties holders keys.now kws.now
        output.old result output.new }
{
    let count = keys.len();
    if MOST_RECORDS < count {
        return None;
    }
    if kws.len() != count {
        return None;
    }
    let size = SHEET_HEADER_BYTES + RECORD_BYTES * count;
    if output.len() < size {
        return None;
    }
    put_sheet(interties, holders, keys, kws, output);
    Some(size)
}
