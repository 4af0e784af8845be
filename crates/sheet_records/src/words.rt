// The words of a sheet, and refusal 1, which says how many there are.
ghost use Rattle.std.specs.Prelude.{◌≡◌, ◌+◌, ◌*◌, ◌≤◌, ltb, length};
ghost use Rattle.base.specs.Choice.{pick};
ghost use Rattle.base.specs.Limits.{sheet_header_bytes};
ghost use Rattle.sheet_records.specs.Sheet.{word_size, word_at, interties, holders, count};
ghost use Rattle.sheet_records.specs.Refusal.{bad_length};

use base::limits::{MOST_RECORDS, RECORD_BYTES, SHEET_HEADER_BYTES};

// The bytes of a word.
pub const WORD_BYTES: usize = 4;

// The places of words, counted in words: those of I, H and K, and that of the first key.
pub(crate) const INTERTIES_AT: usize = 0;

pub(crate) const HOLDERS_AT: usize = 1;

pub(crate) const COUNT_AT: usize = 2;

pub(crate) const KEYS_AT: usize = 3;

// The word at a place. Its lowest byte comes first.
pub(crate) fn word(sheet: &[u8], place: usize) -> u32
    requires { word_size * place + word_size ≤ length sheet.now }
    ensures { result ≡ word_at sheet.now (word_size * place) }
{
    let (words, _) = sheet.as_chunks::<WORD_BYTES>();
    u32::from_le_bytes(words[place])
}

// Refusal 1: under 12 bytes, K over 1,024, or a length that is not 12 + 8·K. K is tested before 12 + 8·K is formed.
#[tactic(auto, using(crate::proofs::RefusalLaws::lengths))]
pub fn bad_length(sheet: &[u8]) -> bool
    ensures { result ≡ bad_length sheet.now }
{
    if sheet.len() < SHEET_HEADER_BYTES {
        return true;
    }
    let count = word(sheet, COUNT_AT) as usize;
    if MOST_RECORDS < count {
        return true;
    }
    sheet.len() != SHEET_HEADER_BYTES + RECORD_BYTES * count
}

// A word of the header, 0 where the sheet is under 12 bytes. (0 and no Option: the definitions read 0 past the end, `at`.)
fn header_word(sheet: &[u8], place: usize) -> u32
    requires { word_size * place + word_size ≤ sheet_header_bytes }
    ensures { let s = sheet.now in result ≡ pick (ltb (length s) sheet_header_bytes) 0 (word_at s (word_size * place)) }
{
    if sheet.len() < SHEET_HEADER_BYTES {
        return 0;
    }
    word(sheet, place)
}

// I, 0 where the sheet is under 12 bytes.
pub fn intertie_count(sheet: &[u8]) -> u32
    ensures { let s = sheet.now in result ≡ pick (ltb (length s) sheet_header_bytes) 0 (interties s) }
{
    header_word(sheet, INTERTIES_AT)
}

// H, 0 where the sheet is under 12 bytes.
pub fn holder_count(sheet: &[u8]) -> u32
    ensures { let s = sheet.now in result ≡ pick (ltb (length s) sheet_header_bytes) 0 (holders s) }
{
    header_word(sheet, HOLDERS_AT)
}

// K, 0 where the sheet is under 12 bytes.
pub fn record_count(sheet: &[u8]) -> u32
    ensures { let s = sheet.now in result ≡ pick (ltb (length s) sheet_header_bytes) 0 (count s) }
{
    header_word(sheet, COUNT_AT)
}
