// The posting as text.
#![tactic(auto)]

ghost use Rattle.std.specs.Prelude.{◌≡◌, ◌+◌, ◌*◌, ◌≤◌, ◌<◌, ◌++◌, length};
ghost use Rattle.base.specs.Limits.{most_interties};
ghost use Rattle.text.specs.Written.{appended};
ghost use Rattle.text.specs.Lines.{each};
ghost use Rattle.posting_text.specs.Text.{text_of};
ghost use Rattle.posting_text.specs.Workers.Columns.{long_bytes, text_bytes, line_rows, line_by};

use arrayvec::ArrayVec;
use base::limits::{MOST_HOLDERS, MOST_INTERTIES};
use posting::rows;
use posting::rows::NUMBERS;
use state::layout::ROW_WORDS;
use text::put_line;

// The most figures of a line: an intertie's number, limit, outside, E, P, N, unassigned.
const LINE_FIGURES: usize = 2 + rows::UNASSIGNED - rows::LIMIT;

// The most bytes of a line: a letter, seven numbers of at most 20 digits, each after a blank, and the end of the line.
const LINE_BYTES: usize = 149;

// Room for the line of T and one for each intertie and holder.
pub const TEXT_BYTES: usize = (1 + MOST_INTERTIES + MOST_HOLDERS) * LINE_BYTES;

// What `post` prints of a sheet.
pub fn posting_text(sheet: &[u8]) -> ArrayVec<u8, TEXT_BYTES>
    ensures { result.items ≡ text_of sheet.now }
{
    let mut text = ArrayVec::new();
    let mut numbers = [0u64; NUMBERS];
    match posting::post(sheet, &mut numbers) {
        Ok(total) => {
            let interties = sheet_records::words::intertie_count(sheet) as usize;
            let holders = sheet_records::words::holder_count(sheet) as usize;
            put_line(b"T", b' ', &[total.kw], &mut text);
            let (table, _) = numbers.as_chunks::<ROW_WORDS>();
            put_lines(
                b'I',
                &table[rows::LIMIT..=rows::UNASSIGNED],
                interties,
                &mut text,
            );
            put_lines(
                b'H',
                &table[rows::LOAD_SHARE..=rows::STEP_5_SHARE],
                holders,
                &mut text,
            );
        }
        Err(refusal) => {
            put_line(b"R", b' ', &[u64::from(refusal.number())], &mut text);
        }
    }
    text
}

// The lines of the interties or of the holders: of each a letter, its number, and its figure in each of some rows.
fn put_lines(
    letter: u8,
    rows: &[[u64; ROW_WORDS]],
    count: usize,
    text: &mut ArrayVec<u8, TEXT_BYTES>,
)
    requires { (length rows.now ≤ line_rows) × (count ≤ most_interties) × (length text.old.items + long_bytes * count ≤ text_bytes) }
    ensures { text.new.items ≡ text.old.items ++ each count (line_by letter rows.now) }
{
    for number in 0..count {
        put_one(letter, rows, number, text);
    }
}

// Such a line. (Apart for its clause alone.)
fn put_one(
    letter: u8,
    rows: &[[u64; ROW_WORDS]],
    number: usize,
    text: &mut ArrayVec<u8, TEXT_BYTES>,
)
    requires { (length rows.now ≤ line_rows) × (number < most_interties) }
    ensures { text.new.items ≡ appended text_bytes (line_by letter rows.now number) text.old.items }
{
    let mut figures = ArrayVec::<u64, LINE_FIGURES>::new();
    figures.push(number as u64);
    for row in rows {
        figures.push(row[number]);
    }
    put_line(&[letter], b' ', &figures, text);
}
