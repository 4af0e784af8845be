// Text put into a room of fixed size, up to a whole line, or into bytes that are lent. What there is no room for is left
// out whole.
ghost use Rattle.std.specs.Prelude.{◌≡◌, ◌+◌, ◌*◌, ◌≤◌, ◌++◌, length};
ghost use Rattle.text.specs.Written.{appended, PutWithin};
ghost use Rattle.text.specs.Lines.{line_figures, figure_bytes, line_bytes, figure, figures_of, bounded_line};

use arrayvec::ArrayVec;
use itoa::Buffer;

const LABEL_BYTES: usize = 20;

const FIGURES: usize = 8;

// Room for a line: its label, its figures of at most 20 digits, each after a separator, and a line end.
pub const LINE_BYTES: usize = 189;

// A line. It is empty where the label has over 20 bytes or there are over 8 figures; an Option would be no plainer, since
// `put_line` puts nothing then.
pub fn line(label: &[u8], separator: u8, figures: &[u64]) -> ArrayVec<u8, LINE_BYTES>
    ensures { result.items ≡ bounded_line label.now separator figures.now }
{
    let mut line = ArrayVec::new();
    if label.len() <= LABEL_BYTES && figures.len() <= FIGURES {
        put_text(label, &mut line);
        put_figures(figures, separator, &mut line);
        line.push(b'\n');
    }
    line
}

// Puts such a line after a text.
pub fn put_line<const N: usize>(
    label: &[u8],
    separator: u8,
    figures: &[u64],
    out: &mut ArrayVec<u8, N>,
)
    ensures { out.new.items ≡ appended N (bounded_line label.now separator figures.now) out.old.items }
{
    put_text(&line(label, separator, figures), out);
}

// Puts a separator and a number in decimal after a text.
#[tactic(auto, using(crate::proofs::PutLaws::figure_put, crate::proofs::PutLaws::figure_over))]
pub fn put_figure<const N: usize>(number: u64, separator: u8, out: &mut ArrayVec<u8, N>)
    ensures { out.new.items ≡ appended N (figure separator number) out.old.items }
{
    let mut buffer = Buffer::new();
    let digits = buffer.format(number).as_bytes();
    if digits.len() < out.remaining_capacity() {
        out.push(separator);
        put_text(digits, out);
    }
}

// Writes a text from a place on into bytes that are lent, and answers the place after it: so a line (`line`) or a figure
// (`put_figure`) is put at any place of them. Where there is no room for it, it writes nothing and answers the place.
pub fn put_within(text: &[u8], out: &mut [u8], at: usize) -> usize
    ensures { PutWithin at text.now result out.old out.new }
{
    if out.len() < text.len() {
        return at;
    }
    if out.len() - text.len() < at {
        return at;
    }
    out[at..at + text.len()].copy_from_slice(text);
    at + text.len()
}

// Puts a text after another.
fn put_text<const N: usize>(text: &[u8], out: &mut ArrayVec<u8, N>)
    ensures { out.new.items ≡ appended N text.now out.old.items }
{
    let _ = out.try_extend_from_slice(text);
}

// Figures one after the other, for which a line has room.
fn put_figures(figures: &[u64], separator: u8, out: &mut ArrayVec<u8, LINE_BYTES>)
    requires { (length figures.now ≤ line_figures) × (length out.old.items + figure_bytes * length figures.now ≤ line_bytes) }
    ensures { out.new.items ≡ out.old.items ++ figures_of separator figures.now }
{
    for figure in figures {
        put_figure(*figure, separator, out);
    }
}
