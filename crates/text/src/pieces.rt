// Where a text has its separators, and its pieces between them.
ghost use Rattle.std.specs.Prelude.{◌≡◌, ◌+◌, ◌-◌, ◌≤◌, length, drop};
ghost use Rattle.std.specs.Iterator.{YieldsFirstBy, item_count};
ghost use Rattle.io.specs.Counts.{IsPrefixLen};
ghost use Rattle.text.specs.Pieces.{before, fields};
ghost use Rattle.text.specs.Left.{pieces_left};

// How many bytes stand before the first separator; all of them where there is none.
pub fn before(text: &[u8], separator: u8) -> usize
    ensures { (result ≡ before separator text.now) × IsPrefixLen result text.now }
{
    text.iter()
        .position(|byte| *byte == separator)
        .unwrap_or(text.len())
}

// Where the piece that starts at a place ends: at the first separator from there on, or with the text. Past the
// text a piece ends where it starts.
pub fn piece_end(text: &[u8], from: usize, separator: u8) -> usize
    ensures { let t = text.now in
        (result ≡ from + before separator (drop from t)) × (from ≤ result) × (result ≤ from + (length t - from)) }
{
    if text.len() < from {
        return from;
    }
    from + before(&text[from..], separator)
}

// The pieces of a text between its separators, one after the other: `rest` is what is left of it, none past its last
// piece. (By hand: what the library's `split` gives has the type of its closure, over which each function that takes the
// pieces that are left would be generic.)
#[derive(Drop)]
pub struct Pieces<'a> {
    rest: Option<&'a [u8]>,
    separator: u8,
}

// All pieces of a text, one more than it has separators.
pub fn split(text: &[u8], separator: u8) -> Pieces<'_>
    ensures { pieces_left result ≡ fields separator text.now }
{
    Pieces {
        rest: Some(text),
        separator,
    }
}

impl<'a> Iterator for Pieces<'a> {
    type Item = &'a [u8];

    ghost next_gives = { YieldsFirstBy (λ piece. piece.now) pieces_left };

    ghost remaining = { item_count pieces_left };

    fn next(&mut self) -> Option<&'a [u8]> {
        let rest = self.rest?;
        let end = before(rest, self.separator);
        self.rest = rest.get(end + 1..);
        Some(&rest[..end])
    }
}
