// The words of a line, one after the other.
ghost use Rattle.std.specs.Prelude.{◌≡◌};
ghost use Rattle.std.specs.Iterator.{YieldsFirstBy, item_count};
ghost use Rattle.journal.specs.Words.{is_blank, words};
ghost use Rattle.journal.specs.Workers.Left.{words_left};

// The words of what is left of a line. (By hand, as text's `Pieces`: what `split` and `filter` give has the types of two closures,
// over which all that takes words would be generic.)
#[derive(Drop)]
pub(super) struct Words<'a> {
    rest: &'a [u8],
}

// All words of a line.
pub(super) fn words_of(line: &[u8]) -> Words<'_>
    ensures { words_left result ≡ words line.now }
{
    Words { rest: line }
}

impl<'a> Iterator for Words<'a> {
    type Item = &'a [u8];

    ghost next_gives = { YieldsFirstBy (λ word. word.now) words_left };

    ghost remaining = { item_count words_left };

    fn next(&mut self) -> Option<&'a [u8]> {
        let start = self.rest.iter().position(|byte| !is_blank(*byte))?;
        let word = &self.rest[start..];
        let end = word
            .iter()
            .position(|byte| is_blank(*byte))
            .unwrap_or(word.len());
        self.rest = &word[end..];
        Some(&word[..end])
    }
}

// Whether a byte stands between words: a blank, a tab or a carriage return.
fn is_blank(byte: u8) -> bool
    ensures { result ≡ is_blank byte }
{
    matches!(byte, b' ' | b'\t' | b'\r')
}
