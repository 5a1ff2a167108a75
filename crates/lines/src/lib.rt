// The lines of a text, read from the caller's own bytes.
#![tactic(auto)]

mod reader;

ghost use Rattle.std.specs.Prelude.{◌≡◌, ℕ, ◌+◌, ◌<◌, ◌≤◌, [], ◌∷◌, length, MatchOption, ◌≢◌, slice_index};
ghost use Rattle.std.specs.Iterator.{at_most};
ghost use Rattle.lines.specs.Lines.{ReadsLine, lines_of, unread};

pub use reader::Reader;

/// A part of a text, and the number of the line that it stands in, from 1.
#[derive(Clone, Copy)]
pub struct Part<'a> {
    pub bytes: &'a [u8],
    pub line: u64,
}

/// How many bytes stand before the first `byte`; all of them where there is none.
pub fn up_to(text: &[u8], byte: u8) -> usize
    ensures within { result ≤ length text.now }
    ensures before { (k : ℕ) → k < result → slice_index text.now k ≢ byte }
    ensures found { result < length text.now → slice_index text.now result ≡ byte }
{
    text.iter().position(|b| *b == byte).unwrap_or(text.len())
}

impl<'a> Reader<'a> {
    /// A reader at the start of a text.
    pub fn new(text: &'a [u8]) -> Reader<'a>
        ensures { (unread result ≡ text.now) × (result.line ≡ 0) }
    {
        Reader {
            rest: text,
            line: 0,
        }
    }
}

impl<'a> Iterator for Reader<'a> {
    type Item = Part<'a>;

    ghost next_gives = { ReadsLine };

    ghost remaining = { λ r. at_most (length (lines_of (unread r))) };

    /// The next line with the byte 10 that ends it; only a last line may lack that byte.
    fn next(&mut self) -> Option<Part<'a>> {
        let bytes = self.rest.split_inclusive(|b| *b == b'\n').next()?;
        // By its length, since `split_inclusive` does not give what follows.
        self.rest = &self.rest[bytes.len()..];
        self.line += 1;
        Some(Part {
            bytes,
            line: self.line,
        })
    }
}
