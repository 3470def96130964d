//! A source text, and the pieces of it that a tree holds: slices, or ranges of bytes.
ghost use Rattle.std.specs.Prelude.{◌≡◌, ◌+◌, ℕ, length};
ghost use Rattle.tcltext.specs.chars.Runs.{Text};
ghost use Rattle.tcltext.specs.script.Pieces.{IsSuffixOf, IsPrefixOf, between};
ghost use Rattle.tcltext.specs.script.Reading.{taken};

/// A source text whose pieces are values of `P`.
///
/// `text` is the whole text, `shown` the text of a piece, and `spans` holds of a piece and its two offsets: of its
/// first byte, and of the byte after its last.
pub trait Source<P> {
    ghost text: { Self → Text };

    ghost shown: { Self → P → Text };

    ghost spans: { Self → P → ℕ → ℕ → Type 0 };

    /// The whole text.
    fn as_str(&self) -> &str
        ensures { result.now ≡ text self.now };

    /// The piece that `rest` begins with; `rest` is a suffix of the source.
    fn cut(&self, rest: &str, piece: &str) -> P
        requires suffix { IsSuffixOf (text self.now) rest.now }
        requires prefix { IsPrefixOf rest.now piece.now }
        ensures text { shown self.now result ≡ piece.now }
        ensures offsets { (start : ℕ) → start + length rest.now ≡ length (text self.now)
            → spans self.now result start (start + length piece.now) };
}

/// The piece of the source from the text up to the rest.
pub fn taken<'a, S: Source<P>, P: Drop>(source: &S, text: &'a str, rest: &'a str) -> P
    requires text { IsSuffixOf (S.text source.now) text.now }
    requires rest { IsSuffixOf text.now rest.now }
    ensures { S.shown source.now result ≡ taken text.now rest.now }
{
    source.cut(text, text.split_at(text.len() - rest.len()).0)
}

impl<'a> Source<&'a str> for &'a str {
    ghost text = { λ source. source.now };

    ghost shown = { λ source piece. piece.now };

    ghost spans = { λ source piece start end. between source.now start end ≡ piece.now };

    fn as_str(&self) -> &str {
        self
    }

    fn cut(&self, rest: &str, piece: &str) -> &'a str {
        let from_rest = self.split_at(self.len() - rest.len()).1;
        from_rest.split_at(piece.len()).0
    }
}

/// A piece of a source by its byte offsets.
#[derive(Clone, Copy, Debug, Drop, PartialEq, Eq)]
pub struct ByteRange {
    /// The offset of the first byte, from 0.
    pub start: usize,
    /// The offset of the byte after the last.
    pub end: usize,
}

impl ByteRange {
    /// The text of the range; the empty text where the range cuts a character, ends before it starts, or ends past the
    /// text.
    pub fn of(self, text: &str) -> &str
        ensures { result.now ≡ between text.now self.start self.end }
    {
        let (start, end) = (self.start, self.end);
        if start <= end && text.is_char_boundary(start) && text.is_char_boundary(end) {
            &text[start..end]
        } else {
            ""
        }
    }
}

impl<'a> Source<ByteRange> for &'a str {
    ghost text = { λ source. source.now };

    ghost shown = { λ source range. between source.now range.start range.end };

    ghost spans = { λ source range start end. (range.start ≡ start) × (range.end ≡ end) };

    fn as_str(&self) -> &str {
        self
    }

    fn cut(&self, rest: &str, piece: &str) -> ByteRange {
        let start = self.len() - rest.len();
        ByteRange {
            start,
            end: start + piece.len(),
        }
    }
}
