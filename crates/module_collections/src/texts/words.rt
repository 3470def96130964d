//! The words of a line, read byte by byte.
ghost use Rattle.std.specs.Prelude.{◌≡◌, ◌+◌, Ok};
ghost use Rattle.message.specs.Answers.{Gives};
ghost use Rattle.module_collections.specs.texts.Words as spec;
ghost use Rattle.module_collections.specs.declared.texts.words.Place.TheVariants as Place;
ghost use Rattle.module_collections.specs.texts.WordViews.{Steps, reading_view, word_reason, words_view};

use std::alloc::{AllocError, AllocFailed, Global};

/// A word, and whether it is written without quotes and braces.
#[derive(Debug, Drop)]
pub(crate) struct Word {
    /// Its text.
    pub(crate) text: String,
    /// Whether it is written without quotes and braces.
    pub(crate) is_bare: bool,
}

/// What is wrong with a line's words.
#[derive(Clone, Copy, Debug, PartialEq, Eq)]
pub enum WordFault {
    /// A backslash stands before what it gives no meaning.
    Backslash,
    /// A script would evaluate this byte, or end a word at it.
    Evaluated(u8),
    /// A quote isn't closed.
    OpenQuote,
    /// Something is joined to a closing quote.
    JoinedToQuote,
    /// Braces aren't closed at the end of a word, or a backslash is in them.
    Braces,
}

/// Where in a line a byte is.
#[derive(Clone, Copy, Debug, PartialEq, Eq)]
pub(crate) enum Place {
    /// Between words.
    Between,
    /// In a word without quotes.
    Bare,
    /// Behind a backslash in such a word.
    BareMarked,
    /// In quotes.
    Quoted,
    /// Behind a backslash in quotes.
    QuotedMarked,
    /// In so many braces.
    Braced(usize),
    /// Behind a closing quote.
    BehindQuote,
    /// Behind a closing brace.
    BehindBrace,
}

/// Why a line gives no words.
#[derive(Debug, Drop)]
pub(crate) enum WordsFault {
    /// An allocation was refused.
    OutOfMemory,
    /// This is wrong with them.
    Wrong(WordFault),
}

impl From<AllocError> for WordsFault {
    ghost use Rattle.module_collections.specs.declared.texts.words.WordsFault.TheVariants.{OutOfMemory};

    ghost from_gives = { λ _ e. e ≡ OutOfMemory };

    fn from(_refused: AllocError) -> WordsFault {
        WordsFault::OutOfMemory
    }
}

impl<T: Drop> From<AllocFailed<T>> for WordsFault {
    ghost use Rattle.module_collections.specs.declared.texts.words.WordsFault.TheVariants.{OutOfMemory};

    ghost from_gives = { λ _ e. e ≡ OutOfMemory };

    fn from(_refused: AllocFailed<T>) -> WordsFault {
        WordsFault::OutOfMemory
    }
}

impl From<WordFault> for WordsFault {
    ghost use Rattle.module_collections.specs.declared.texts.words.WordsFault.TheVariants.{Wrong};

    ghost from_gives = { λ fault e. e ≡ Wrong fault };

    fn from(fault: WordFault) -> WordsFault {
        WordsFault::Wrong(fault)
    }
}

/// A space or a tab.
pub(crate) fn is_blank(byte: u8) -> bool
    ensures { result ≡ spec.is_blank byte }
{
    byte == b' ' || byte == b'\t'
}

/// Whether a script ends a word at the byte, or evaluates it in one.
fn is_evaluated(byte: u8) -> bool
    ensures { result ≡ spec.is_evaluated byte }
{
    byte == b'$' || byte == b';' || byte == b'[' || byte == b']'
}

/// Whether it is a letter or a digit.
pub(crate) fn is_alphanumeric(byte: u8) -> bool
    ensures { result ≡ spec.is_alphanumeric byte }
{
    (b'A' <= byte && byte <= b'Z')
        || (b'a' <= byte && byte <= b'z')
        || (b'0' <= byte && byte <= b'9')
}

/// What a byte behind a backslash means.
fn marked(byte: u8) -> Result<u8, WordFault>
    ensures { result ≡ spec.marked byte }
{
    if byte == b'n' {
        return Ok(b'\n');
    }
    if is_alphanumeric(byte) {
        return Err(WordFault::Backslash);
    }
    Ok(byte)
}

/// How far a line is read.
#[derive(Drop)]
pub(crate) struct LineReader {
    /// The words so far.
    pub(crate) words: Vec<Word>,
    /// The bytes so far of the word that is read.
    pub(crate) bytes: Vec<u8>,
    /// Where that is.
    pub(crate) place: Place,
}

impl LineReader {
    /// Adds a byte to the word, and goes to a place.
    fn take(&mut self, byte: u8, place: Place) -> Result<(), WordsFault>
        ensures { Steps result self.new (Ok (spec.taking (reading_view self.old) byte place)) }
    {
        self.bytes.push(byte)?;
        self.place = place;
        Ok(())
    }

    /// Ends the word.
    fn end_word(&mut self, alloc: Global, is_bare: bool) -> Result<(), WordsFault>
        ensures { Steps result self.new (Ok (spec.ending (reading_view self.old) is_bare)) }
    {
        let text = String::from_utf8_lossy(alloc, self.bytes.as_slice())?;
        self.bytes.clear();
        self.words.push(Word { text, is_bare })?;
        self.place = Place::Between;
        Ok(())
    }

    /// Reads a byte of a word without quotes.
    fn read_bare(&mut self, alloc: Global, byte: u8) -> Result<(), WordsFault>
        ensures { Steps result self.new (spec.in_bare (reading_view self.old) byte) }
    {
        if is_blank(byte) {
            return self.end_word(alloc, true);
        }
        if byte == b'\\' {
            self.place = Place::BareMarked;
            return Ok(());
        }
        if is_evaluated(byte) {
            return Err(WordsFault::Wrong(WordFault::Evaluated(byte)));
        }
        self.take(byte, Place::Bare)
    }

    /// Reads a byte between words.
    fn read_between(&mut self, alloc: Global, byte: u8) -> Result<(), WordsFault>
        ensures { Steps result self.new (spec.in_between (reading_view self.old) byte) }
    {
        if is_blank(byte) {
            return Ok(());
        }
        if byte == b'{' {
            self.place = Place::Braced(1);
            return Ok(());
        }
        if byte == b'"' {
            self.place = Place::Quoted;
            return Ok(());
        }
        self.read_bare(alloc, byte)
    }

    /// Reads a byte in quotes.
    fn read_quoted(&mut self, byte: u8) -> Result<(), WordsFault>
        ensures { Steps result self.new (Ok (spec.in_quotes (reading_view self.old) byte)) }
    {
        if byte == b'"' {
            self.place = Place::BehindQuote;
            return Ok(());
        }
        if byte == b'\\' {
            self.place = Place::QuotedMarked;
            return Ok(());
        }
        self.take(byte, Place::Quoted)
    }

    /// Reads a byte behind a backslash, and goes on at a place.
    fn read_marked(&mut self, byte: u8, place: Place) -> Result<(), WordsFault>
        ensures { Steps result self.new (spec.behind_mark (reading_view self.old) (spec.marked byte) place) }
    {
        let meant = marked(byte)?;
        self.take(meant, place)
    }

    /// Closes a brace, where so many are open.
    fn close_brace(&mut self, depth: usize) -> Result<(), WordsFault>
        ensures { Steps result self.new (Ok (spec.closing (reading_view self.old) depth)) }
    {
        if depth < 2 {
            self.place = Place::BehindBrace;
            return Ok(());
        }
        self.take(b'}', Place::Braced(depth - 1))
    }

    /// Opens one more brace than so many.
    fn open_brace(&mut self, depth: usize) -> Result<(), WordsFault>
        ensures { Steps result self.new (Ok (spec.taking (reading_view self.old) 123 (Place.Braced (depth + 1)))) }
    {
        // No memory holds so many.
        let Some(deeper) = depth.checked_add(1) else {
            return Err(WordsFault::OutOfMemory);
        };
        self.take(b'{', Place::Braced(deeper))
    }

    /// Reads a byte in so many braces.
    fn read_braced(&mut self, depth: usize, byte: u8) -> Result<(), WordsFault>
        ensures { Steps result self.new (spec.in_braces (reading_view self.old) depth byte) }
    {
        if byte == b'\\' {
            return Err(WordsFault::Wrong(WordFault::Braces));
        }
        if byte == b'{' {
            return self.open_brace(depth);
        }
        if byte == b'}' {
            return self.close_brace(depth);
        }
        self.take(byte, Place::Braced(depth))
    }

    /// Reads a byte behind a closing quote or brace; another one than a blank is this fault.
    fn read_closed(&mut self, alloc: Global, fault: WordFault, byte: u8) -> Result<(), WordsFault>
        ensures { Steps result self.new (spec.behind_close (reading_view self.old) fault byte) }
    {
        if is_blank(byte) {
            return self.end_word(alloc, false);
        }
        Err(WordsFault::Wrong(fault))
    }

    /// Reads a byte.
    fn read(&mut self, alloc: Global, byte: u8) -> Result<(), WordsFault>
        ensures { Steps result self.new (spec.step_at self.old.place (reading_view self.old) byte) }
    {
        match self.place {
            Place::Between => self.read_between(alloc, byte),
            Place::Bare => self.read_bare(alloc, byte),
            Place::BareMarked => self.read_marked(byte, Place::Bare),
            Place::Quoted => self.read_quoted(byte),
            Place::QuotedMarked => self.read_marked(byte, Place::Quoted),
            Place::Braced(depth) => self.read_braced(depth, byte),
            Place::BehindQuote => self.read_closed(alloc, WordFault::JoinedToQuote, byte),
            Place::BehindBrace => self.read_closed(alloc, WordFault::Braces, byte),
        }
    }

    /// The words so far.
    fn into_words(self) -> Vec<Word>
        ensures { words_view result ≡ (reading_view self).words }
    {
        let LineReader {
            words,
            bytes: _,
            place: _,
        } = self;
        words
    }

    /// The words, with the one that ends here.
    fn into_words_with_last(mut self, alloc: Global, is_bare: bool) -> Result<Vec<Word>, WordsFault>
        ensures { Gives word_reason words_view result (Ok (spec.ending (reading_view self) is_bare).words) }
    {
        self.end_word(alloc, is_bare)?;
        Ok(self.into_words())
    }

    /// Comes to the end of the line.
    fn end(self, alloc: Global) -> Result<Vec<Word>, WordsFault>
        ensures { Gives word_reason words_view result (spec.end_at self.place (reading_view self)) }
    {
        match self.place {
            Place::Between => Ok(self.into_words()),
            Place::Bare => self.into_words_with_last(alloc, true),
            Place::BareMarked => Err(WordsFault::Wrong(WordFault::Backslash)),
            Place::Quoted => Err(WordsFault::Wrong(WordFault::OpenQuote)),
            Place::QuotedMarked => Err(WordsFault::Wrong(WordFault::OpenQuote)),
            Place::Braced(_) => Err(WordsFault::Wrong(WordFault::Braces)),
            Place::BehindQuote => self.into_words_with_last(alloc, false),
            Place::BehindBrace => self.into_words_with_last(alloc, false),
        }
    }
}

/// The words of a text.
pub(crate) fn words_of(alloc: Global, text: &[u8]) -> Result<Vec<Word>, WordsFault>
    ensures { Gives word_reason words_view result (spec.words_of text.now) }
{
    let mut reader = LineReader {
        words: Vec::new(alloc),
        bytes: Vec::new(alloc),
        place: Place::Between,
    };
    for byte in text {
        reader.read(alloc, *byte)?;
    }
    reader.end(alloc)
}
