//! The lines of a collection: `module use` or `module load` with words.
ghost use Rattle.std.specs.Prelude.{◌≡◌, ◌≤◌, bytes_eq, length, map, not, string_bytes, OnOk};
ghost use Rattle.std.specs.List.{list_any, position_or_len};
ghost use Rattle.std.specs.Option.{option_map};
ghost use Rattle.envvars.specs.Texts.{texts_in};
ghost use Rattle.envstate.specs.paths.Paths.{put_at};
ghost use Rattle.envstate.specs.declared.paths.adding.End.TheVariants.{Back};
ghost use Rattle.module_collections.specs.texts.Words as words;
ghost use Rattle.module_collections.specs.texts.WordViews.{word_view};
ghost use Rattle.module_collections.specs.texts.Lines as spec;
ghost use Rattle.module_collections.specs.texts.Views.{Adds, AddsUsed, kept_view};

use crate::texts::collection::Collection;
use crate::texts::fault::LineFault;
use crate::texts::words::{Word, WordsFault, is_blank, words_of};
use envstate::paths::End;
use std::alloc::{AllocError, Global};

/// Whether it is no blank.
fn is_unblank(byte: u8) -> bool
    ensures { result ≡ spec.is_unblank byte }
{
    !is_blank(byte)
}

/// How many blanks a text begins with.
fn blanks(text: &[u8]) -> usize
    ensures value { result ≡ position_or_len spec.is_unblank text.now }
    ensures bound { result ≤ length text.now }
{
    text.iter()
        .position(|byte| is_unblank(*byte))
        .unwrap_or(text.len())
}

/// The text without these blanks.
fn unblanked(text: &[u8]) -> &[u8]
    ensures { result.now ≡ spec.unblanked text.now }
{
    let start = blanks(text);
    &text[start..]
}

/// Whether the text begins with a blank.
fn begins_blank(text: &[u8]) -> bool
    ensures { result ≡ spec.begins words.is_blank text.now }
{
    match text {
        [] => false,
        [first, ..] => is_blank(*first),
    }
}

/// Whether a line says nothing.
fn says_nothing(text: &[u8]) -> bool
    ensures { result ≡ spec.says_nothing text.now }
{
    match text {
        [] => true,
        [first, ..] => *first == b'#',
    }
}

/// What is behind this word and the blanks after it, where the text begins so.
fn behind<'a>(word: &[u8], text: &'a [u8]) -> Option<&'a [u8]>
    ensures { option_map (λ t. t.now) result ≡ spec.behind word.now text.entry.now }
{
    if !text.starts_with(word) {
        return None;
    }
    let rest = &text[word.len()..];
    if begins_blank(rest) {
        Some(unblanked(rest))
    } else {
        None
    }
}

/// Whether an option says that directories go behind those that are there.
fn is_append(text: &str) -> bool
    ensures { result ≡ spec.is_append text.now }
{
    text == "-a" || text == "-append" || text == "--append"
}

/// Whether an option says that they go in front.
fn is_prepend(text: &str) -> bool
    ensures { result ≡ spec.is_prepend text.now }
{
    text == "-p" || text == "-prepend" || text == "--prepend"
}

/// The end that an option of `module use` names.
fn end_named(word: &Word) -> Option<End>
    ensures { result ≡ spec.end_named (word_view word.now) }
{
    let text = word.text.as_str();
    if !word.is_bare {
        return None;
    }
    if is_append(text) {
        return Some(End::Back);
    }
    if is_prepend(text) {
        Some(End::Front)
    } else {
        None
    }
}

/// Whether a text is an absolute directory without a colon.
fn is_directory(text: &str) -> bool
    ensures { result ≡ spec.is_directory text.now }
{
    text.starts_with('/') && !text.as_bytes().contains(&b':')
}

/// Whether a byte is a blank or a newline.
fn is_gap(byte: u8) -> bool
    ensures { result ≡ spec.is_gap byte }
{
    is_blank(byte) || byte == b'\n'
}

/// Whether a byte of the text is white space.
fn has_gap(text: &[u8]) -> bool
    ensures { result ≡ list_any spec.is_gap text.now }
{
    text.iter().any(|byte| is_gap(*byte))
}

/// Whether a text is a name of a module: not empty, with no hyphen first and no white space in it.
fn is_module(text: &str) -> bool
    ensures { result ≡ spec.is_module text.now }
{
    !text.is_empty() && !text.starts_with('-') && !has_gap(text.as_bytes())
}

/// Whether the word is the mark of a module that another one has brought.
fn is_mark(word: &Word) -> bool
    ensures { result ≡ spec.is_mark (word_view word.now) }
{
    word.is_bare && word.text.as_str() == "--notuasked"
}

/// Puts a path at an end.
fn put_at(paths: &mut Vec<String>, path: String, end: End) -> Result<(), AllocError>
    ensures { OnOk result (texts_in paths.new ≡ put_at (texts_in paths.old) (string_bytes path) end) }
{
    match end {
        End::Front => Ok(paths.insert(0, path)?),
        End::Back => Ok(paths.push(path)?),
    }
}

impl Collection {
    /// Whether the directory is there.
    fn has_directory(&self, path: &str) -> bool
        ensures { result ≡ list_any (λ other. bytes_eq other path.now) (texts_in self.now.directories) }
    {
        self.directories.iter().any(|other| other.as_str() == path)
    }

    /// Adds a directory at an end, unless it is there.
    fn add_directory(&mut self, end: End, path: &String) -> Result<(), LineFault>
        ensures { Adds result self.new (Ok (spec.with_directory (kept_view self.old) end (string_bytes path.now))) }
    {
        if self.has_directory(path.as_str()) {
            return Ok(());
        }
        let path = path.clone()?;
        put_at(&mut self.directories, path, end)?;
        Ok(())
    }

    /// Adds what a word of `module use` names, and answers the end for those behind it.
    fn add_used_word(&mut self, word: &Word, end: End) -> Result<End, LineFault>
        ensures { AddsUsed result self.new (spec.used_at (spec.end_named (word_view word.now))
            (string_bytes word.now.text) end (kept_view self.old)) }
    {
        if let Some(other) = end_named(word) {
            return Ok(other);
        }
        if !is_directory(word.text.as_str()) {
            return Err(LineFault::NoDirectory(word.text.clone()?));
        }
        self.add_directory(end, &word.text)?;
        Ok(end)
    }

    /// Adds what the words of `module use` name.
    fn add_used(&mut self, words: &[Word]) -> Result<(), LineFault>
        ensures { Adds result self.new (spec.with_used (map word_view words.now) Back (kept_view self.old)) }
    {
        let mut end = End::Back;
        for word in words {
            end = self.add_used_word(word, end)?;
        }
        Ok(())
    }

    /// Adds a module.
    fn add_module(&mut self, name: &String) -> Result<(), LineFault>
        ensures { Adds result self.new (Ok (spec.with_module (kept_view self.old) (string_bytes name.now))) }
    {
        self.modules.push(name.clone()?)?;
        Ok(())
    }

    /// Adds what a word of `module load` names.
    fn add_loaded_word(&mut self, word: &Word) -> Result<(), LineFault>
        ensures { Adds result self.new (spec.loaded_at (word_view word.now) (kept_view self.old)) }
    {
        if is_mark(word) {
            return Ok(());
        }
        if !is_module(word.text.as_str()) {
            return Err(LineFault::NoModule(word.text.clone()?));
        }
        self.add_module(&word.text)
    }

    /// Adds what the words of `module load` name.
    fn add_loaded(&mut self, words: &[Word]) -> Result<(), LineFault>
        ensures { Adds result self.new (spec.with_loaded (map word_view words.now) (kept_view self.old)) }
    {
        for word in words {
            self.add_loaded_word(word)?;
        }
        Ok(())
    }

    /// Adds what a command says, by what is behind `module`.
    fn add_command(&mut self, alloc: Global, text: &[u8]) -> Result<(), LineFault>
        ensures { Adds result self.new (spec.with_module_command (kept_view self.old) (Some text.now)) }
    {
        if let Some(used) = behind(b"use", text) {
            let words = words_of(alloc, used)?;
            return self.add_used(words.as_slice());
        }
        if let Some(loaded) = behind(b"load", text) {
            let words = words_of(alloc, loaded)?;
            return self.add_loaded(words.as_slice());
        }
        Err(LineFault::Neither)
    }

    /// Adds what a line says.
    pub(crate) fn add_line(&mut self, alloc: Global, line: &[u8]) -> Result<(), LineFault>
        ensures { Adds result self.new (spec.with_line (kept_view self.old) line.now) }
    {
        let text = unblanked(line);
        if says_nothing(text) {
            return Ok(());
        }
        match behind(b"module", text) {
            Some(command) => self.add_command(alloc, command),
            None => Err(LineFault::Neither),
        }
    }
}

impl From<WordsFault> for LineFault {
    ghost use Rattle.module_collections.specs.texts.Views.{fault_of_words};

    ghost from_gives = { λ fault e. e ≡ fault_of_words fault };

    fn from(fault: WordsFault) -> LineFault {
        match fault {
            WordsFault::OutOfMemory => LineFault::OutOfMemory,
            WordsFault::Wrong(fault) => LineFault::BadWords(fault),
        }
    }
}
