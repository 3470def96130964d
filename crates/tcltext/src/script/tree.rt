//! The tree of a script: commands of words, and words of parts.

/// A script: its commands, in order. A piece of its text is a `P`: a slice of the source, or a range of bytes.
#[cycle(tree)]
#[derive(Debug, Drop)]
pub struct Script<P> {
    /// The commands, in order.
    pub commands: Vec<Command<P>>,
}

/// A command: its words, of which the first names it.
#[cycle(tree)]
#[derive(Debug, Drop)]
pub struct Command<P> {
    /// The byte offset of the first word in the script that the command is in: in the source, or in the text in
    /// brackets.
    pub offset: usize,
    /// The source text of the first word.
    pub source: P,
    /// The words, of which there is one at least.
    pub words: Vec<Word<P>>,
}

/// A word of a command.
#[cycle(tree)]
#[derive(Debug, Drop)]
pub struct Word<P> {
    /// Whether the word begins with `{*}`: the elements of its list are words of the command.
    pub expands: bool,
    /// What the value of the word is made of.
    pub content: WordContent<P>,
}

/// What the value of a word is made of. Most words are one piece of the text, and take no memory of their own.
#[cycle(tree)]
#[derive(Debug, Drop)]
pub enum WordContent<P> {
    /// Literal text without quotes and braces, which is its own value.
    Bare(P),
    /// The text between the braces of the word, as it is.
    Braced(P),
    /// Parts, whose values are joined; the word in empty quotes has none.
    Parts(Vec<Part<P>>),
}

/// A part of a word that isn't in braces.
#[cycle(tree)]
#[derive(Debug, Drop)]
pub enum Part<P> {
    /// Text that is its own value.
    Literal(P),
    /// The character that a backslash and the characters after it stand for.
    Backslash(char),
    /// The value of the variable of this name.
    Variable(P),
    /// The value of an element of the array of this name, with its index.
    Indexed(P, Vec<Part<P>>),
    /// The result of a script in brackets.
    Bracket(Script<P>),
}
