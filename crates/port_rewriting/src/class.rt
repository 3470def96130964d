//! What becomes of the commands of a file, and what is said of them.
ghost use Rattle.std.specs.Prelude.{◌≡◌};
ghost use Rattle.port_rewriting.specs.Classes.{told, worse, worst};

/// How a command is written, from the best to the worst.
#[derive(Clone, Copy, Debug, PartialEq, Eq)]
pub enum Class {
    /// Byte for byte, and it means here what it meant there.
    Same,
    /// By other commands, which make the same environment in every case.
    Exact,
    /// By other commands, and there are cases in which something differs.
    Changed,
    /// Byte for byte, and its name isn't read here, or its meaning differs here.
    Left,
}

impl Class {
    /// The worse of two.
    pub fn and(self, other: Class) -> Class
        ensures { result ≡ worse self other }
    {
        match (self, other) {
            (Class::Left, _) | (_, Class::Left) => Class::Left,
            (Class::Changed, _) | (_, Class::Changed) => Class::Changed,
            (Class::Exact, _) | (_, Class::Exact) => Class::Exact,
            _ => Class::Same,
        }
    }
}

/// What a note says of a command.
#[derive(Debug, Drop)]
pub enum Outcome {
    /// Other commands are written for it.
    Translated,
    /// What Tcl computes is written: this text.
    Computed(String),
    /// Other commands are written for it, which differ in this case.
    Changed(String),
    /// It is left as it is, and isn't read here as it was meant.
    Left,
    /// It was added.
    Added,
    /// What a load of its file has done is written.
    Flattened,
    /// The default of a folder is named, which it wasn't.
    Default,
}

impl Outcome {
    /// The class of the command that the note is on.
    pub fn class(&self) -> Class
        ensures { result ≡ told self.now }
    {
        match self {
            Outcome::Translated
            | Outcome::Computed(_)
            | Outcome::Added
            | Outcome::Flattened
            | Outcome::Default => Class::Exact,
            Outcome::Changed(_) => Class::Changed,
            Outcome::Left => Class::Left,
        }
    }
}

/// A note on a command.
#[derive(Debug, Drop)]
pub struct Note {
    /// The line of the command, from 1; none for what was added.
    pub line: Option<usize>,
    /// The command up to the end of its line, or the part of it that the note is on.
    pub what: String,
    /// What became of it.
    pub outcome: Outcome,
}

impl Class {
    /// The worst of it and those of some notes.
    pub fn with(self, notes: &[Note]) -> Class
        ensures { result ≡ worst self notes.now }
    {
        let mut class = self;
        for note in notes {
            class = class.and(note.outcome.class());
        }
        class
    }
}
