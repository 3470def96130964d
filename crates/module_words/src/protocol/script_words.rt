//! The words that only scripts and completion say, where no subcommand's name stands.
ghost use Rattle.std.specs.Prelude.{◌≡◌};
ghost use Rattle.module_words.specs.protocol.ScriptWords as spec;

/// What a script asks for by a word of its own.
#[derive(Clone, Copy, Debug, PartialEq, Eq)]
pub enum ScriptWord {
    /// The names that complete a word.
    Names,
    /// The directories of a site's file.
    Directories,
    /// The name of the subcommand that a word means.
    Meaning,
    /// What explains that a command was refused.
    Explanation,
    /// Loaded modules whose names begin as those that weren't loaded.
    Unloaded,
}

/// What a script asks for by this word, where it is one of its own.
pub fn script_word(word: &str) -> Option<ScriptWord>
    ensures { result ≡ spec.script_word word.now }
{
    match word {
        "names" => Some(ScriptWord::Names),
        "modulespath" => Some(ScriptWord::Directories),
        "subcommand" => Some(ScriptWord::Meaning),
        "explain" => Some(ScriptWord::Explanation),
        "unloaded" => Some(ScriptWord::Unloaded),
        _ => None,
    }
}
