//! The words of a command.
ghost use Rattle.std.specs.Prelude.{◌≡◌, ◌<◌, [], MatchOption, drop, length};
ghost use Rattle.tclcommands.specs.CommandTexts.{name_of};

/// The words of a command, of which the first is its name.
#[derive(Clone, Copy)]
pub struct CommandWords<'w> {
    /// The words, one at least.
    pub words: &'w [String],
    ghost not_empty: { 0 < length words.now },
}

impl<'w> CommandWords<'w> {
    /// These words as those of a command; None where there are none.
    pub fn of(words: &'w [String]) -> Option<CommandWords<'w>>
        ensures { MatchOption result (words.entry.now ≡ []) (λ command. command.words.now ≡ words.entry.now) }
    {
        if words.is_empty() {
            return None;
        }
        Some(CommandWords { words })
    }

    /// The name of the command.
    pub fn name(self) -> &'w str
        ensures { result.now ≡ name_of self.entry.words.now }
    {
        self.words[0].as_str()
    }

    /// The words after the name.
    pub fn operands(self) -> &'w [String]
        ensures { result.now ≡ drop 1 self.entry.words.now }
    {
        &self.words[1..]
    }
}
