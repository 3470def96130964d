//! The table of refusals: for each its number, and the text before and after what it names. docs/REFUSALS.md says when
//! each comes.
ghost use Rattle.std.specs.Prelude.{◌≡◌, [], decimal};
ghost use Rattle.message.specs.Messages.{subject_text, text_of};
ghost use Rattle.message.specs.Refusals as table;
ghost use Rattle.message.specs.Refusals.{number_of, numbered_text, row_of};

use crate::{Message, Subject};

/// The refusals, in the order of their numbers.
#[derive(Clone, Copy, Debug, PartialEq, Eq)]
pub enum RefusalKind {
    /// 1: memory ran out for a text.
    MemoryForText,
    /// 2: nothing closes a brace.
    OpenBrace,
    /// 3: nothing closes a quote.
    OpenQuote,
    /// 4: nothing closes a bracket.
    OpenBracket,
    /// 5: a character follows a closing quote or brace directly.
    JoinedToClose,
    /// 6: a text nests past the limit.
    TextTooDeep,
    /// 7: a character isn't allowed there.
    BadCharacter,
    /// 8: an expression is wrong.
    BadExpression,
    /// 9: a text is longer than the limit.
    TooLong,
    /// 11: memory ran out for an evaluation.
    MemoryForEvaluation,
    /// 12: a text can't be parsed; what is wrong with it is said in the words of 2 to 9.
    BadText,
    /// 13: an error of Tcl, in its own words.
    TclError,
    /// 14: more commands and turns of loops than the limit.
    TooManyCommands,
    /// 15: an evaluation nests past the limit.
    EvaluationTooDeep,
    /// 16: a value is longer than the limit.
    ValueTooLong,
    /// 17: a whole number lies outside 64 bits.
    NumberTooLarge,
    /// 18: a number is spelled with a fraction or an exponent.
    FractionOperand,
    /// 19: something is unsupported for good.
    LeftOut,
    /// 20: a modulefile stopped itself.
    Stopped,
    /// 21: a host refused a command.
    Host,
    /// 31: memory ran out for the environment or a request.
    MemoryForRequest,
    /// 32: no variable may have this name.
    BadVariable,
    /// 33: a variable holds the tool's own state.
    Protected,
    /// 34: a counter of a path variable would pass its limit.
    CounterFull,
    /// 35: the variables of the loaded modules contradict one another.
    Inconsistent,
    /// 36: the stack of a variable can't be read.
    BadStack,
    /// 37: a variable may not have this value.
    BadValue,
    /// 41: memory ran out for the search.
    MemoryForSearch,
    /// 42: no directory of the path has a module of this name.
    NotFound,
    /// 43: a file or a directory can't be read.
    Device,
    /// 44: no module may have this name.
    BadName,
    /// 45: a default file has a fault.
    BadDefaultFile,
    /// 46: a modulefile isn't UTF-8.
    NotUtf8,
    /// 51: a module and a loaded one are in conflict.
    ConflictWith,
    /// 52: none of the modules that a module needs is loaded.
    PrereqMissing,
    /// 53: a loaded module would lose what it needs.
    StillNeededBy,
    /// 54: the file of a loaded module is gone.
    FileGone,
    /// 55: the file of a loaded module is no modulefile.
    NotAModulefile,
    /// 56: words don't fit the command.
    BadArguments,
    /// 57: no subcommand has this name.
    UnknownSubcommand,
    /// 61: memory ran out for the printing.
    MemoryForPrinting,
    /// 62: a shell has no text for a change.
    NotSayable,
    /// 63: no shell has this name.
    UnknownShell,
    /// 64: a write failed.
    WriteFailed,
}

/// The number of a refusal, and its text.
#[derive(Clone, Copy, Debug, PartialEq, Eq)]
pub struct NumberedMessage<'a> {
    /// The number.
    pub number: u16,
    /// The text, without `ERROR: `.
    pub message: Message<'a>,
}

impl RefusalKind {
    /// The number of the refusal.
    pub fn number(self) -> u16
        ensures { result ≡ number_of self }
    {
        match self {
            RefusalKind::MemoryForText => 1,
            RefusalKind::OpenBrace => 2,
            RefusalKind::OpenQuote => 3,
            RefusalKind::OpenBracket => 4,
            RefusalKind::JoinedToClose => 5,
            RefusalKind::TextTooDeep => 6,
            RefusalKind::BadCharacter => 7,
            RefusalKind::BadExpression => 8,
            RefusalKind::TooLong => 9,
            RefusalKind::MemoryForEvaluation => 11,
            RefusalKind::BadText => 12,
            RefusalKind::TclError => 13,
            RefusalKind::TooManyCommands => 14,
            RefusalKind::EvaluationTooDeep => 15,
            RefusalKind::ValueTooLong => 16,
            RefusalKind::NumberTooLarge => 17,
            RefusalKind::FractionOperand => 18,
            RefusalKind::LeftOut => 19,
            RefusalKind::Stopped => 20,
            RefusalKind::Host => 21,
            RefusalKind::MemoryForRequest => 31,
            RefusalKind::BadVariable => 32,
            RefusalKind::Protected => 33,
            RefusalKind::CounterFull => 34,
            RefusalKind::Inconsistent => 35,
            RefusalKind::BadStack => 36,
            RefusalKind::BadValue => 37,
            RefusalKind::MemoryForSearch => 41,
            RefusalKind::NotFound => 42,
            RefusalKind::Device => 43,
            RefusalKind::BadName => 44,
            RefusalKind::BadDefaultFile => 45,
            RefusalKind::NotUtf8 => 46,
            RefusalKind::ConflictWith => 51,
            RefusalKind::PrereqMissing => 52,
            RefusalKind::StillNeededBy => 53,
            RefusalKind::FileGone => 54,
            RefusalKind::NotAModulefile => 55,
            RefusalKind::BadArguments => 56,
            RefusalKind::UnknownSubcommand => 57,
            RefusalKind::MemoryForPrinting => 61,
            RefusalKind::NotSayable => 62,
            RefusalKind::UnknownShell => 63,
            RefusalKind::WriteFailed => 64,
        }
    }

    /// The text before what the refusal names.
    fn before(self) -> &'static str
        ensures { result.now ≡ (row_of self).before }
    {
        match self {
            RefusalKind::MemoryForText
            | RefusalKind::MemoryForEvaluation
            | RefusalKind::MemoryForRequest
            | RefusalKind::MemoryForSearch
            | RefusalKind::MemoryForPrinting => "Out of memory",
            RefusalKind::OpenBrace => "Missing close-brace at byte ",
            RefusalKind::OpenQuote => "Missing close-quote at byte ",
            RefusalKind::OpenBracket => "Missing close-bracket at byte ",
            RefusalKind::JoinedToClose => "Extra characters after a close at byte ",
            RefusalKind::TextTooDeep => "Text is nested too deeply",
            RefusalKind::BadCharacter => "Bad character at byte ",
            RefusalKind::BadExpression => "Bad expression at byte ",
            RefusalKind::TooLong => "Text is too long",
            RefusalKind::BadText | RefusalKind::TclError => "",
            RefusalKind::TooManyCommands => "Too many commands",
            RefusalKind::EvaluationTooDeep => "Too many nested evaluations",
            RefusalKind::ValueTooLong => "A value is too long",
            RefusalKind::NumberTooLarge => "A number is too large",
            RefusalKind::FractionOperand => "A number with a fraction is not computed",
            RefusalKind::LeftOut => "'",
            RefusalKind::Stopped => "Stopped by the modulefile",
            RefusalKind::Host => "Refused by ",
            RefusalKind::BadVariable => "Bad variable name '",
            RefusalKind::Protected => "Variable '",
            RefusalKind::CounterFull => "Counter of '",
            RefusalKind::Inconsistent => "Loaded modules are inconsistent",
            RefusalKind::BadStack => "Bad stack of '",
            RefusalKind::BadValue => "Bad value of '",
            RefusalKind::NotFound => "Unable to locate a modulefile for '",
            RefusalKind::Device => "Reading failed",
            RefusalKind::BadName => "Bad module name '",
            RefusalKind::BadDefaultFile => "Bad default file '",
            RefusalKind::NotUtf8 => "Not UTF-8: '",
            RefusalKind::ConflictWith => "Conflict with '",
            RefusalKind::PrereqMissing => "Missing one of '",
            RefusalKind::StillNeededBy => "Still needed by '",
            RefusalKind::FileGone => "No file at '",
            RefusalKind::NotAModulefile => "Not a modulefile: '",
            RefusalKind::BadArguments => "Bad arguments",
            RefusalKind::UnknownSubcommand => "Unknown subcommand '",
            RefusalKind::NotSayable => "Value of '",
            RefusalKind::UnknownShell => "Unknown shell '",
            RefusalKind::WriteFailed => "Writing failed",
        }
    }

    /// The text behind what the refusal names.
    fn after(self) -> &'static str
        ensures { result.now ≡ (row_of self).after }
    {
        match self {
            RefusalKind::LeftOut => "' is left out",
            RefusalKind::BadVariable
            | RefusalKind::BadStack
            | RefusalKind::BadValue
            | RefusalKind::NotFound
            | RefusalKind::BadName
            | RefusalKind::BadDefaultFile
            | RefusalKind::NotUtf8
            | RefusalKind::ConflictWith
            | RefusalKind::PrereqMissing
            | RefusalKind::StillNeededBy
            | RefusalKind::FileGone
            | RefusalKind::NotAModulefile
            | RefusalKind::UnknownSubcommand
            | RefusalKind::UnknownShell => "'",
            RefusalKind::Protected => "' is kept by the tool",
            RefusalKind::CounterFull => "' is full",
            RefusalKind::NotSayable => "' can't be said in this shell",
            _ => "",
        }
    }

    /// The refusal, about this subject.
    fn about<'a>(self, subject: Subject<'a>) -> NumberedMessage<'a>
        ensures { numbered_text result ≡ table.about self (subject_text subject.entry) }
    {
        NumberedMessage {
            number: self.number(),
            message: Message {
                before: self.before(),
                subject,
                after: self.after(),
            },
        }
    }

    /// The refusal, which names nothing.
    pub fn plain(self) -> NumberedMessage<'static>
        ensures { numbered_text result ≡ table.about self [] }
    {
        self.about(Subject::Nothing)
    }

    /// The refusal that names this.
    pub fn naming<'a>(self, name: &'a str) -> NumberedMessage<'a>
        ensures { numbered_text result ≡ table.about self name.now }
    {
        self.about(Subject::Name(name))
    }

    /// The refusal that names this number.
    pub fn numbering(self, number: usize) -> NumberedMessage<'static>
        ensures { numbered_text result ≡ table.about self (decimal number) }
    {
        self.about(Subject::Number(number))
    }

    /// The refusal, said in these words instead of the table's.
    pub fn saying<'a>(self, message: Message<'a>) -> NumberedMessage<'a>
        ensures { numbered_text result ≡ table.saying self (text_of message.entry) }
    {
        NumberedMessage {
            number: self.number(),
            message,
        }
    }
}
