//! Why a command of the function prints nothing, with the texts.
ghost use Rattle.std.specs.Prelude.{◌≡◌, Some};
ghost use Rattle.message.specs.Messages.{text_of};
ghost use Rattle.module_words.specs.function.Outputs.{message_of};
ghost use Rattle.module_words.specs.declared.function.output_fault.OutputFault.TheVariants.{Refused, Unprinted};

use crate::function::fault::FunctionFault;
use message::Message;
use shelltext::PrintFault;
use std::error::Error;
use std::fmt;
use std::fmt::Display;

/// Why a command of the function prints nothing. Its `Display` is what follows `ERROR: ` on standard error.
#[derive(Debug, Drop)]
pub enum OutputFault<'a> {
    /// It has no answer.
    Refused(FunctionFault<'a>),
    /// 61 and 62: the changes have no text for the shell.
    Unprinted(PrintFault),
}

impl<'a> OutputFault<'a> {
    /// The text of the fault.
    pub fn message(&self) -> Message<'_>
        ensures { text_of result ≡ message_of self.now }
    {
        match self {
            OutputFault::Refused(fault) => fault.message(),
            OutputFault::Unprinted(fault) => fault.numbered().message,
        }
    }
}

impl<'a> fmt::Display for OutputFault<'a> {
    ghost output = { λ fault. Some (message_of fault) };

    fn fmt<W: fmt::Write>(&self, f: &mut fmt::Formatter<W>) -> fmt::Result {
        self.message().fmt(f)
    }
}

impl<'a> Error for OutputFault<'a> {}

impl<'a> From<FunctionFault<'a>> for OutputFault<'a> {
    ghost from_gives = { λ fault e. e ≡ Refused fault };

    fn from(fault: FunctionFault<'a>) -> OutputFault<'a> {
        OutputFault::Refused(fault)
    }
}

impl<'a> From<PrintFault> for OutputFault<'a> {
    ghost from_gives = { λ fault e. e ≡ Unprinted fault };

    fn from(fault: PrintFault) -> OutputFault<'a> {
        OutputFault::Unprinted(fault)
    }
}
