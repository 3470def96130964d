//! Why a command of the function has no answer, with the texts.
ghost use Rattle.std.specs.Prelude.{◌≡◌, Some, codes};
ghost use Rattle.message.specs.Messages.{quoting, text_of};
ghost use Rattle.module_words.specs.subcommands.Subcommands.{name_of};
ghost use Rattle.module_words.specs.function.Faults.{message_of, of_env};
ghost use Rattle.module_words.specs.declared.function.fault.FunctionFault.TheVariants.{Path, OutOfMemory};

use crate::modulepath::ModulePathFault;
use crate::subcommands::{Subcommand, WordFault};
use envvars::EnvFault;
use message::{Message, RefusalKind};
use std::alloc::{AllocError, AllocFailed};
use std::error::Error;
use std::fmt;
use std::fmt::Display;

/// Why a command of the function has no answer.
#[derive(Debug, Drop)]
pub enum FunctionFault<'a> {
    /// 31: memory ran out.
    OutOfMemory,
    /// 35: the variables of the loaded modules contradict one another.
    Inconsistent,
    /// 56: the words don't fit the subcommand.
    BadArguments,
    /// 63: no shell has this name.
    UnknownShell(&'a str),
    /// The word means no subcommand, or is an option that the subcommand doesn't have.
    Word(WordFault<'a>),
    /// This subcommand is another program's.
    NotHere(Subcommand),
    /// A word names no directory that MODULEPATH can hold, or MODULEPATH would be too long.
    Path(ModulePathFault),
}

/// The text of a subcommand that is another program's.
fn not_here_message(subcommand: Subcommand) -> Message<'static>
    ensures { text_of result ≡ quoting (codes "This program doesn't do '") (name_of subcommand) }
{
    Message::quoting("This program doesn't do '", subcommand.name())
}

impl<'a> FunctionFault<'a> {
    /// The text of the fault.
    pub fn message<'b>(&'b self) -> Message<'b>
        ensures { text_of result ≡ message_of self.now }
    {
        match self {
            FunctionFault::OutOfMemory => RefusalKind::MemoryForRequest.plain().message,
            FunctionFault::Inconsistent => RefusalKind::Inconsistent.plain().message,
            FunctionFault::BadArguments => RefusalKind::BadArguments.plain().message,
            FunctionFault::UnknownShell(word) => {
                let word: &'b str = word;
                RefusalKind::UnknownShell.naming(word).message
            }
            FunctionFault::Word(fault) => fault.message(),
            FunctionFault::NotHere(subcommand) => not_here_message(*subcommand),
            FunctionFault::Path(fault) => fault.message(),
        }
    }
}

impl<'a> fmt::Display for FunctionFault<'a> {
    ghost output = { λ fault. Some (message_of fault) };

    fn fmt<W: fmt::Write>(&self, f: &mut fmt::Formatter<W>) -> fmt::Result {
        self.message().fmt(f)
    }
}

impl<'a> Error for FunctionFault<'a> {}

impl<'a> From<ModulePathFault> for FunctionFault<'a> {
    ghost from_gives = { λ fault e. e ≡ Path fault };

    fn from(fault: ModulePathFault) -> FunctionFault<'a> {
        FunctionFault::Path(fault)
    }
}

impl<'a> From<EnvFault> for FunctionFault<'a> {
    ghost from_gives = { λ fault e. e ≡ of_env fault };

    fn from(fault: EnvFault) -> FunctionFault<'a> {
        match fault {
            EnvFault::Inconsistent => FunctionFault::Inconsistent,
            _ => FunctionFault::OutOfMemory,
        }
    }
}

impl<'a> From<AllocError> for FunctionFault<'a> {
    ghost from_gives = { λ _ e. e ≡ OutOfMemory };

    fn from(_e: AllocError) -> FunctionFault<'a> {
        FunctionFault::OutOfMemory
    }
}

impl<'a, T: Drop> From<AllocFailed<T>> for FunctionFault<'a> {
    ghost from_gives = { λ _ e. e ≡ OutOfMemory };

    fn from(_e: AllocFailed<T>) -> FunctionFault<'a> {
        FunctionFault::OutOfMemory
    }
}
