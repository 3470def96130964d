//! Why a command is refused, with the numbers and texts of these faults, and the line on standard error.
ghost use Rattle.std.specs.Prelude.{◌≡◌, Some, OnOk, OnErr};
ghost use Rattle.std.specs.Io.KnownBytes.{Appends};
ghost use Rattle.modulecmd.specs.Writing.{AppendsPart};
ghost use Rattle.message.specs.Messages.{around, text_of};
ghost use Rattle.message.specs.Refusals.{numbered_text};
ghost use Rattle.modulecmd.specs.Lines.{error_line, line_of, message_of, refusal_of};
ghost use Rattle.modules.specs.declared.refusal.Refusal.TheVariants as refusals;
ghost use Rattle.modulecmd.specs.declared.command_fault.CommandFault.TheVariants.{Refused, Unprinted};
ghost use Rattle.modulecmd.specs.Command.{number_of, of_input};

use crate::writers::{WriteFault, write_line};
use envvars::EnvFault;
use itoa::Buffer;
use message::{Message, NumberedMessage, RefusalKind};
use modules::Refusal;
use process::InputFault;
use search::FindFault;
use shelltext::PrintFault;
use std::alloc::AllocError;
use std::error::Error;
use std::fmt;
use std::fmt::Display;
use std::io::Write;

/// Why a command is refused. Its `Display` is what follows `ERROR: ` on standard error.
#[derive(Debug, Drop)]
pub enum CommandFault {
    /// 1 to 57: the words make no request, or the request is refused.
    Refused(Refusal),
    /// 61 and 62: the changes have no text for the shell.
    Unprinted(PrintFault),
    /// 63: no shell has this name.
    UnknownShell(String),
    /// 64: a write to standard output or standard error failed.
    WriteFailed,
}

impl CommandFault {
    /// The number of the refusal and its text.
    pub fn numbered(&self) -> NumberedMessage<'_>
        ensures { numbered_text result ≡ refusal_of self.now }
    {
        match self {
            CommandFault::Refused(refusal) => refusal.numbered(),
            CommandFault::Unprinted(fault) => fault.numbered(),
            CommandFault::UnknownShell(word) => RefusalKind::UnknownShell.naming(word.as_str()),
            CommandFault::WriteFailed => RefusalKind::WriteFailed.plain(),
        }
    }

    /// The text of the refusal.
    fn message(&self) -> Message<'_>
        ensures { text_of result ≡ message_of self.now }
    {
        self.numbered().message
    }

    /// The number of the refusal.
    pub fn number(&self) -> u16
        ensures { result ≡ number_of self.now }
    {
        match self {
            CommandFault::Refused(refusal) => refusal.number(),
            CommandFault::Unprinted(fault) => fault.number(),
            CommandFault::UnknownShell(_) => RefusalKind::UnknownShell.number(),
            CommandFault::WriteFailed => RefusalKind::WriteFailed.number(),
        }
    }
}

impl fmt::Display for CommandFault {
    ghost output = { λ fault. Some (message_of fault) };

    fn fmt<W: fmt::Write>(&self, f: &mut fmt::Formatter<W>) -> fmt::Result {
        self.message().fmt(f)
    }
}

impl Error for CommandFault {}

impl From<Refusal> for CommandFault {
    ghost from_gives = { λ refusal e. e ≡ Refused refusal };

    fn from(refusal: Refusal) -> CommandFault {
        CommandFault::Refused(refusal)
    }
}

impl From<EnvFault> for CommandFault {
    ghost from_gives = { λ fault e. e ≡ Refused (refusals.Env fault) };

    fn from(fault: EnvFault) -> CommandFault {
        CommandFault::Refused(Refusal::Env(fault))
    }
}

impl From<PrintFault> for CommandFault {
    ghost from_gives = { λ fault e. e ≡ Unprinted fault };

    fn from(fault: PrintFault) -> CommandFault {
        CommandFault::Unprinted(fault)
    }
}

impl From<AllocError> for CommandFault {
    ghost from_gives = { λ _ e. e ≡ Refused refusals.OutOfMemory };

    fn from(_e: AllocError) -> CommandFault {
        CommandFault::Refused(Refusal::OutOfMemory)
    }
}

impl From<InputFault> for CommandFault {
    ghost from_gives = { λ fault e. e ≡ of_input fault };

    fn from(fault: InputFault) -> CommandFault {
        match fault {
            InputFault::OutOfMemory => CommandFault::Refused(Refusal::OutOfMemory),
            InputFault::ReadFailed => CommandFault::Refused(Refusal::Find(FindFault::Device)),
            InputFault::BadInput => CommandFault::Refused(Refusal::BadArguments),
        }
    }
}

/// Writes the line that says why a command is refused, without taking memory. It is tried once: a write that fails ends
/// it. Then the first part of the line is written, not all.
pub fn write_refusal<E: Write>(fault: &CommandFault, err: &mut E) -> Result<(), WriteFault>
    ensures whole { OnOk result (Appends (E.contents err.old) (E.contents err.new) (line_of fault.now)) }
    ensures cut { OnErr result (AppendsPart (E.contents err.old) (E.contents err.new) (line_of fault.now)) }
{
    let mut digits = Buffer::new();
    let message = fault.message();
    let [before, left, subject, right, after] = message.parts(&mut digits);
    write_line(before, left, subject, right, after, err)
}
