//! Why there is no audit, with the texts of these faults, and the line on standard error.
ghost use Rattle.std.specs.Prelude.{◌≡◌, Some, OnOk, OnErr};
ghost use Rattle.std.specs.Io.KnownBytes.{Appends};
ghost use Rattle.message.specs.Messages.{around, text_of};
ghost use Rattle.modulecmd.specs.Lines.{error_line};
ghost use Rattle.modulecmd.specs.Writing.{AppendsPart};
ghost use Rattle.modules.specs.declared.refusal.Refusal.TheVariants as refusals;
ghost use Rattle.modules.specs.Answers.{refused_read};
ghost use Rattle.modaudit.specs.declared.command.audit_fault.AuditFault.TheVariants.{Refused};
ghost use Rattle.modaudit.specs.command.Faults.{line_of, message_of, of_walk};

use audit_site::WalkFault;
use envvars::EnvFault;
use filetree::TreeFault;
use itoa::Buffer;
use message::{Message, RefusalKind};
use modulecmd::{WriteFault, write_line};
use modules::Refusal;
use std::alloc::{AllocError, AllocFailed};
use std::error::Error;
use std::fmt;
use std::fmt::Display;
use std::io::Write;

/// What is said of bad arguments, with a line on how the program is called.
const BAD_ARGUMENTS: &str =
    "Bad arguments\nUsage: modaudit [--quiet] [--json] [--without NAME]... [DIR...]";

/// Why there is no audit. Its `Display` is what follows `ERROR: ` on standard error.
#[derive(Debug, Drop)]
pub enum AuditFault {
    /// The loaded lists don't fit together (35), the device failed (43), or memory ran out.
    Refused(Refusal),
    /// 56: an option isn't known. A second line says how the program is called.
    BadArguments,
    /// No directory is named, and MODULEPATH has none.
    EmptyModulepath,
    /// The site has too many directories.
    TooManyDirectories,
    /// This word of the arguments names no directory.
    NotADirectory(String),
    /// 64: a write to standard output failed.
    WriteFailed,
}

impl AuditFault {
    /// The text of the fault.
    pub fn message(&self) -> Message<'_>
        ensures { text_of result ≡ message_of self.now }
    {
        match self {
            AuditFault::Refused(refusal) => refusal.numbered().message,
            AuditFault::BadArguments => Message::of_text(BAD_ARGUMENTS),
            AuditFault::EmptyModulepath => Message::of_text("MODULEPATH has no directory"),
            AuditFault::TooManyDirectories => Message::of_text("Too many directories"),
            AuditFault::NotADirectory(dir) => Message::quoting("Not a directory: '", dir.as_str()),
            AuditFault::WriteFailed => RefusalKind::WriteFailed.plain().message,
        }
    }
}

impl fmt::Display for AuditFault {
    ghost output = { λ fault. Some (message_of fault) };

    fn fmt<W: fmt::Write>(&self, f: &mut fmt::Formatter<W>) -> fmt::Result {
        self.message().fmt(f)
    }
}

impl Error for AuditFault {}

impl From<WalkFault> for AuditFault {
    ghost from_gives = { λ fault e. e ≡ of_walk fault };

    fn from(fault: WalkFault) -> AuditFault {
        match fault {
            WalkFault::Refused(refusal) => AuditFault::Refused(refusal),
            WalkFault::TooManyDirectories => AuditFault::TooManyDirectories,
        }
    }
}

impl From<TreeFault> for AuditFault {
    ghost from_gives = { λ fault e. e ≡ Refused (refused_read fault) };

    fn from(fault: TreeFault) -> AuditFault {
        AuditFault::Refused(Refusal::from(fault))
    }
}

impl From<EnvFault> for AuditFault {
    ghost from_gives = { λ fault e. e ≡ Refused (refusals.Env fault) };

    fn from(fault: EnvFault) -> AuditFault {
        AuditFault::Refused(Refusal::Env(fault))
    }
}

impl From<AllocError> for AuditFault {
    ghost from_gives = { λ _ e. e ≡ Refused refusals.OutOfMemory };

    fn from(_e: AllocError) -> AuditFault {
        AuditFault::Refused(Refusal::OutOfMemory)
    }
}

impl<T: Drop> From<AllocFailed<T>> for AuditFault {
    ghost from_gives = { λ _ e. e ≡ Refused refusals.OutOfMemory };

    fn from(_e: AllocFailed<T>) -> AuditFault {
        AuditFault::Refused(Refusal::OutOfMemory)
    }
}

/// Writes the line that says why there is no audit, without taking memory. It is tried once: a write that fails ends
/// it. Then the first part of the line is written, not all.
pub fn write_fault<E: Write>(fault: &AuditFault, err: &mut E) -> Result<(), WriteFault>
    ensures whole { OnOk result (Appends (E.contents err.old) (E.contents err.new) (line_of fault.now)) }
    ensures cut { OnErr result (AppendsPart (E.contents err.old) (E.contents err.new) (line_of fault.now)) }
{
    let mut digits = Buffer::new();
    let message = fault.message();
    let [before, left, subject, right, after] = message.parts(&mut digits);
    write_line(before, left, subject, right, after, err)
}
