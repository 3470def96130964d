//! Why a command is refused, and the line that says so.
ghost use Rattle.std.specs.Prelude.{◌≡◌, Some, IfOk, string_bytes};
ghost use Rattle.module_subcommands.specs.Refusals.{error_line, message_of, of_env};
ghost use Rattle.module_subcommands.specs.declared.refusal.Refusal.TheVariants as refusals;
ghost use Rattle.module_auto.specs.declared.fault.RequestFault.TheVariants as faults;

use envvars::EnvFault;
use message::{NumberedMessage, RefusalKind};
use module_auto::RequestFault;
use module_collections::files::FileFault;
use module_reports::listings::ListingFault;
use module_restore::KeepFault;
use module_restore::forgetting::ForgetFault;
use module_words::function::{FunctionFault, OutputFault};
use modules::Refusal as RequestRefusal;
use shelltext::PrintFault;
use std::alloc::{AllocError, AllocFailed, Global};
use std::error::Error;
use std::fmt;
use std::fmt::Display;

/// Why a command is refused. Its `Display` is what stands behind `ERROR: `.
#[derive(Debug, Drop)]
pub enum Refusal<'a> {
    /// 31: memory ran out.
    OutOfMemory,
    /// 56: its words don't fit it.
    BadArguments,
    /// 64: something can't be written.
    WriteFailed,
    /// Another reason with a number.
    Numbered(NumberedMessage<'a>),
    /// Its words mean nothing.
    Function(FunctionFault<'a>),
    /// `use`, `unuse` or `is-loaded` answer nothing.
    Output(OutputFault<'a>),
    /// There is no report.
    Listing(ListingFault<'a>),
    /// A module, or all of them, can't be described.
    Described(RequestRefusal),
    /// Nothing is loaded, unloaded or shown: it can be explained.
    Requested(RequestFault),
    /// The collection can't be restored, or the modules can't be loaded again.
    Restore(RequestFault),
    /// Nothing can be kept.
    Keep(KeepFault),
    /// Nothing is forgotten.
    Forget(ForgetFault),
    /// This is wrong with the files of collections.
    Files(FileFault),
}

impl<'a> From<AllocError> for Refusal<'a> {
    ghost from_gives = { λ _ e. e ≡ refusals.OutOfMemory };

    fn from(_e: AllocError) -> Refusal<'a> {
        Refusal::OutOfMemory
    }
}

impl<'a, T: Drop> From<AllocFailed<T>> for Refusal<'a> {
    ghost from_gives = { λ _ e. e ≡ refusals.OutOfMemory };

    fn from(_e: AllocFailed<T>) -> Refusal<'a> {
        Refusal::OutOfMemory
    }
}

impl<'a> From<EnvFault> for Refusal<'a> {
    ghost from_gives = { λ fault e. e ≡ of_env fault };

    fn from(fault: EnvFault) -> Refusal<'a> {
        Refusal::Requested(RequestFault::Refused(RequestRefusal::Env(fault)))
    }
}

impl<'a> From<FunctionFault<'a>> for Refusal<'a> {
    ghost from_gives = { λ fault e. e ≡ refusals.Function fault };

    fn from(fault: FunctionFault<'a>) -> Refusal<'a> {
        Refusal::Function(fault)
    }
}

impl<'a> From<OutputFault<'a>> for Refusal<'a> {
    ghost from_gives = { λ fault e. e ≡ refusals.Output fault };

    fn from(fault: OutputFault<'a>) -> Refusal<'a> {
        Refusal::Output(fault)
    }
}

impl<'a> From<ListingFault<'a>> for Refusal<'a> {
    ghost from_gives = { λ fault e. e ≡ refusals.Listing fault };

    fn from(fault: ListingFault<'a>) -> Refusal<'a> {
        Refusal::Listing(fault)
    }
}

impl<'a> From<RequestRefusal> for Refusal<'a> {
    ghost from_gives = { λ fault e. e ≡ refusals.Requested (faults.Refused fault) };

    fn from(fault: RequestRefusal) -> Refusal<'a> {
        Refusal::Requested(RequestFault::Refused(fault))
    }
}

impl<'a> From<PrintFault> for Refusal<'a> {
    ghost from_gives = { λ fault e. e ≡ refusals.Requested (faults.Unprinted fault) };

    fn from(fault: PrintFault) -> Refusal<'a> {
        Refusal::Requested(RequestFault::Unprinted(fault))
    }
}

impl<'a> From<RequestFault> for Refusal<'a> {
    ghost from_gives = { λ fault e. e ≡ refusals.Requested fault };

    fn from(fault: RequestFault) -> Refusal<'a> {
        Refusal::Requested(fault)
    }
}

impl<'a> From<KeepFault> for Refusal<'a> {
    ghost from_gives = { λ fault e. e ≡ refusals.Keep fault };

    fn from(fault: KeepFault) -> Refusal<'a> {
        Refusal::Keep(fault)
    }
}

impl<'a> From<ForgetFault> for Refusal<'a> {
    ghost from_gives = { λ fault e. e ≡ refusals.Forget fault };

    fn from(fault: ForgetFault) -> Refusal<'a> {
        Refusal::Forget(fault)
    }
}

impl<'a> From<FileFault> for Refusal<'a> {
    ghost from_gives = { λ fault e. e ≡ refusals.Files fault };

    fn from(fault: FileFault) -> Refusal<'a> {
        Refusal::Files(fault)
    }
}

impl<'a> fmt::Display for Refusal<'a> {
    ghost output = { λ refusal. Some (message_of refusal) };

    fn fmt<W: fmt::Write>(&self, f: &mut fmt::Formatter<W>) -> fmt::Result {
        match self {
            Refusal::OutOfMemory => RefusalKind::MemoryForRequest.plain().message.fmt(f),
            Refusal::BadArguments => RefusalKind::BadArguments.plain().message.fmt(f),
            Refusal::WriteFailed => RefusalKind::WriteFailed.plain().message.fmt(f),
            Refusal::Numbered(numbered) => numbered.message.fmt(f),
            Refusal::Function(fault) => fault.fmt(f),
            Refusal::Output(fault) => fault.fmt(f),
            Refusal::Listing(fault) => fault.fmt(f),
            Refusal::Described(fault) => fault.fmt(f),
            Refusal::Requested(fault) => fault.fmt(f),
            Refusal::Restore(fault) => fault.fmt(f),
            Refusal::Keep(fault) => fault.fmt(f),
            Refusal::Forget(fault) => fault.fmt(f),
            Refusal::Files(fault) => fault.fmt(f),
        }
    }
}

impl<'a> Error for Refusal<'a> {}

/// The line that says why a command is refused.
pub fn error_line(alloc: Global, refusal: &Refusal<'_>) -> Result<String, AllocError>
    ensures { IfOk result (λ line. string_bytes line ≡ error_line refusal.now) }
{
    let mut line = String::from_str(alloc, "ERROR: ")?;
    line.push_str(refusal.to_string(alloc)?.as_str())?;
    line.push('\n')?;
    Ok(line)
}
