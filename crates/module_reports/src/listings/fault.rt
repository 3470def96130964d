//! Why there is no report, and no answer, with the texts.
ghost use Rattle.std.specs.Prelude.{◌≡◌, Some};
ghost use Rattle.message.specs.Messages.{quoting, text_of};
ghost use Rattle.module_reports.specs.listings.Faults as spec;
ghost use Rattle.module_reports.specs.listings.Faults.{message_of, of_env, of_tree};
ghost use Rattle.module_reports.specs.declared.listings.fault.ListingFault.TheVariants.{OutOfMemory};

use envvars::EnvFault;
use filetree::TreeFault;
use message::{Message, RefusalKind};
use module_words::subcommands::Subcommand;
use std::alloc::{AllocError, AllocFailed};
use std::error::Error;
use std::fmt;
use std::fmt::Display;

/// Why there is no report, or no answer. Its `Display` is what follows `ERROR: ` on standard error.
#[derive(Debug, Drop)]
pub enum ListingFault<'a> {
    /// 31: memory ran out.
    OutOfMemory,
    /// 35: the variables of the loaded modules contradict one another.
    Inconsistent,
    /// 43: the device failed.
    Device,
    /// 56: no module is named.
    BadArguments,
    /// The report of this subcommand, `avail` or `list`, has no such option.
    NoOption(Subcommand, &'a str),
}

/// The text for an option that the report of the subcommand doesn't have.
fn no_option<'a>(subcommand: Subcommand, word: &'a str) -> Message<'a>
    ensures { text_of result ≡ quoting (spec.before_option subcommand) word.entry.now }
{
    match subcommand {
        Subcommand::List => Message::quoting("'list' has no option '", word),
        _ => Message::quoting("'avail' has no option '", word),
    }
}

impl<'a> ListingFault<'a> {
    /// The text of the fault.
    pub fn message<'b>(&'b self) -> Message<'b>
        ensures { text_of result ≡ message_of self.now }
    {
        match self {
            ListingFault::OutOfMemory => RefusalKind::MemoryForRequest.plain().message,
            ListingFault::Inconsistent => RefusalKind::Inconsistent.plain().message,
            ListingFault::Device => RefusalKind::Device.plain().message,
            ListingFault::BadArguments => RefusalKind::BadArguments.plain().message,
            ListingFault::NoOption(subcommand, word) => {
                let word: &'b str = word;
                no_option(*subcommand, word)
            }
        }
    }
}

impl<'a> fmt::Display for ListingFault<'a> {
    ghost output = { λ fault. Some (message_of fault) };

    fn fmt<W: fmt::Write>(&self, f: &mut fmt::Formatter<W>) -> fmt::Result {
        self.message().fmt(f)
    }
}

impl<'a> Error for ListingFault<'a> {}

impl<'a> From<EnvFault> for ListingFault<'a> {
    ghost from_gives = { λ fault e. e ≡ of_env fault };

    fn from(fault: EnvFault) -> ListingFault<'a> {
        match fault {
            EnvFault::Inconsistent => ListingFault::Inconsistent,
            _ => ListingFault::OutOfMemory,
        }
    }
}

impl<'a> From<TreeFault> for ListingFault<'a> {
    ghost from_gives = { λ fault e. e ≡ of_tree fault };

    fn from(fault: TreeFault) -> ListingFault<'a> {
        match fault {
            TreeFault::OutOfMemory => ListingFault::OutOfMemory,
            TreeFault::Device => ListingFault::Device,
        }
    }
}

impl<'a> From<AllocError> for ListingFault<'a> {
    ghost from_gives = { λ _ e. e ≡ OutOfMemory };

    fn from(_e: AllocError) -> ListingFault<'a> {
        ListingFault::OutOfMemory
    }
}

impl<'a, T: Drop> From<AllocFailed<T>> for ListingFault<'a> {
    ghost from_gives = { λ _ e. e ≡ OutOfMemory };

    fn from(_e: AllocFailed<T>) -> ListingFault<'a> {
        ListingFault::OutOfMemory
    }
}
