//! Why the words of a command of a modulefile call none.
ghost use Rattle.std.specs.Prelude.{◌≡◌, ◌++◌, codes};
ghost use Rattle.modulefile.specs.Calls.{unsupported};
ghost use Rattle.modulefile.specs.CallViews.{HasReason};
ghost use Rattle.modulefile.specs.declared.call_fault.CallFault.TheVariants.{OutOfMemory};

use std::alloc::{AllocError, Global};

/// Why the words of a command call none, whatever environment it finds.
#[derive(Debug, Drop)]
pub enum CallFault {
    /// Memory ran out.
    OutOfMemory,
    /// No such command is known.
    Unknown,
    /// The command of this name, or this part of it, is unsupported on purpose.
    LeftOut(String),
    /// The words don't fit the command.
    BadArguments,
}

impl CallFault {
    /// The fault that the command of this name is unsupported.
    pub(crate) fn unsupported(alloc: Global, name: &str) -> CallFault
        ensures { HasReason (unsupported name.now) result }
    {
        match String::from_str(alloc, name) {
            Ok(name) => CallFault::LeftOut(name),
            Err(_) => CallFault::OutOfMemory,
        }
    }

    /// The fault that `module-info` is unsupported with this first word.
    pub(crate) fn unsupported_info(alloc: Global, field: &str) -> CallFault
        ensures { HasReason (unsupported (codes "module-info " ++ field.now)) result }
    {
        match format!(in alloc; "module-info {field}") {
            Ok(name) => CallFault::LeftOut(name),
            Err(_) => CallFault::OutOfMemory,
        }
    }
}

impl From<AllocError> for CallFault {
    ghost from_gives = { λ _ e. e ≡ OutOfMemory };

    fn from(_refused: AllocError) -> CallFault {
        CallFault::OutOfMemory
    }
}
