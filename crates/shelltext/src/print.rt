//! The printer: changes of variables as a text for a shell.
ghost use Rattle.std.specs.Prelude.{◌≡◌, [], ◌++◌, map, Some, IfOk, IfErr, OnOk, string_bytes};
ghost use Rattle.envvars.specs.Changes.{new_value_of};
ghost use Rattle.message.specs.Refusals.{numbered_text};
ghost use Rattle.shelltext.specs.Reading.{TextSays};
ghost use Rattle.shelltext.specs.Printing as printing;
ghost use Rattle.shelltext.specs.Printing.{printed_line, IsPrintFault, refusal_of};
ghost use Rattle.shelltext.specs.declared.print.PrintFault.TheVariants.{OutOfMemory};

use crate::family::Family;
use crate::shell::Shell;
use crate::spelling::{is_value_sayable, push_set, push_unset};
use envvars::{Change, is_variable_name};
use message::{NumberedMessage, RefusalKind};
use std::alloc::{AllocError, Global};
use std::error::Error;
use std::fmt;
use std::fmt::Display;

/// Why changes have no text.
#[derive(Debug, Drop)]
pub enum PrintFault {
    /// An allocation was refused.
    OutOfMemory,
    /// No text of the shell gives this variable its value, or the name isn't that of a variable.
    NotSayable(String),
}

impl PrintFault {
    /// The number of the error as a refusal, 61 or 62, and its text.
    pub fn numbered(&self) -> NumberedMessage<'_>
        ensures { numbered_text result ≡ refusal_of self.now }
    {
        match self {
            PrintFault::OutOfMemory => RefusalKind::MemoryForPrinting.plain(),
            PrintFault::NotSayable(name) => RefusalKind::NotSayable.naming(name.as_str()),
        }
    }

    /// The number of the error as a refusal: 61 or 62.
    pub fn number(&self) -> u16
        ensures { result ≡ (refusal_of self.now).number }
    {
        self.numbered().number
    }
}

impl fmt::Display for PrintFault {
    ghost output = { λ fault. Some (refusal_of fault).text };

    fn fmt<W: fmt::Write>(&self, f: &mut fmt::Formatter<W>) -> fmt::Result {
        self.numbered().message.fmt(f)
    }
}

impl Error for PrintFault {}

impl From<AllocError> for PrintFault {
    ghost from_gives = { λ _ e. e ≡ OutOfMemory };

    fn from(_e: AllocError) -> PrintFault {
        PrintFault::OutOfMemory
    }
}

/// Whether a line of the shells of this family says the change.
fn is_sayable(family: Family, change: &Change) -> bool
    ensures { result ≡ printing.is_sayable family (new_value_of change.now) }
{
    if !is_variable_name(change.name.as_str()) {
        return false;
    }
    match &change.value {
        None => true,
        Some(value) => is_value_sayable(family, value.as_str()),
    }
}

/// Appends the line of a change.
fn push_line(out: &mut String, family: Family, change: &Change) -> Result<(), AllocError>
    ensures { OnOk result (string_bytes out.new ≡ string_bytes out.old
        ++ printed_line family (new_value_of change.now)) }
{
    match &change.value {
        None => push_unset(out, family, change.name.as_str()),
        Some(value) => push_set(out, family, change.name.as_str(), value.as_str()),
    }
}

/// What a line has besides the name, which may be there twice, and the value: so many bytes at most.
const AROUND: usize = 24;

/// The length of a change's line, about: characters that need a backslash take more.
fn usual_length(change: &Change) -> usize {
    let value = match &change.value {
        None => 0,
        Some(value) => value.len(),
    };
    value
        .wrapping_add(change.name.len())
        .wrapping_add(change.name.len())
        .wrapping_add(AROUND)
}

/// An empty text with room for the lines of the changes. Were the sum wrong, the text would still grow.
fn room_for(alloc: Global, changes: &[Change]) -> Result<String, AllocError>
    ensures { IfOk result (λ text. string_bytes text ≡ []) }
{
    let length = changes.iter().fold(0usize, |sum, change| sum.wrapping_add(usual_length(change)));
    String::with_capacity(alloc, length)
}

/// The text of the changes, a line for each, which the shell reads as exactly these changes, in this order.
///
/// The errors: `OutOfMemory`, and `NotSayable` exactly where no text of the shell says all the changes: a value holds
/// NUL or, for csh and tcsh, a newline, or a name isn't a letter or `_` followed by letters, digits and `_`. It names
/// the first variable of this kind.
pub fn print_changes(alloc: Global, shell: Shell, changes: &[Change]) -> Result<String, PrintFault>
    ensures text { IfOk result (λ text. TextSays shell (string_bytes text) (map new_value_of changes.now)) }
    ensures fault { IfErr result (IsPrintFault shell (map new_value_of changes.now)) }
{
    let family = shell.family();
    let mut out = room_for(alloc, changes)?;
    for change in changes {
        if !is_sayable(family, change) {
            return Err(PrintFault::NotSayable(change.name.clone()?));
        }
        push_line(&mut out, family, change)?;
    }
    Ok(out)
}
