//! What can stand at a place of a command.
ghost use Rattle.std.specs.Prelude.{◌≡◌, map, string_bytes, IfOk};
ghost use Rattle.module_reports.specs.completions.Places as spec;

use crate::completions::kind::NameKind;
use module_words::subcommands::{Subcommand, subcommand_of};
use std::alloc::{AllocError, Global};

/// The function that is called.
#[derive(Clone, Copy, Debug, PartialEq, Eq)]
pub enum Caller {
    /// `module SUBCOMMAND [WORD...]`.
    Module,
    /// `ml [-NAME...] [NAME...]`, or `ml SUBCOMMAND [WORD...]`.
    Ml,
}

/// The function of this name, where one has it.
pub fn caller_named(name: &str) -> Option<Caller>
    ensures { result ≡ spec.caller_named name.now }
{
    match name {
        "module" => Some(Caller::Module),
        "ml" => Some(Caller::Ml),
        _ => None,
    }
}

/// What can stand first.
fn kinds_first(caller: Caller, word: &str) -> &'static [NameKind]
    ensures { result.now ≡ spec.kinds_first caller word.now }
{
    match caller {
        Caller::Module => &[NameKind::Subcommands],
        Caller::Ml => {
            if word.starts_with('-') {
                &[NameKind::LoadedToUnload]
            } else {
                &[NameKind::Subcommands, NameKind::Available]
            }
        }
    }
}

/// What can stand behind a word that is no subcommand: for `ml` it is a name.
fn kinds_of_names(caller: Caller, word: &str) -> &'static [NameKind]
    ensures { result.now ≡ spec.kinds_of_names caller word.now }
{
    match caller {
        Caller::Module => &[],
        Caller::Ml => {
            if word.starts_with('-') {
                &[NameKind::LoadedToUnload]
            } else {
                &[NameKind::Available]
            }
        }
    }
}

/// What can stand behind a subcommand, no option: in the first place behind it, or in a later one.
fn kinds_behind(subcommand: Subcommand, is_first: bool) -> &'static [NameKind]
    ensures { result.now ≡ spec.kinds_behind subcommand is_first }
{
    match subcommand {
        Subcommand::Load
        | Subcommand::Show
        | Subcommand::Whatis
        | Subcommand::Avail
        | Subcommand::Help
        | Subcommand::IsAvail => &[NameKind::Available],
        Subcommand::Unload | Subcommand::Forget | Subcommand::IsLoaded | Subcommand::List => {
            &[NameKind::Loaded]
        }
        Subcommand::Switch if is_first => &[NameKind::Loaded, NameKind::Available],
        Subcommand::Switch => &[NameKind::Available],
        Subcommand::Unuse => &[NameKind::Directories],
        Subcommand::Save | Subcommand::Restore | Subcommand::SaveShow | Subcommand::SaveRemove
            if is_first => { &[NameKind::Collections] }
        _ => &[],
    }
}

/// The kinds, copied.
fn copied(alloc: Global, kinds: &[NameKind]) -> Result<Vec<NameKind>, AllocError>
    ensures { IfOk result (λ v. v.items ≡ kinds.now) }
{
    let mut copied = Vec::with_capacity(alloc, kinds.len())?;
    copied.extend_from_slice(kinds)?;
    Ok(copied)
}

/// What can stand where a word is typed, behind these words of a command.
///
/// It fails for want of memory.
pub fn kinds_at(
    alloc: Global,
    caller: Caller,
    before: &[String],
    word: &str,
) -> Result<Vec<NameKind>, AllocError>
    ensures { IfOk result (λ v. v.items ≡ spec.kinds_at caller (map string_bytes before.now) word.now) }
{
    let [command, others @ ..] = before else {
        return copied(alloc, kinds_first(caller, word));
    };
    match subcommand_of(command.as_str()) {
        Ok(subcommand) => {
            if word.starts_with('-') {
                copied(alloc, &[NameKind::Options(subcommand)])
            } else {
                copied(alloc, kinds_behind(subcommand, others.is_empty()))
            }
        }
        Err(_) => copied(alloc, kinds_of_names(caller, word)),
    }
}
