//! The names of a kind.
ghost use Rattle.std.specs.Prelude.{◌≡◌, map, string_bytes, IfOk};
ghost use Rattle.std.specs.Option.{option_map};
ghost use Rattle.envvars.specs.Texts.{slice_texts, texts_in};
ghost use Rattle.module_words.specs.subcommands.Views.{option_view, row_view};
ghost use Rattle.shelltext.specs.Shells.{shell_name};
ghost use Rattle.module_reports.specs.completions.Names as spec;

use crate::completions::kind::NameKind;
use crate::completions::line::filled;
use envvars::fields::{elements, owned};
use envvars::{Env, Vars};
use message::texts::copies;
use module_words::subcommands::{OptionName, SubcommandName, options_of, subcommand_names};
use shelltext::Shell;
use std::alloc::{AllocError, Global};

/// The variable with the names of the loaded modules.
const LOADEDMODULES: &str = "LOADEDMODULES";

/// The variable with the directories that are searched.
const MODULEPATH: &str = "MODULEPATH";

/// The options of `modaudit`.
#[tactic(auto, unfolding(crate::specs::completions::Names::audit_options))]
fn audit_options() -> &'static [&'static str]
    ensures { slice_texts result.now ≡ spec.audit_options }
{
    &["--help", "--json", "--quiet", "--without"]
}

/// The options of `modport`.
#[tactic(auto, unfolding(crate::specs::completions::Names::port_options))]
fn port_options() -> &'static [&'static str]
    ensures { slice_texts result.now ≡ spec.port_options }
{
    &[
        "--alias-scripts",
        "--check",
        "--defaults",
        "--drop-unread",
        "--flatten",
        "--help",
        "--host",
        "--json",
        "--kept",
        "--one-version",
        "--stdin",
        "--strict",
    ]
}

/// The names that aren't options.
fn plain_names(alloc: Global, rows: &[SubcommandName]) -> Result<Vec<String>, AllocError>
    ensures { IfOk result (λ v. texts_in v ≡ spec.plain (map (λ row. row.0) (map row_view rows.now))) }
{
    let mut names = Vec::new(alloc);
    for row in rows {
        if !row.name.starts_with('-') {
            names.push(String::from_str(alloc, row.name)?)?;
        }
    }
    Ok(names)
}

/// The names of options.
fn option_names(alloc: Global, rows: &[OptionName]) -> Result<Vec<String>, AllocError>
    ensures { IfOk result (λ v. texts_in v ≡ map (λ row. row.0) (map option_view rows.now)) }
{
    let mut names = Vec::new(alloc);
    for row in rows {
        names.push(String::from_str(alloc, row.name)?)?;
    }
    Ok(names)
}

/// The names of these shells.
fn shell_names(alloc: Global, shells: &[Shell]) -> Result<Vec<String>, AllocError>
    ensures { IfOk result (λ v. texts_in v ≡ map shell_name shells.now) }
{
    let mut names = Vec::new(alloc);
    for shell in shells {
        names.push(String::from_str(alloc, shell.name())?)?;
    }
    Ok(names)
}

/// The texts, each behind another.
fn all_behind(alloc: Global, front: &str, texts: &[&str]) -> Result<Vec<String>, AllocError>
    ensures { IfOk result (λ v. texts_in v ≡ map (spec.behind front.now) (slice_texts texts.now)) }
{
    let mut names = Vec::new(alloc);
    for text in texts {
        let mut name = String::from_str(alloc, front)?;
        name.push_str(text)?;
        names.push(name)?;
    }
    Ok(names)
}

/// The elements of a list in a variable, each behind a text.
fn listed(alloc: Global, env: &Env, name: &str, front: &str) -> Result<Vec<String>, AllocError>
    ensures { IfOk result (λ v. texts_in v ≡ map (spec.behind front.now) (spec.listed env.now name.now)) }
{
    let elements = elements(alloc, env.get(name))?;
    let filled = filled(alloc, &elements)?;
    all_behind(alloc, front, &filled)
}

/// The names of a kind, of which those of modules that can be loaded are given. Collections lie on the disk, where this
/// crate doesn't look: it has none.
pub(crate) fn names_of(
    alloc: Global,
    env: &Env,
    available: &[String],
    kind: NameKind,
) -> Result<Vec<String>, AllocError>
    ensures { IfOk result (λ v. texts_in v ≡ spec.names_of env.now (map string_bytes available.now) kind) }
{
    match kind {
        NameKind::Subcommands => plain_names(alloc, subcommand_names()),
        NameKind::Options(subcommand) => option_names(alloc, options_of(subcommand)),
        NameKind::Shells => shell_names(alloc, Shell::all()),
        NameKind::AuditOptions => owned(alloc, audit_options()),
        NameKind::PortOptions => owned(alloc, port_options()),
        NameKind::Loaded => listed(alloc, env, LOADEDMODULES, ""),
        NameKind::LoadedToUnload => listed(alloc, env, LOADEDMODULES, "-"),
        NameKind::Directories => listed(alloc, env, MODULEPATH, ""),
        NameKind::Available => copies(alloc, available),
        NameKind::Collections => Ok(Vec::new(alloc)),
    }
}
