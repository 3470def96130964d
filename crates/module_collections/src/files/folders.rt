//! The folders of collections, by the environment.
ghost use Rattle.std.specs.Prelude.{◌≡◌, IfErr, IfOk, None, string_bytes};
ghost use Rattle.std.specs.Option.{option_map};
ghost use Rattle.message.specs.Answers.{Gives};
ghost use Rattle.module_collections.specs.files.Entries as entry;
ghost use Rattle.module_collections.specs.files.Places as places;
ghost use Rattle.module_collections.specs.files.Failures.{failure_of};
ghost use Rattle.module_collections.specs.files.Faults.{reason_of};
ghost use Rattle.module_collections.specs.files.PathKind.{folders_view};

use crate::files::fault::FileFault;
use crate::files::paths::{in_folder, is_absolute};
use envvars::Env;
use std::alloc::{AllocError, Global};

/// The folders of collections.
#[derive(Drop)]
pub struct Folders {
    /// That of this program, below the user's settings.
    pub own: String,
    /// That of Environment Modules, where there is a home.
    pub others: Option<String>,
}

/// A text, if it isn't empty.
fn filled(text: Option<&str>) -> Option<&str>
    ensures { option_map (λ t. t.now) result ≡ places.filled (option_map (λ t. t.now) text.entry) }
{
    match text {
        None => None,
        Some(text) => { if text.is_empty() { None } else { Some(text) } }
    }
}

/// A text, if it is an absolute path.
fn absolute(text: Option<&str>) -> Option<&str>
    ensures { option_map (λ t. t.now) result ≡ places.absolute (option_map (λ t. t.now) text.entry) }
{
    match text {
        None => None,
        Some(text) => { if is_absolute(text) { Some(text) } else { None } }
    }
}

/// The folder of Environment Modules in a home.
fn others_in(alloc: Global, home: Option<&str>) -> Result<Option<String>, AllocError>
    ensures { IfOk result (λ others. option_map string_bytes others
        ≡ option_map (λ path. entry.in_folder path places.others_name) (option_map (λ h. h.now) home.entry)) }
{
    match home {
        None => Ok(None),
        Some(home) => Ok(Some(in_folder(alloc, home, ".module")?)),
    }
}

/// The folders by the folder of settings, if one is named, and the home.
fn folders_by(
    alloc: Global,
    settings: Option<&str>,
    home: Option<&str>,
) -> Result<Folders, FileFault>
    ensures answer { Gives reason_of folders_view result (places.folders_by (option_map (λ s. s.now) settings.entry)
        (option_map (λ h. h.now) home.entry)) }
    ensures failure { IfErr result (λ fault. failure_of fault ≡ None) }
{
    let own = match (settings, home) {
        (Some(settings), _) => in_folder(alloc, settings, "modulecmd")?,
        (None, Some(home)) => in_folder(alloc, home, ".config/modulecmd")?,
        (None, None) => return Err(FileFault::NoHome),
    };
    let others = others_in(alloc, home)?;
    Ok(Folders { own, others })
}

impl Folders {
    /// The folders of collections: this program's, `modulecmd` below `XDG_CONFIG_HOME`, where that is an absolute path,
    /// else below `.config` in `HOME`; and that of Environment Modules, `.module` in `HOME`.
    ///
    /// The errors: `NoHome`, where neither variable says where the first one lies; `OutOfMemory`.
    pub fn of_environment(alloc: Global, env: &Env) -> Result<Folders, FileFault>
        ensures answer { Gives reason_of folders_view result (places.folders_of env.now) }
        ensures failure { IfErr result (λ fault. failure_of fault ≡ None) }
    {
        let settings = absolute(env.get("XDG_CONFIG_HOME"));
        let home = filled(env.get("HOME"));
        folders_by(alloc, settings, home)
    }
}
