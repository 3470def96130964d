//! What is said of a path in place of a module's name. No file is opened, and no directory listed.
ghost use Rattle.std.specs.Prelude.{◌≡◌, find, IfOk, string_bytes};
ghost use Rattle.std.specs.Option.{option_map};
ghost use Rattle.envstate.specs.Roles.{after_prefix};
ghost use Rattle.envvars.specs.Texts.{slice_texts};
ghost use Rattle.module_explain.specs.Paths as spec;

use modulename::is_module_name;
use std::alloc::{AllocError, Global};

/// What follows a text in front.
fn behind<'a>(front: &str, text: &'a str) -> Option<&'a str>
    ensures { option_map (λ t. t.now) result ≡ after_prefix front.now text.entry.now }
{
    text.strip_prefix(front)
}

/// What follows a directory and a slash in a path, where this is spelled as the name of a module.
fn name_below<'a>(path: &'a str, directory: &str) -> Option<&'a str>
    ensures { option_map (λ t. t.now) result ≡ spec.name_below path.entry.now directory.now }
{
    let rest = behind(directory, path)?;
    let name = behind("/", rest)?;
    if is_module_name(name) {
        Some(name)
    } else {
        None
    }
}

/// The first of the directories below which the path is that of a name.
fn directory_above<'a>(directories: &[&'a str], path: &str) -> Option<&'a str>
    ensures { option_map (λ t. t.now) result ≡ find (spec.is_below path.now) (slice_texts directories.entry.now) }
{
    let [directory, others @ ..] = directories else {
        return None;
    };
    match name_below(path, directory) {
        Some(_) => Some(*directory),
        None => directory_above(others, path),
    }
}

/// What is said where no directory that is searched is above a path.
const ELSEWHERE: &str =
    "A module is named, not its file: \"module use DIRECTORY\", then \"module load NAME\".";

/// What is said of the path of a name below a directory.
fn named_line(alloc: Global, name: &str, directory: &str) -> Result<String, AllocError>
    ensures { IfOk result (λ line. string_bytes line ≡ spec.named_line name.now directory.now) }
{
    let mut line = String::from_str(alloc, "A module is named, not its file: \"module load ")?;
    line.push_str(name)?;
    line.push_str("\", which is below ")?;
    line.push_str(directory)?;
    line.push_str(".")?;
    Ok(line)
}

/// What is said of a path: the name that it has below one of the directories, or that its directory isn't searched.
pub(crate) fn line_of_path(
    alloc: Global,
    directories: &[&str],
    path: &str,
) -> Result<String, AllocError>
    ensures { IfOk result (λ line. string_bytes line ≡ spec.path_line (slice_texts directories.now) path.now) }
{
    let Some(directory) = directory_above(directories, path) else {
        return String::from_str(alloc, ELSEWHERE);
    };
    match name_below(path, directory) {
        Some(name) => named_line(alloc, name, directory),
        None => String::from_str(alloc, ELSEWHERE),
    }
}
