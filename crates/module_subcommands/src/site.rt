//! What the process is given beside its words and its environment, and what follows from it.
ghost use Rattle.std.specs.Prelude.{◌≡◌, IfOk, string_bytes};
ghost use Rattle.std.specs.Option.{option_map};
ghost use Rattle.envvars.specs.Texts.{slice_texts};
ghost use Rattle.module_subcommands.specs.Sites as spec;

use envvars::fields::parts;
use module_words::protocol::Streams;
use std::alloc::{AllocError, Global};

/// What the process is given beside its words and its environment.
#[derive(Debug, Drop)]
pub struct Site {
    /// The path by which it was called, where that is a text.
    pub called_as: Option<String>,
    /// Which of the user's streams are terminals.
    pub streams: Streams,
    /// The working directory by the system's name, where it has one.
    pub directory: Option<String>,
    /// Whether the path in the variable PWD leads there.
    pub is_at_pwd: bool,
    /// Whether MODULEPATH is a text, or isn't set.
    pub has_text_modulepath: bool,
    /// The number of the process.
    pub number: u32,
}

/// The path of something that the site has, by the path that the program was called by, which ends with
/// `/libexec/module` there.
///
/// It fails for want of memory alone.
pub fn site_path(
    alloc: Global,
    called_as: Option<&str>,
    place: &str,
) -> Result<Option<String>, AllocError>
    ensures { IfOk result (λ found. option_map string_bytes found
        ≡ spec.site_path (option_map (λ path. path.now) called_as.entry) place.now) }
{
    let Some(path) = called_as else {
        return Ok(None);
    };
    let Some(prefix) = path.strip_suffix("/libexec/module") else {
        return Ok(None);
    };
    let mut found = String::from_str(alloc, prefix)?;
    found.push('/')?;
    found.push_str(place)?;
    Ok(Some(found))
}

/// Whether a part of a path is a point, or two of them.
fn is_point(part: &str) -> bool
    ensures { result ≡ spec.is_point part.now }
{
    part == "." || part == ".."
}

/// Whether a part of these is a point, or two of them.
fn have_point(parts: &[&str]) -> bool
    ensures { result ≡ spec.have_point (slice_texts parts.now) }
{
    parts.iter().any(|part| is_point(part))
}

/// Whether a path is absolute, and no part of it is a point, or two of them.
fn is_plain_path(alloc: Global, path: &str) -> Result<bool, AllocError>
    ensures { IfOk result (λ is. is ≡ spec.is_plain_path path.now) }
{
    let parts = parts(alloc, path, '/')?;
    Ok(path.starts_with('/') && !have_point(parts.as_slice()))
}

/// The working directory: by the name that the shell has for it, where that is an absolute path without points that leads
/// there; else by the system's, where it has one.
///
/// It fails for want of memory alone.
pub fn working_directory<'a>(
    alloc: Global,
    named: Option<&'a str>,
    site: &'a Site,
) -> Result<Option<&'a str>, AllocError>
    ensures { IfOk result (λ found. option_map (λ path. path.now) found ≡ spec.working_directory
        (option_map (λ path. path.now) named.entry) site.entry.now.is_at_pwd
        (option_map string_bytes site.entry.now.directory)) }
{
    let Some(system) = site.directory.as_deref() else {
        return Ok(None);
    };
    let Some(path) = named else {
        return Ok(Some(system));
    };
    if site.is_at_pwd && is_plain_path(alloc, path)? {
        return Ok(Some(path));
    }
    Ok(Some(system))
}
