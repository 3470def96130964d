//! What the files below directories say of their modules: names, version symbols and families.

use crate::fault::PortFault;
use crate::tree::TreeEntry;
use port_constants::KnownFile;
use port_rewriting::{
    FileKind, Given, Member, NamedFamily, Site, folder_of, symbols_said, translate,
};
use std::alloc::Global;

/// Whether the name is that of a default file.
pub(crate) fn is_default_file(name: &str) -> bool {
    matches!(last_part(name), ".modulerc" | ".version")
}

/// The name without those of directories.
pub(crate) fn last_part(name: &str) -> &str {
    name.rsplit_once('/').map_or(name, |parts| parts.1)
}

/// Adds a module, and the families that its file names.
fn add_module(alloc: Global, site: &mut Site, text: &str, name: &str) -> Result<(), PortFault> {
    let given = Given {
        file: Some(KnownFile { path: "", name }),
        ..Given::of_kind(FileKind::Modulefile)
    };
    for named in translate(alloc, given, text)?.families {
        let NamedFamily {
            name: family,
            is_sure,
        } = named;
        match family {
            Some(family) => site.members.push(Member {
                family,
                own: String::from_str(alloc, name)?,
                is_sure,
            })?,
            None => site.has_unknown_families = true,
        }
    }
    site.modules.push(String::from_str(alloc, name)?)?;
    Ok(())
}

/// Adds what a file of this name says.
fn add_file(alloc: Global, site: &mut Site, text: &str, name: &str) -> Result<(), PortFault> {
    if is_default_file(name) {
        let mut symbols = symbols_said(alloc, text, folder_of(name))?;
        site.symbols.append(&mut symbols)?;
        Ok(())
    } else if last_part(name).starts_with('.') {
        Ok(())
    } else {
        add_module(alloc, site, text, name)
    }
}

/// Adds what the files of a tree say. What is no script says nothing, as the translation tells that.
///
/// The error: want of memory.
pub(crate) fn add_tree(
    alloc: Global,
    site: &mut Site,
    entries: &[TreeEntry],
) -> Result<(), PortFault> {
    for entry in entries {
        let found = entry.found.as_ref().ok();
        let Some(file) = found.and_then(|found| found.file.as_ref()) else {
            continue;
        };
        match add_file(alloc, site, file.text.as_str(), entry.below.as_str()) {
            Err(PortFault::OutOfMemory) => return Err(PortFault::OutOfMemory),
            _ => {}
        }
    }
    Ok(())
}
