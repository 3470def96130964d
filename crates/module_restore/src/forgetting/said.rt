//! What is said of modules that are forgotten.
ghost use Rattle.std.specs.Prelude.{◌≡◌, ◌++◌, map, string_bytes, IfOk, OnOk};
ghost use Rattle.std.specs.List.{flat_map};
ghost use Rattle.module_restore.specs.forgetting.Said as spec;

use std::alloc::{AllocError, Global};

/// Adds names, each behind a blank.
fn push_names(line: &mut String, names: &[String]) -> Result<(), AllocError>
    ensures { OnOk result (string_bytes line.new ≡ string_bytes line.old
        ++ flat_map spec.behind_blank (map string_bytes names.now)) }
{
    for name in names {
        line.push(' ')?;
        line.push_str(name.as_str())?;
    }
    Ok(())
}

/// The line that names modules that were forgotten, and says that what their modulefiles set may stay.
///
/// It fails for want of memory alone.
pub fn forgotten_line(alloc: Global, names: &[String]) -> Result<String, AllocError>
    ensures { IfOk result (λ line. string_bytes line ≡ spec.forgotten_line (map string_bytes names.now)) }
{
    let mut line = String::from_str(alloc, "Forgotten:")?;
    push_names(&mut line, names)?;
    line.push_str(". What modulefiles set may stay; a new login is clean.\n")?;
    Ok(line)
}

/// The line that says how modules whose files are gone are forgotten.
///
/// It fails for want of memory alone.
pub fn way_out_line(alloc: Global, names: &[String]) -> Result<String, AllocError>
    ensures { IfOk result (λ line. string_bytes line ≡ spec.way_out_line (map string_bytes names.now)) }
{
    let mut line = String::from_str(alloc, "Try: module forget")?;
    push_names(&mut line, names)?;
    line.push('\n')?;
    Ok(line)
}
