//! The line by which a shell starts the program that a site has behind commands.
ghost use Rattle.std.specs.Prelude.{◌≡◌, ◌++◌, map, string_bytes, IfOk, OnOk};
ghost use Rattle.std.specs.List.{flat_map};
ghost use Rattle.envvars.specs.Changes.{new_value_of};
ghost use Rattle.module_words.specs.protocol.After as spec;

use crate::subcommands::Subcommand;
use envvars::Change;
use shelltext::{Family, Shell, is_value_sayable, push_quoted};
use std::alloc::{AllocError, Global};

/// The variable with the names of the loaded modules.
const LOADEDMODULES: &str = "LOADEDMODULES";

/// Whether one of the changes is of the list of loaded modules.
pub fn changes_list(changes: &[Change]) -> bool
    ensures { result ≡ spec.changes_list (map new_value_of changes.now) }
{
    changes
        .iter()
        .any(|change| change.name.as_str() == LOADEDMODULES)
}

/// Adds words in single quotes, each behind a blank.
fn push_words(line: &mut String, family: Family, words: &[String]) -> Result<(), AllocError>
    ensures { OnOk result (string_bytes line.new ≡ string_bytes line.old
        ++ flat_map (spec.behind_blank family) (map string_bytes words.now)) }
{
    for word in words {
        line.push(' ')?;
        push_quoted(line, family, word.as_str())?;
    }
    Ok(())
}

/// Whether these shells have a text for each of the words.
fn are_sayable(family: Family, words: &[String]) -> bool
    ensures { result ≡ spec.are_sayable family (map string_bytes words.now) }
{
    words
        .iter()
        .all(|word| is_value_sayable(family, word.as_str()))
}

/// What stands in front of a command that goes on in the background.
fn front(family: Family) -> &'static str
    ensures { result.now ≡ spec.front family }
{
    match family {
        Family::Sh | Family::Csh => "(",
        Family::Fish => "",
    }
}

/// What stands behind a command that goes on in the background, reads nothing and writes to nobody.
fn back(family: Family) -> &'static str
    ensures { result.now ≡ spec.back family }
{
    match family {
        Family::Sh => " < /dev/null > /dev/null 2>&1 &)\n",
        Family::Csh => " < /dev/null >& /dev/null & );\n",
        Family::Fish => { " </dev/null >/dev/null 2>&1 & builtin disown $last_pid 2>/dev/null;\n" }
    }
}

/// The line by which the shell starts a site's program with these words, in the background: its path, the shell's name,
/// the subcommand's name and the words, each in the shell's quotes. There is none where the shell has no text for a word.
///
/// It fails for want of memory alone.
pub fn after_line(
    alloc: Global,
    shell: Shell,
    path: &str,
    subcommand: Subcommand,
    words: &[String],
) -> Result<String, AllocError>
    ensures { IfOk result (λ line. string_bytes line
        ≡ spec.after_line shell path.now subcommand (map string_bytes words.now)) }
{
    let family = shell.family();
    let mut line = String::new(alloc);
    if !are_sayable(family, words) {
        return Ok(line);
    }
    line.push_str(front(family))?;
    push_quoted(&mut line, family, path)?;
    line.push(' ')?;
    push_quoted(&mut line, family, shell.name())?;
    line.push(' ')?;
    push_quoted(&mut line, family, subcommand.name())?;
    push_words(&mut line, family, words)?;
    line.push_str(back(family))?;
    Ok(line)
}
