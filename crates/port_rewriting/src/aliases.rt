//! Aliases that are one command: the shell scripts that stand for them.

use std::alloc::{AllocError, Global};
use tcltext::chars::{is_blank, is_name};

/// What a shell does itself, or reads in another way, so that no program of this name does the same: reserved words,
/// utilities that act on the shell (POSIX), and those of bash, zsh, ksh, tcsh and of the modules' own functions.
const OF_SHELLS: &str = "\
     . : alias aliases autoload bg bind bindkey bindtc break builtin builtins bye caller cap case cd chdir clone command \
     compadd comparguments compcall compctl compgen complete compopt continue coproc declare default dirs disable disown do \
     done echotc elif else emulate enable end endif endsw esac eval exec exit export fc fg fi filetest float for foreach \
     function functions getcap getopts glob goto hash hashinfo hashstat help hist history hup if in inlib integer jobs kill \
     let limit local log logout mapfile ml module nameref namespace noglob notify onintr popd print pushd pushln r read \
     readarray readonly redirect rehash repeat return sched select set setenv setopt setpath settc setty shift shopt source \
     stop suspend switch telltc then time times trap ttyctl type typeset ulimit umask unalias uncomplete unfunction unhash \
     unlimit unset unsetenv unsetopt until vared ver vpath wait watchlog whence where which while zcompile zformat zle \
     zmodload zparseopts zregexparse zstyle";

/// What a shell does before it looks for a program, which would do the same.
const DOUBLED: &str =
    "[ cat echo false getconf login newgrp nice nohup printenv printf pwd sleep stat test true uname";

/// The script of an alias.
#[derive(Debug, Drop)]
pub struct ShellScript {
    /// The name of the alias.
    pub name: String,
    /// The text of the script.
    pub text: String,
}

/// Whether the word is one of the names.
fn is_in(names: &str, word: &str) -> bool {
    names.split(' ').any(|name| name == word)
}

/// Whether the byte stands for itself in each shell.
fn is_literal(byte: u8) -> bool {
    is_name(byte) || matches!(byte, b'.' | b'/' | b':' | b',' | b'+' | b'@' | b'%' | b'-')
}

/// Whether a shell finds a program by the name in a folder.
fn is_program(name: &str) -> bool {
    name.bytes().next().is_some_and(|byte| is_name(byte))
        && name.bytes().all(|byte| is_literal(byte) && byte != b'/')
        && !is_in(OF_SHELLS, name)
        && !is_in(DOUBLED, name)
}

/// Whether the text is one command of another program than the one of this name.
fn is_command(name: &str, text: &str) -> bool {
    let first = text.split_ascii_whitespace().next().unwrap_or("");
    let mut bytes = first.bytes();
    bytes
        .next()
        .is_some_and(|byte| is_name(byte) || byte == b'.' || byte == b'/')
        && first != name
        && !is_in(OF_SHELLS, first)
        && text.bytes().all(|byte| is_literal(byte) || is_blank(byte))
}

/// Whether it is an absolute path that can be an element of PATH in each shell.
pub(crate) fn is_folder(folder: &str) -> bool {
    folder.starts_with('/') && folder.bytes().all(|byte| is_literal(byte) && byte != b':')
}

/// The script of an alias of this name for a text, where that is one command.
pub(crate) fn script_of(
    alloc: Global,
    name: &str,
    text: &str,
) -> Result<Option<ShellScript>, AllocError> {
    if !is_program(name) || !is_command(name, text) {
        return Ok(None);
    }
    Ok(Some(ShellScript {
        name: String::from_str(alloc, name)?,
        text: format!(in alloc; "#!/bin/sh\nexec {text} \"$@\"\n")?,
    }))
}
