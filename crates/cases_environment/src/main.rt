//! Worked examples of the environment: answers lines on variables, disks, shells, collections and requests.
//! Touches standard input and output, its own arguments and environment, and files and directories of the disk.
//! Nothing stands above it; the files `stdin` and `stdout` of this crate are these lines and their answers.
//!
//! The lines stand in paragraphs of standard input. The first line of a paragraph says what it is about.
//!
//! `variables` asks calls of `envstate`, made one after the other over an environment, and over a working one beside
//! it, which have to answer alike. The paragraph may go on with `from NAME=VALUE...`, the variables before its first
//! call. Words stand between blanks; `''` is the empty word, and as a delimiter a blank. After each call its answer is
//! printed: of an edit the variables after it, or `!NUMBER` for its refusal, which changes none. At the end stands what
//! the calls have changed.
//!
//! `system` asks what a process is given and what a disk answers; each line is shown before its answer. `disk file
//! PATH`, `disk folder PATH` and `disk again PATH` ask a disk, the last for a file twice, and `disk begins PATH` whether
//! a file begins with `#%`. `memory put-file PATH TEXT` and `memory put-folder PATH NAME` put a file or a directory of
//! one name into a tree in memory, which `memory file PATH` and `memory folder PATH` ask. `process own` asks for what
//! this process is given, `process value NAME` for a variable of its environment, and `process variable TEXT` for the
//! variable A of an environment.
//!
//! `shells` asks for the texts of changes. A line is the name of a shell, and then changes: `NAME=VALUE`, or `NAME`
//! where it is unset. Each line is shown after `> `, and then the text, or after `!` the number and the text of the
//! fault.
//!
//! `directories` asks what `use` and `unuse` make of MODULEPATH: `prepend`, `append` or `unuse`, the working directory,
//! MODULEPATH, and directories; `-` is none of the first two. `collections` asks what a text keeps (`read TEXT`), its
//! directories behind `+`, and for the text of directories and modules (`save DIRECTORIES MODULES`, with commas between,
//! `-` for none). Each line is shown after `> `, and a fault behind `!`.
//!
//! `requests` asks calls of `modules` and of its rehearsals over files in memory and variables, which its lines share; each is
//! shown after `> `. `module PATH TEXT` puts a modulefile behind its cookie, `folder PATH NAME...` a directory, `from
//! NAME=VALUE...` are the variables from there on, and `vars` shows them. `ask SHELL WORD...` answers what a request
//! changes, and below that its report; `nameless KIND` what one without names does, as no words make one; `verdict
//! NAME` what is said of a module; `dry_run NAME PATH` what its load and its unload do; `rehearse SHELL REQUEST, SHELL
//! REQUEST...` for each request `accepted` and the text that it prints, or `none`, and then the variables at the end.
//! Behind `!` stand the number and the text of a refusal.
//!
//! `names` takes the public names that no call of these lines has: each fault of the environment, with its number.
//!
//! After a mark, which is `^` in the calls and a backslash elsewhere, `n`, `t` and `s` mean a newline, a tab and a
//! space, `0` and `@` NUL, `_` the character 31, `?` the character 127, `!` a byte that is in no UTF-8, `*` 40,959
//! times x, and every other character means itself.
#![tactic(auto)]

mod directories;
mod disks;
mod edits;
mod kept;
mod names;
mod printing;
mod processes;
mod queries;
mod request_lines;
mod shown;
mod system_lines;
mod texts;
mod trees;
mod variables;

use std::io;

fn answer_about(rt: &HostRuntime, subject: &str, lines: &[String]) -> io::Result<()> {
    match subject {
        "variables" => variables::answer(rt, lines),
        "system" => system_lines::answer(rt, lines),
        "shells" => printing::answer(rt, lines),
        "directories" => directories::answer(rt, lines),
        "collections" => kept::answer(rt, lines),
        "requests" => request_lines::answer(rt, lines),
        "names" => names::answer(rt),
        _ => println!(rt; "no such lines: {subject}"),
    }
}

/// Answers a paragraph, and ends with an empty line.
fn answer(rt: &HostRuntime, paragraph: &[String]) -> io::Result<()> {
    let Some((subject, lines)) = paragraph.split_first() else {
        return Ok(());
    };
    answer_about(rt, subject, lines)?;
    println!(rt;)
}

/// Answers each paragraph of standard input.
fn main(rt: HostRuntime) -> io::Result<()> {
    let alloc = rt.alloc();
    let mut paragraph = Vec::new(alloc);
    for line in rt.lines(alloc) {
        let line = line?;
        if line.is_empty() {
            answer(&rt, &paragraph)?;
            paragraph.clear();
        } else {
            paragraph.push(line)?;
        }
    }
    answer(&rt, &paragraph)
}
