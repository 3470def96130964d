//! Lines about what a process is given and what a disk answers, each by its first word.

use crate::texts::first_word;
use crate::{disks, processes, trees};
use filetree::{DiskTree, MemoryTree};
use std::alloc::AllocError;
use std::io;

/// The answer to a line, of a disk, of a tree in memory or of a process.
fn answer_to(
    rt: &HostRuntime,
    disk: &mut DiskTree<HostRuntime>,
    memory: &mut MemoryTree,
    line: &str,
) -> Result<String, AllocError> {
    let (what, rest) = first_word(line);
    match what {
        "disk" => disks::answer(rt.alloc(), disk, rest),
        "memory" => trees::answer(rt.alloc(), memory, rest),
        "process" => processes::answer(rt, rest),
        _ => String::from_str(rt.alloc(), "bad line"),
    }
}

/// Answers a line, which is shown before its answer.
fn answer_line(
    rt: &HostRuntime,
    disk: &mut DiskTree<HostRuntime>,
    memory: &mut MemoryTree,
    line: &str,
) -> io::Result<()> {
    let answer = answer_to(rt, disk, memory, line)?;
    println!(rt; "{line}: {answer}")
}

/// Answers lines about a disk, a tree in memory and a process.
fn answer_lines(
    rt: &HostRuntime,
    disk: &mut DiskTree<HostRuntime>,
    memory: &mut MemoryTree,
    lines: &[String],
) -> io::Result<()> {
    for line in lines {
        answer_line(rt, disk, memory, line)?;
    }
    Ok(())
}

/// Answers lines, each shown before its answer.
pub(crate) fn answer(rt: &HostRuntime, lines: &[String]) -> io::Result<()> {
    let mut disk = DiskTree::new(rt.clone()?);
    let mut memory = MemoryTree::new(rt.alloc());
    answer_lines(rt, &mut disk, &mut memory, lines)
}
