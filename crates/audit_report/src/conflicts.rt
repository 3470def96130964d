//! The names in conflicts that mean no module of the site: a line for each of them, with how many files have it.
ghost use Rattle.std.specs.Prelude.{◌≡◌, ◌+◌, ◌++◌, [], flat_map, if◌then◌else◌, IfOk, OnOk, string_bytes};
ghost use Rattle.envvars.specs.Texts.{slice_texts, texts_in};
ghost use Rattle.audit_report.specs.Counts.{CountsOne, HasCounts, counted_at};
ghost use Rattle.audit_report.specs.Remarks as spec;

use crate::fields::push_text;
use crate::remarks::push_name;
use audit_site::UnknownNames;
use envvars::fields::{deduplicated, slices};
use indexmap::IndexMap;
use std::alloc::{AllocError, Global};

/// How often names stand in a list.
#[derive(Drop)]
struct NameCounts<'a> {
    counts: IndexMap<&'a str, usize>,
}

/// One more. A number beyond `usize` would be of more names than memory can hold.
fn one_more(count: usize) -> Result<usize, AllocError>
    ensures { IfOk result (λ sum. sum ≡ count + 1) }
{
    count.checked_add(1).ok_or(AllocError)
}

impl<'a> NameCounts<'a> {
    /// How often the name stands there.
    fn count(&self, name: &str) -> usize
        ensures { result ≡ counted_at self.now name.now }
    {
        match self.counts.get(name) {
            Some(count) => *count,
            None => 0,
        }
    }

    /// Counts the name once more.
    fn add(&mut self, name: &'a str) -> Result<(), AllocError>
        ensures { OnOk result (CountsOne self.old self.new name.now) }
    {
        let count = one_more(self.count(name))?;
        self.counts.insert(name, count)?;
        Ok(())
    }

    /// The numbers of these names.
    fn of(alloc: Global, names: &[&'a str]) -> Result<NameCounts<'a>, AllocError>
        ensures { IfOk result (λ counts. HasCounts counts (slice_texts names.now)) }
    {
        let mut counts = NameCounts {
            counts: IndexMap::new(alloc),
        };
        for name in names {
            counts.add(name)?;
        }
        Ok(counts)
    }
}

/// Adds the names of a conflict, and none of a prereq.
fn push_names<'a>(
    alloc: Global,
    names: &mut Vec<&'a str>,
    unknown: &'a UnknownNames,
) -> Result<(), AllocError>
    ensures { OnOk result (slice_texts names.new.items ≡ slice_texts names.old.items
        ++ (if unknown.entry.now.is_prereq then [] else texts_in unknown.entry.now.names)) }
{
    if unknown.is_prereq {
        return Ok(());
    }
    let mut own = slices(alloc, unknown.names.as_slice())?;
    names.append(&mut own)?;
    Ok(())
}

/// The names of the conflicts, as often as they stand there.
fn conflict_names<'a>(
    alloc: Global,
    unknowns: &'a [UnknownNames],
) -> Result<Vec<&'a str>, AllocError>
    ensures { IfOk result (λ names. slice_texts names.items ≡ spec.conflict_names unknowns.entry.now) }
{
    let mut names = Vec::new(alloc);
    for unknown in unknowns {
        push_names(alloc, &mut names, unknown)?;
    }
    Ok(names)
}

/// So many files, in words.
fn files_words(alloc: Global, count: usize) -> Result<String, AllocError>
    ensures { IfOk result (λ words. string_bytes words ≡ spec.files_words count) }
{
    if count == 1 {
        format!(in alloc; "{count} file")
    } else {
        format!(in alloc; "{count} files")
    }
}

/// Adds the line of a name in so many files.
fn push_conflict(
    alloc: Global,
    report: &mut Vec<u8>,
    count: usize,
    name: &str,
) -> Result<(), AllocError>
    ensures { OnOk result (report.new.items ≡ report.old.items ++ spec.conflict_line count name.now) }
{
    let files = files_words(alloc, count)?;
    push_text(report, "# conflict names no module:")?;
    push_name(report, name)?;
    push_text(report, " (in ")?;
    push_text(report, files.as_str())?;
    push_text(report, ")\n")
}

/// Adds the lines of these names, each with its number.
fn push_counted(
    alloc: Global,
    report: &mut Vec<u8>,
    counts: &NameCounts<'_>,
    names: &[&str],
) -> Result<(), AllocError>
    ensures { OnOk result (report.new.items ≡ report.old.items
        ++ flat_map (λ name. spec.conflict_line (counted_at counts.now name) name) (slice_texts names.now)) }
{
    for name in names {
        push_conflict(alloc, report, counts.count(name), name)?;
    }
    Ok(())
}

/// Adds a line for each name in conflicts that means no module of the site, in the order in which they first stand.
pub(crate) fn push_conflicts(
    alloc: Global,
    report: &mut Vec<u8>,
    unknowns: &[UnknownNames],
) -> Result<(), AllocError>
    ensures { OnOk result (report.new.items ≡ report.old.items ++ spec.conflict_lines unknowns.now) }
{
    let names = conflict_names(alloc, unknowns)?;
    let counts = NameCounts::of(alloc, names.as_slice())?;
    let firsts = deduplicated(alloc, names.as_slice())?;
    push_counted(alloc, report, &counts, firsts.as_slice())
}
