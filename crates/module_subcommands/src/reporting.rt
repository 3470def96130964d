//! What is answered with a report: where it goes, what a terminal shows of it, and which is left to a pager.
ghost use Rattle.std.specs.Prelude.{◌≡◌, [], map, string_bytes, vec_items, IfOk};
ghost use Rattle.envvars.specs.Environment.{lookup};
ghost use Rattle.module_subcommands.specs.Reports as spec;

use crate::asking::Asking;
use crate::reply::{Reply, Report};
use envvars::Env;
use module_words::protocol::{Place, ReportKind, has_own_pager, is_paged, place_of, report_kind};
use module_words::subcommands::Subcommand;
use std::alloc::{AllocError, Global};
use terminal::text::{line_count, shown_bytes, without_colours};

/// Where a report goes, and what it is like.
#[derive(Clone, Copy, Debug)]
pub struct Destination {
    /// What the report is like.
    pub kind: ReportKind,
    /// Where it goes.
    pub place: Place,
}

/// Where the report of a command goes, and what it is like; to standard error, where it makes none.
pub fn destination_of(asking: &Asking, subcommand: Subcommand, words: &[String]) -> Destination
    ensures { result ≡ spec.destination_of asking.now subcommand (map string_bytes words.now) }
{
    match report_kind(subcommand, words) {
        Some(kind) => Destination {
            kind,
            place: place_of(asking.asker, kind, asking.site.streams),
        },
        None => Destination {
            kind: ReportKind::Lines,
            place: Place::Error,
        },
    }
}

/// A report as it is, with why it is empty.
pub(crate) fn report_reply(aside: String, place: Place, bytes: Vec<u8>) -> Reply
    ensures { spec.IsReport (string_bytes aside) place (vec_items bytes) result }
{
    Reply::Reported(Report {
        aside,
        place,
        bytes,
    })
}

/// What is shown at a place of bytes: a terminal isn't steered by them.
fn shown_at(alloc: Global, place: Place, bytes: Vec<u8>) -> Result<Vec<u8>, AllocError>
    ensures { IfOk result (λ v. vec_items v ≡ spec.shown_at place (vec_items bytes)) }
{
    match place {
        Place::Terminal(_) => Ok(shown_bytes(alloc, bytes.as_slice())?.into_bytes()),
        _ => Ok(bytes),
    }
}

/// A report of lines, with why it is empty.
pub(crate) fn lines_reply(
    alloc: Global,
    aside: String,
    place: Place,
    bytes: Vec<u8>,
) -> Result<Reply, AllocError>
    ensures { IfOk result (spec.IsLinesReply (string_bytes aside) place (vec_items bytes)) }
{
    let bytes = shown_at(alloc, place, bytes)?;
    Ok(report_reply(aside, place, bytes))
}

/// A report of lines that isn't empty.
pub(crate) fn plain_reply(alloc: Global, place: Place, bytes: Vec<u8>) -> Result<Reply, AllocError>
    ensures { IfOk result (spec.IsLinesReply [] place (vec_items bytes)) }
{
    lines_reply(alloc, String::new(alloc), place, bytes)
}

/// The text that a pager shows: without colours, where it is the user's own.
fn pager_text(alloc: Global, env: &Env, text: String) -> Result<String, AllocError>
    ensures { IfOk result (λ t. string_bytes t ≡ spec.pager_text (lookup env.now) (string_bytes text)) }
{
    if has_own_pager(env) {
        return without_colours(alloc, text.as_str());
    }
    Ok(text)
}

/// A report of names, with why it is empty; where it is long, the function's pager shows it.
pub(crate) fn names_reply(
    alloc: Global,
    env: &Env,
    to: Destination,
    aside: String,
    text: String,
) -> Result<Reply, AllocError>
    ensures { IfOk result (spec.IsNamesReply (lookup env.now) to.kind to.place (string_bytes aside)
        (string_bytes text)) }
{
    if is_paged(env, to.kind, to.place, line_count(text.as_str())) {
        return Ok(Reply::Paged(pager_text(alloc, env, text)?));
    }
    Ok(report_reply(aside, to.place, text.into_bytes()))
}
