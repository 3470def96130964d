//! Which reports a pager shows, and which terminals show colours, by the user's variables.
ghost use Rattle.std.specs.Prelude.{◌≡◌};
ghost use Rattle.std.specs.Option.{option_map};
ghost use Rattle.envvars.specs.Environment.{lookup};
ghost use Rattle.module_words.specs.protocol.Paging as spec;

use crate::protocol::place::{Place, ReportKind};
use envvars::{Env, Vars};

/// The status of a report that the function has to show: its text where there is one, by a pager.
pub const SHOWN_BY_PAGER: u8 = 110;

/// Whether a terminal of this kind can do more than print.
fn is_able(term: Option<&str>) -> bool
    ensures { result ≡ spec.is_able (option_map (λ t. t.now) term.entry) }
{
    match term {
        Some(term) => term != "dumb",
        None => false,
    }
}

/// Whether a text is there and isn't empty.
fn is_filled(text: Option<&str>) -> bool
    ensures { result ≡ spec.is_filled (option_map (λ t. t.now) text.entry) }
{
    match text {
        Some(text) => !text.is_empty(),
        None => false,
    }
}

/// Whether a text is there and is empty.
fn is_void(text: Option<&str>) -> bool
    ensures { result ≡ spec.is_void (option_map (λ t. t.now) text.entry) }
{
    match text {
        Some(text) => text.is_empty(),
        None => false,
    }
}

/// Whether the user's terminal is one that shows colours, and the user wants them.
pub fn has_colours(env: &Env) -> bool
    ensures { result ≡ spec.has_colours (lookup env.now) }
{
    is_able(env.get("TERM")) && !is_filled(env.get("NO_COLOR"))
}

/// Whether a report has as many lines as the terminal, or more.
fn is_long(place: Place, lines: usize) -> bool
    ensures { result ≡ spec.is_long place lines }
{
    match place {
        Place::Terminal(Some(screen)) => screen.lines as usize <= lines,
        _ => false,
    }
}

/// Whether a pager shows a report of so many lines: it stands in columns, fills the terminal, and the terminal and the
/// user have a pager.
pub fn is_paged(env: &Env, kind: ReportKind, place: Place, lines: usize) -> bool
    ensures { result ≡ spec.is_paged (lookup env.now) kind place lines }
{
    if kind != ReportKind::Columns || !is_long(place, lines) {
        return false;
    }
    is_able(env.get("TERM")) && !is_void(env.get("PAGER"))
}

/// Whether the pager is the user's own, which may not show colours.
pub fn has_own_pager(env: &Env) -> bool
    ensures { result ≡ spec.has_own_pager (lookup env.now) }
{
    is_filled(env.get("PAGER"))
}
