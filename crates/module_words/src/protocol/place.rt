//! Where a report goes, by who asks and which streams are terminals.
ghost use Rattle.std.specs.Prelude.{◌≡◌};
ghost use Rattle.module_words.specs.protocol.Places as spec;

use crate::protocol::asker::{Asker, Screen};

/// What a report is like.
#[derive(Clone, Copy, Debug, PartialEq, Eq)]
pub enum ReportKind {
    /// Names, which stand in columns on a terminal.
    Columns,
    /// Lines.
    Lines,
    /// What the program says of itself: its usage and its version.
    OfProgram,
}

/// Which of the user's streams are terminals.
#[derive(Clone, Copy, Debug, PartialEq, Eq)]
pub struct Streams {
    /// The user's standard output.
    pub output: bool,
    /// Standard error.
    pub error: bool,
}

/// Where a report goes.
#[derive(Clone, Copy, Debug, PartialEq, Eq)]
pub enum Place {
    /// To standard error, as it is.
    Error,
    /// To the user's standard output, as it is.
    Output,
    /// To the user's standard output, as a terminal shows it, whose size may be known.
    Terminal(Option<Screen>),
    /// To a place that the program doesn't reach: the function has to show it.
    Elsewhere,
}

/// Where a report goes at a terminal, of which the function may know the size.
fn at_terminal(kind: ReportKind, screen: Option<Screen>) -> Place
    ensures { result ≡ spec.at_terminal kind screen }
{
    match (kind, screen) {
        (ReportKind::Columns, None) => Place::Elsewhere,
        _ => Place::Terminal(screen),
    }
}

/// Where a report goes that this asker is shown at a terminal.
fn shown_to(asker: Asker, kind: ReportKind) -> Place
    ensures { result ≡ spec.shown_to asker kind }
{
    match asker {
        Asker::Script => Place::Terminal(None),
        Asker::Handing(screen) => at_terminal(kind, screen),
        Asker::Unhanding => Place::Elsewhere,
    }
}

/// Where a report goes that isn't for standard error, to an output that may be a terminal.
fn besides(asker: Asker, kind: ReportKind, is_terminal: bool) -> Place
    ensures { result ≡ spec.besides asker kind is_terminal }
{
    if is_terminal {
        return shown_to(asker, kind);
    }
    match asker {
        Asker::Unhanding => Place::Elsewhere,
        _ => Place::Output,
    }
}

/// Where a report goes. Usage and version go to the user's standard output. Other reports go to standard error, but
/// where that is a terminal to standard output, from where they can be piped. It is `Elsewhere` where the asker can't hand
/// its standard output on, or doesn't know how many columns a terminal has.
pub fn place_of(asker: Asker, kind: ReportKind, streams: Streams) -> Place
    ensures { result ≡ spec.place_of asker kind streams }
{
    if kind == ReportKind::OfProgram {
        return besides(asker, kind, false);
    }
    if !streams.error {
        return Place::Error;
    }
    besides(asker, kind, streams.output)
}
