//! What is known of a file before it is read, and where scripts stand in it.
ghost use Rattle.std.specs.Prelude.{◌≡◌};

use crate::names::Site;
use port_constants::{KnownFile, KnownVariable};
use port_reading::roles::Role;
use tcltext::script::ByteRange;

/// What a file is.
#[derive(Clone, Copy, Debug, PartialEq, Eq)]
pub enum FileKind {
    /// A modulefile.
    Modulefile,
    /// A default file.
    Defaults,
}

/// What is known of a file before it is read, and how it is written.
#[derive(Clone, Copy, Debug)]
pub struct Given<'g> {
    /// What it is.
    pub kind: FileKind,
    /// The site that it is of, where one is known.
    pub site: Option<&'g Site>,
    /// Its path, and the name of its module.
    pub file: Option<KnownFile<'g>>,
    /// What is known of the host that it is for.
    pub host: &'g [KnownVariable],
    /// The folder for the scripts of its aliases, where they are asked for.
    pub scripts_folder: Option<&'g str>,
    /// The name that it is to be in conflict with.
    pub one_version: Option<&'g str>,
    /// Whether the defaults of folders are named by a list.
    pub has_defaults: bool,
    /// Whether commands of default files that aren't read here are dropped.
    pub drops_unread: bool,
    /// Whether a command is left where something would differ.
    pub is_strict: bool,
}

impl Given<'_> {
    /// What is known of a file of this kind of which nothing is said.
    pub fn of_kind(kind: FileKind) -> Given<'static> {
        Given {
            kind,
            site: None,
            file: None,
            host: &[],
            scripts_folder: None,
            one_version: None,
            has_defaults: false,
            drops_unread: false,
            is_strict: false,
        }
    }
}

/// Where a script stands in a file.
#[derive(Clone, Copy, Debug)]
pub(crate) struct Scope<'f> {
    /// Its text.
    pub text: &'f str,
    /// Where that begins in the file.
    pub base: usize,
    /// What it is evaluated for.
    pub role: Role,
    /// Whether it is in the body of a procedure.
    pub is_in_procedure: bool,
    /// Whether errors of it are caught.
    pub is_caught: bool,
    /// Whether it is the file.
    pub is_top: bool,
    /// Whether it is in brackets.
    pub is_bracket: bool,
}

impl<'f> Scope<'f> {
    /// That of a whole file.
    pub(crate) fn of_file(text: &'f str) -> Scope<'f> {
        Scope {
            text,
            base: 0,
            role: Role::Body,
            is_in_procedure: false,
            is_caught: false,
            is_top: true,
            is_bracket: false,
        }
    }

    /// That of a text in it which begins there, for this role.
    pub(crate) fn inner(self, text: &'f str, start: usize, role: Role) -> Scope<'f>
        ensures { result.text.now ≡ text.entry.now }
    {
        Scope {
            text,
            base: self.base.saturating_add(start),
            role,
            is_in_procedure: self.is_in_procedure || role == Role::Procedure,
            is_caught: self.is_caught || role == Role::Caught,
            is_top: false,
            is_bracket: false,
        }
    }

    /// That of a script in brackets in it.
    pub(crate) fn bracket(self) -> Scope<'f> {
        Scope {
            is_top: false,
            is_bracket: true,
            ..self
        }
    }

    /// Whether its commands stand alone, and no error of them is caught.
    pub(crate) fn is_statement(self) -> bool {
        !self.is_bracket && !self.is_caught
    }

    /// The place in the file of what begins there in it.
    pub(crate) fn place(self, start: usize) -> usize {
        self.base.saturating_add(start)
    }

    /// The place in the file of what stands there in it.
    pub(crate) fn range(self, range: ByteRange) -> ByteRange {
        ByteRange {
            start: self.place(range.start),
            end: self.place(range.end),
        }
    }
}
