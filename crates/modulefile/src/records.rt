//! What accepted commands of modulefiles leave on record.
ghost use Rattle.std.specs.Prelude.{◌≡◌, map, string_bytes};
ghost use Rattle.std.specs.Option.{option_map};
ghost use Rattle.modulefile.specs.Records.{added_elements, conflicts_of, prereqs_of, description_of};
ghost use Rattle.modulefile.specs.RecordViews.{record_view};
ghost use Rattle.modulefile.specs.Reports.{path_command};

use crate::delimiter::Delimiter;

/// What a file is evaluated for.
#[derive(Clone, Copy, Debug, PartialEq, Eq)]
pub enum Mode {
    /// Its module is loaded.
    Load,
    /// Its module is unloaded.
    Unload,
    /// Its commands are shown, by `show`.
    Display,
    /// Its descriptions are shown, by `whatis`.
    Whatis,
}

/// Where a path command puts its elements, or that it drops them.
#[derive(Clone, Copy, Debug, PartialEq, Eq)]
pub enum PathEdit {
    /// `prepend-path`
    Front,
    /// `append-path`
    Back,
    /// `remove-path`
    Remove,
}

impl PathEdit {
    /// The name of the command, with which `show` writes such a record (modulefile(5)).
    pub fn command(self) -> &'static str
        ensures { result.now ≡ path_command self }
    {
        match self {
            PathEdit::Front => "prepend-path",
            PathEdit::Back => "append-path",
            PathEdit::Remove => "remove-path",
        }
    }
}

/// What an accepted command leaves on record: what it does, whatever the mode.
#[derive(Debug, Drop)]
pub enum Record {
    /// `setenv VAR value`
    Set {
        var: String,
        value: String,
    },
    /// `unsetenv VAR ?value?`
    Unset {
        var: String,
        value: Option<String>,
    },
    /// `pushenv VAR value`
    Push {
        var: String,
        value: String,
    },
    /// A path command: the values, cut at the delimiter.
    Path {
        edit: PathEdit,
        delim: Delimiter,
        var: String,
        elements: Vec<String>,
    },
    /// `conflict NAME...`
    Conflict(Vec<String>),
    /// `prereq NAME...`, any one of which will do.
    Prereq(Vec<String>),
    /// `module-whatis WORD...`, the words joined by spaces.
    Whatis(String),
}

impl Record {
    /// The path variable that a record adds elements to, and these; None where it adds none.
    pub fn added_elements(&self) -> Option<(&str, &[String])>
        ensures { option_map (λ added. (added.0.now, map string_bytes added.1.now)) result
            ≡ added_elements (record_view self.now) }
    {
        match self {
            Record::Path {
                edit: PathEdit::Front | PathEdit::Back,
                var,
                elements,
                ..
            } => Some((var.as_str(), elements.as_slice())),
            Record::Path {
                edit: PathEdit::Remove,
                ..
            }
            | Record::Set { .. }
            | Record::Unset { .. }
            | Record::Push { .. }
            | Record::Conflict(_)
            | Record::Prereq(_)
            | Record::Whatis(_) => None,
        }
    }

    /// The names of a `conflict`; other records have none.
    pub fn conflicts(&self) -> &[String]
        ensures { map string_bytes result.now ≡ conflicts_of (record_view self.now) }
    {
        match self {
            Record::Conflict(names) => names.as_slice(),
            _ => &[],
        }
    }

    /// The alternatives of a `prereq`; None for other records.
    pub fn prereqs(&self) -> Option<&[String]>
        ensures { option_map (λ names. map string_bytes names.now) result ≡ prereqs_of (record_view self.now) }
    {
        match self {
            Record::Prereq(names) => Some(names.as_slice()),
            _ => None,
        }
    }

    /// The text of a `module-whatis`; None for other records.
    pub fn description(&self) -> Option<&str>
        ensures { option_map (λ text. text.now) result ≡ description_of (record_view self.now) }
    {
        match self {
            Record::Whatis(text) => Some(text.as_str()),
            _ => None,
        }
    }
}
