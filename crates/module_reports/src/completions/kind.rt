//! The kinds of names that shells complete.
ghost use Rattle.std.specs.Prelude.{◌≡◌};
ghost use Rattle.module_reports.specs.completions.Kinds as spec;

use module_words::subcommands::Subcommand;

/// A kind of names.
#[derive(Clone, Copy, Debug, PartialEq, Eq)]
pub enum NameKind {
    /// The names of subcommands.
    Subcommands,
    /// The options of a subcommand.
    Options(Subcommand),
    /// The shells that `modulecmd` writes for.
    Shells,
    /// The options of `modaudit`.
    AuditOptions,
    /// The options of `modport`.
    PortOptions,
    /// The loaded modules.
    Loaded,
    /// The loaded modules, each behind a hyphen, as `ml` unloads them.
    LoadedToUnload,
    /// The collections.
    Collections,
    /// The directories of MODULEPATH.
    Directories,
    /// The modules that can be loaded, whose names begin with a text.
    Available,
}

impl NameKind {
    /// Whether these are the modules that can be loaded.
    pub(crate) fn is_available(self) -> bool
        ensures { result ≡ spec.is_available self }
    {
        match self {
            NameKind::Available => true,
            _ => false,
        }
    }
}

/// The kind that a word asks for by its own name, where it is one.
pub fn kind_named(word: &str) -> Option<NameKind>
    ensures { result ≡ spec.kind_named word.now }
{
    match word {
        "subcommands" => Some(NameKind::Subcommands),
        "shells" => Some(NameKind::Shells),
        "audit-options" => Some(NameKind::AuditOptions),
        "port-options" => Some(NameKind::PortOptions),
        "loaded" => Some(NameKind::Loaded),
        "collections" => Some(NameKind::Collections),
        "directories" => Some(NameKind::Directories),
        "avail" => Some(NameKind::Available),
        _ => None,
    }
}
