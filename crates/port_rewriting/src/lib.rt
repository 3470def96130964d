//! Modulefiles translated: each command is read once, classified, written, and reported.
//! Takes memory and touches nothing else.
#![tactic(auto)]

mod acceptance;
mod aliases;
mod class;
mod classifying;
mod conditions;
mod guards;
pub mod laws;
mod meanings;
mod names;
mod pieces;
mod reader;
mod records;
mod rewrite;
mod scopes;
mod symbols;
mod translation;

pub use aliases::ShellScript;
pub use class::{Class, Note, Outcome};
pub use names::{Member, Site, folder_of};
pub use pieces::TranslatedPiece;
pub use reader::NamedFamily;
pub use scopes::{FileKind, Given};
pub use symbols::{VersionSymbol, symbols_said};
pub use translation::{Translation, TranslationFault, translate};
