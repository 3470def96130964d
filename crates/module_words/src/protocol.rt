//! What the functions of shells and the program `module` say to each other: who asks, where an answer goes, and the status.
//! Takes memory for the line that starts a site's program, and touches nothing else.
#![tactic(auto)]

mod after;
mod asker;
mod kind;
mod paging;
mod place;
mod script_words;

pub use after::{after_line, changes_list};
pub use asker::{Asker, Screen, read_asker, refusal_status};
pub use kind::report_kind;
pub use paging::{SHOWN_BY_PAGER, has_colours, has_own_pager, is_paged};
pub use place::{Place, ReportKind, Streams, place_of};
pub use script_words::{ScriptWord, script_word};
