//! A whole audit: the words of a command line in, the report on a site out (modaudit(1)).
//! Takes memory; reads the tree, in which it hides what can't be read, writes to the writers and tells the progress.
#![tactic(auto)]

mod arguments;
mod audit_exit;
mod audit_fault;
mod directories;
mod laws;
mod layout;
mod not_utf8;
mod readable;
mod running;
mod there;
mod trying;
mod unreadable;

pub use audit_exit::AuditExit;
pub use audit_fault::{AuditFault, write_fault};
pub use laws::{
    accepted_commands, reported_modules_return, site_commands_and_hands_return,
    site_commands_return, site_way_back_is_open,
};
pub use layout::Layout;
pub use running::run_audit;
