//! Requests (module(1)): what one is and makes of an environment, with laws; its conditions and reports.
//! Takes memory for the text of a report, and touches nothing else.
#![tactic(auto)]

mod action;
mod avail;
mod conditions;
mod directories;
pub mod hand_changes;
mod laws;
mod lines;
mod list;
mod names;
mod rows;
mod show;
mod whatis;

pub use action::{Action, Request};
pub use avail::avail_report;
pub use conditions::{first_lost, last_meant, missing_group, own_conflict, recorded_conflict};
pub use directories::modulepath;
pub use laws::{
    command_returns, judged_session_returns, outcomes, plain_session_returns, reports,
    session_returns, sessions, some_outcome, verdicts,
};
pub use list::list_report;
pub use names::first_part;
pub use rows::{condition_rows, report_rows, request_rows};
pub use show::show_report;
pub use whatis::whatis_report;
