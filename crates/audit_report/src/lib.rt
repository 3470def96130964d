//! The report of an audit: lines on the modules of a site, and remarks; or a JSON document (RFC 8259), which has more.
//! Takes memory and touches nothing else.
#![tactic(auto)]

mod conflicts;
mod document;
mod fields;
mod readable;
mod refused;
mod remarks;
mod report;
mod selection;
mod tokens;
mod tried;
mod words;

pub use document::json_report;
pub use readable::ReadableAudit;
pub use report::line_report;
pub use selection::Selection;
