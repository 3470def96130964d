//! What lists of requests would do: the check of an input's lines, with verdicts, and rehearsals with what is printed.
//! Takes memory; reads the files and directories (`Tree`) that it is given, and a rehearsal changes the `Env`.
#![tactic(auto)]

mod checking;
mod judging;
mod laws;
mod lines;
mod loading;
mod rehearsal;
mod report;
mod running;

pub use checking::{CheckFindings, check};
pub use judging::ModuleVerdict;
pub use laws::{lines_run, texts_make_session, texts_return_to_start};
pub use rehearsal::rehearse;
