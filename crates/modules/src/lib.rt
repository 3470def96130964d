//! Requests run over an environment, one alone or one after another: `run`, `run_changes`, `session` (module(1)).
//! Takes memory; changes the `Env` and reads the files and directories (`Tree`) that it is given.
//! Clauses: `over_tree` is the answer over a tree, `given` that of a call that reads none; `reads` and `failed` say what
//! the tree was asked, and `base` that the environment below the variables stays. The calls for one name have these of a
//! tree as one record, `TreeAnswer`.
#![tactic(auto)]

mod done;
mod entries;
mod judged;
mod missing;
mod one_name;
mod progress;
mod refusal;
pub mod rehearsals;
mod reply;
mod running;
mod scripts;
mod sessions;
mod settings;
mod step;
pub mod transient_failures;
mod verdicts;
mod words;

pub use done::{Module, Move, RememberedMoves, RequestResults};
pub use envvars::{Change, Env, EnvFault};
pub use filetree::{Tree, TreeFault};
pub use judged::{Verdict, are_reversible, is_reversible};
pub use missing::MissingNames;
pub use modulefile::RecordFault;
pub use modulefile_run::{RefusedFile, RunFault, RunStop};
pub use refusal::Refusal;
pub use reply::{Reply, RequestChanges};
pub use requests::{Action, Request};
pub use running::{run, run_changes};
pub use scripts::script_at;
pub use search::FindFault;
pub use sessions::{Outcome, make_changes, respond, session};
pub use settings::STANDARD_LIMITS;
pub use shelltext::Shell;
pub use tclrules::{EvalFault, Limits};
pub use tcltext::chars::TextFault;
pub use verdicts::verdict;
pub use words::request;
