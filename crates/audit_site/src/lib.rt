//! The audit of a whole site: its walk, how each module stands, the certificate of those without a judgement, remarks.
//! Takes memory, reads the files and directories (`Tree`) that it is given, and says how far it has come.
//! Clauses: `reads` and `failed` say what the tree was asked; `listed`, `evaluated` and `walked` what is found by each
//! pair that agrees with it; and `cause` why a call gives no answer.
#![tactic(auto)]

mod auditing;
mod below;
mod defaults;
mod deterministic_runs;
mod directories;
mod excluded;
mod fault;
mod files;
mod folders;
mod judgement;
mod missing;
mod names;
mod no_modulefiles;
mod progress;
mod scripts;
mod standing;
mod unlike;
mod unreachable;
mod unread;
mod walk;
mod without_version;

pub use auditing::{AddedDirectory, AuditedModule, SiteAudit, UnknownNames, audit};
pub use fault::WalkFault;
pub use progress::{SilentProgress, WalkProgress};
pub use standing::AuditStanding;
pub use walk::MAX_DIRECTORIES;
