//! Dry runs of modules: what a load and then its unload do in an environment.
//! Takes memory; reads the files and directories (`Tree`) that it is given. The environment doesn't change.
#![tactic(auto)]

mod dry_run;
mod laws;
mod loading;
mod lost;
mod requesting;

pub use dry_run::{DryRun, dry_run_module};
pub use laws::dry_runs;
