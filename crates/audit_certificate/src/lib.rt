//! Which modules of a site need no judgement: their certificate, which starts agree with it, and where modules clash.
//! Takes memory and touches nothing else.
#![tactic(auto)]

mod agreement;
mod answers;
mod candidate;
mod conflicts;
mod disagreement;
mod distinct_uses;
mod examples;
mod keys;
pub mod laws;
mod module_uses;
mod names;
mod pairs;
mod ranks;
mod table;
mod tally;
mod usage_groups;
mod users;
mod uses;
mod variables;
mod version_groups;

pub use agreement::disagreements;
pub use answers::{Clash, FoundClashes, clashes};
pub use candidate::Candidate;
pub use disagreement::Disagreement;
pub use laws::certified;
pub use uses::{UsedVariable, VariableUse, first_unlike, uses_of};
