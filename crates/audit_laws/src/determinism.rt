//! What a modulefile's answers depend on, and that a file whose questions all have stable inputs does the same again.
//! Takes memory and touches nothing else.
#![tactic(auto)]

mod asking;
mod contexts;
mod equivalent;
pub mod laws;
mod loaded_answers;
mod reading;
mod returning;
mod stable_input;
mod undone;

pub use asking::has_stable_answer;
pub use contexts::{EvaluationContext, first_context, other_contexts};
pub use equivalent::is_run_equivalent;
pub use loaded_answers::are_few;
pub use reading::{first_unkept, variables_read};
pub use returning::{all_can_return, can_return};
pub use undone::same_texts;
