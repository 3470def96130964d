//! The substitution of words (Tcl(n)) and the evaluation of expressions (expr(n)), one step at a time.
//! Takes memory, also for what waits for an inner part (no stack of the process); asks the host for `env` alone.
#![tactic(auto)]

mod borrowed_operands;
mod context;
mod frame;
mod reading;
mod stop;
mod substitution;

pub use borrowed_operands::compute_borrowed;
pub use context::SubstitutionContext;
pub use frame::{Control, Step, WaitingFrame};
pub use reading::{read, read_element};
pub use stop::Stop;
pub use substitution::{advance, braced};
