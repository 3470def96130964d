//! Modules that are forgotten (module(1), forget): the text for the shell, the way out where files are gone, and the laws.

mod fault;
mod gone;
pub mod laws;
mod names;
mod said;
mod stacks;

pub use fault::{ForgetFault, ForgetRefusal};
pub use gone::way_out;
pub use names::{Forgotten, forget};
pub use said::{forgotten_line, way_out_line};
