//! Shells: their names and families, how each family reads a text, and the printer of changes of variables (module(1)).
//! Takes memory and touches nothing else: the text is handed back, and nothing is written.
#![tactic(auto)]

mod family;
pub mod laws;
mod print;
pub mod rows;
mod shell;
mod spelling;

pub use family::Family;
pub use print::{PrintFault, print_changes};
pub use shell::Shell;
pub use spelling::{is_value_sayable, push_quoted};
