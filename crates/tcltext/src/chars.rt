//! The characters of Tcl's texts: classes of bytes, what a backslash stands for, braces, numbers, and their faults.
//! Touches nothing but a text that grows; takes memory for that alone.
#![tactic(auto)]

mod backslash;
mod braced_text;
mod braces;
mod division;
mod fault;
mod laws;
mod limits;
mod number;
mod runs;

pub use backslash::{digit_value, read_backslash};
pub use braced_text::push_braced_text;
pub use braces::split_close;
pub use division::quotient;
pub use fault::{Fault, ReadError, TextFault, remaining_with_mark, with_offset};
pub use laws::{closing_brace, numeral_of_fraction, numeral_of_whole};
pub use limits::{MAX_BYTES, MAX_NESTING};
pub use number::{Numeral, read_number};
pub use runs::{
    Class, after_mark, begins_class, is_blank, is_gap, is_name, is_space, is_special, split_run,
};
