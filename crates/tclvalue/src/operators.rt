//! The operators of expressions (expr(n)) on values, truth values, and the fault of a value.
//! Takes memory and touches nothing else.
#![tactic(auto)]

mod fault;
mod laws;
mod lists;
mod messages;
mod operands;
mod operators;
mod truth_values;

pub use fault::ValueFault;
pub use laws::{bits, division};
pub use lists::{elements, is_among};
pub use messages::{
    bad_index, divide_by_zero, in_quotes, negative_shift, not_a_boolean, not_a_list,
    not_a_whole_number, not_numeric, tcl_error, unsupported, unsupported_subcommand, wrong_words,
};
pub use operands::sum;
pub use operators::{
    ComputedValue, binary, compare_numbers, compute, text_order, truth_text, unary, whole_number,
};
pub use truth_values::truth;
