//! The state of modules in the environment: variables, path variables, stacks, the loaded modules, and their laws.
//! Changes the environment that it is given, and takes memory for new values. It re-exports parts of envvars.
#![tactic(auto)]

pub mod laws;
pub mod loaded_list;
pub mod paths;
pub mod stacks;

pub use crate::loaded_list::{Loaded, add_loaded, conflicts_of, drop_loaded, loaded, prereqs_of};
pub use crate::paths::{End, add_path, drop_path};
pub use crate::stacks::{pop_value, push_value};
pub use envvars::{
    Change, Env, EnvFault, Vars, Working, changes, is_nul_free, is_protected, is_variable_name,
    share_name,
};
