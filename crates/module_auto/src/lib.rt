//! Automated module handling: loads with what is needed first, unloads with what needs it (module(1)).
//! Takes memory; reads the files and directories (`Tree`) that it is given. The environment doesn't change.
#![tactic(auto)]

mod answer;
mod fault;
mod finding;
mod loading;
mod plan;
mod refused;
mod requesting;
mod said;
mod spent;
mod unloading;

pub use answer::AutomaticAnswer;
pub use fault::RequestFault;
pub use finding::first_found;
pub use loading::load_automatically;
pub use refused::{refused_load, refused_unload};
pub use said::{loading_line, unloading_line};
pub use unloading::unload_automatically;
