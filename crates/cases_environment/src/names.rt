//! The public names of the state of modules that no call of the other lines has.

use envstate::{EnvFault, laws};
use std::io;

/// The name of a fault.
fn name_of(fault: &EnvFault) -> &'static str {
    match fault {
        EnvFault::OutOfMemory => "OutOfMemory",
        EnvFault::BadVariable(_) => "BadVariable",
        EnvFault::Protected(_) => "Protected",
        EnvFault::CounterFull(_) => "CounterFull",
        EnvFault::Inconsistent => "Inconsistent",
        EnvFault::BadStack(_) => "BadStack",
        EnvFault::BadValue(_) => "BadValue",
    }
}

/// Shows each fault, by its number and its name.
fn show_faults(rt: &HostRuntime) -> io::Result<()> {
    let alloc = rt.alloc();
    let faults = [
        EnvFault::OutOfMemory,
        EnvFault::BadVariable(String::new(alloc)),
        EnvFault::Protected(String::new(alloc)),
        EnvFault::CounterFull(String::new(alloc)),
        EnvFault::Inconsistent,
        EnvFault::BadStack(String::new(alloc)),
        EnvFault::BadValue(String::new(alloc)),
    ];
    for fault in &faults {
        let number = fault.number();
        let name = name_of(fault);
        println!(rt; "{number} {name}")?;
    }
    Ok(())
}

/// Shows the faults, and calls the laws of paths and of stacks, which do nothing.
pub(crate) fn answer(rt: &HostRuntime) -> io::Result<()> {
    laws::paths();
    laws::stacks();
    show_faults(rt)
}
