//! Adding elements to a path variable in hand (modulefile(5): prepend-path, append-path).
ghost use Rattle.std.specs.Prelude.{◌≡◌, ◌≤◌, ◌<◌, IfOk, IfErr, IfSome, OnOk};
ghost use Rattle.envvars.specs.Texts.{Text, slice_texts};
ghost use Rattle.envvars.specs.Reasons.{reason_of, counter_full};
ghost use Rattle.envstate.specs.paths.Paths.{largest_counter, add_all, add_front, add_back};
ghost use Rattle.envstate.specs.paths.Tables.{counter_in, count_in, state_from_table, HasCountersOf, raised};
ghost use Rattle.envstate.specs.paths.Tables.{with_new_element};
ghost use Rattle.envstate.specs.paths.PathEdits.{IsFull};

use crate::paths::path::{Counters, Path};
use envvars::EnvFault;
use std::alloc::Global;

/// The end of the list at which elements are added.
#[derive(Clone, Copy, Debug, PartialEq, Eq)]
pub enum End {
    /// Before the first element (prepend-path).
    Front,
    /// After the last element (append-path).
    Back,
}

/// Adds one to the counter of an element, and appends the element to `added` where it had no counter.
fn add_one<'a>(
    alloc: Global,
    var: &str,
    added: &mut Vec<&'a str>,
    counters: &mut Counters<'a>,
    element: &'a str,
) -> Result<(), EnvFault>
    ensures raised { OnOk result ((x : Text) → counter_in counters.new x
        ≡ raised (counter_in counters.old) element.entry.now x) }
    ensures added { OnOk result (slice_texts added.new.items
        ≡ with_new_element (slice_texts added.old.items) (counter_in counters.old) element.entry.now) }
    ensures fits { OnOk result (count_in (counter_in counters.old) element.entry.now < largest_counter) }
    ensures full { IfErr result (λ e. IfSome (reason_of e) (λ r. (r ≡ counter_full var.now)
        × (largest_counter ≤ count_in (counter_in counters.old) element.entry.now))) }
{
    let count = counters.get(element).copied().unwrap_or(0);
    if count == u32::MAX {
        return Err(EnvFault::CounterFull(String::from_str(alloc, var)?));
    }
    if counters.insert(element, count + 1)?.is_none() {
        added.push(element)?;
    }
    Ok(())
}

/// Adds elements after the others, from the first to the last.
fn add_back<'a>(
    alloc: Global,
    var: &str,
    elements: &mut Vec<&'a str>,
    counters: &mut Counters<'a>,
    more: &[&'a str],
) -> Result<(), EnvFault>
    requires table { HasCountersOf (slice_texts elements.old.items) (counter_in counters.old) }
    requires fits { (x : Text) → count_in (counter_in counters.old) x ≤ largest_counter }
    ensures ok { OnOk result (state_from_table (slice_texts elements.new.items) (counter_in counters.new)
        ≡ add_back (state_from_table (slice_texts elements.old.items) (counter_in counters.old)) (slice_texts more.now)) }
    ensures still_fits { OnOk result ((x : Text) → count_in (counter_in counters.new) x ≤ largest_counter) }
    ensures full { IfErr result (λ e. IsFull e var.now (add_back (state_from_table (slice_texts elements.old.items)
        (counter_in counters.old)) (slice_texts more.now))) }
{
    for element in more {
        add_one(alloc, var, elements, counters, *element)?;
    }
    Ok(())
}

/// Adds elements before the others, from the last to the first, so that they end in the order in which they are given.
fn add_front<'a>(
    alloc: Global,
    var: &str,
    elements: &[&'a str],
    counters: &mut Counters<'a>,
    more: &[&'a str],
) -> Result<Vec<&'a str>, EnvFault>
    requires table { HasCountersOf (slice_texts elements.now) (counter_in counters.old) }
    requires fits { (x : Text) → count_in (counter_in counters.old) x ≤ largest_counter }
    ensures ok { IfOk result (λ v. state_from_table (slice_texts v.items) (counter_in counters.new)
        ≡ add_front (state_from_table (slice_texts elements.now) (counter_in counters.old)) (slice_texts more.now)) }
    ensures still_fits { OnOk result ((x : Text) → count_in (counter_in counters.new) x ≤ largest_counter) }
    ensures full { IfErr result (λ e. IsFull e var.now (add_front (state_from_table (slice_texts elements.now)
        (counter_in counters.old)) (slice_texts more.now))) }
{
    let mut front = Vec::new(alloc);
    for element in more.iter().rev() {
        add_one(alloc, var, &mut front, counters, *element)?;
    }
    front.reverse();
    front.extend_from_slice(elements)?;
    Ok(front)
}

/// Adds elements at an end of a path variable that was read.
pub fn add_each<'a>(
    alloc: Global,
    var: &str,
    path: &mut Path<'a>,
    more: &[&'a str],
    end: End,
) -> Result<(), EnvFault>
    requires table { HasCountersOf (slice_texts path.old.elements.items) (counter_in path.old.counters) }
    requires fits { (x : Text) → count_in (counter_in path.old.counters) x ≤ largest_counter }
    ensures ok { OnOk result (state_from_table (slice_texts path.new.elements.items) (counter_in path.new.counters)
        ≡ add_all (state_from_table (slice_texts path.old.elements.items) (counter_in path.old.counters)) (slice_texts more.now) end) }
    ensures still_fits { OnOk result ((x : Text) → count_in (counter_in path.new.counters) x ≤ largest_counter) }
    ensures full { IfErr result (λ e. IsFull e var.now (add_all (state_from_table (slice_texts path.old.elements.items)
        (counter_in path.old.counters)) (slice_texts more.now) end)) }
{
    match end {
        End::Front => {
            let counters = &mut path.counters;
            path.elements = add_front(alloc, var, path.elements.as_slice(), counters, more)?;
            Ok(())
        }
        End::Back => add_back(alloc, var, &mut path.elements, &mut path.counters, more),
    }
}
