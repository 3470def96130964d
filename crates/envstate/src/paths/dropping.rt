//! Dropping elements from a path variable in hand (modulefile(5): remove-path).
ghost use Rattle.std.specs.Prelude.{◌≡◌, List, false};
ghost use Rattle.envvars.specs.Texts.{Text, slice_texts};
ghost use Rattle.envstate.specs.paths.Paths.{drop_all};
ghost use Rattle.envstate.specs.paths.Tables.{counter_in, state_from_table, HasCountersOf, HaveSameElements, lowered, kept};

use crate::paths::path::{Counters, Path};

/// The counter at which an element leaves the list when it is dropped.
const LAST_COUNT: u32 = 1;

/// Takes one from the counter of an element, and removes the counter at 0. The result is whether one may be gone.
fn drop_one(counters: &mut Counters<'_>, element: &str) -> bool
    ensures lowered { (x : Text) → counter_in counters.new x ≡ lowered (counter_in counters.old) element.now x }
    ensures one_is_gone { result ≡ false → HaveSameElements (counter_in counters.old) (counter_in counters.new) }
{
    let count = counters.get(element).copied().unwrap_or(0);
    if count <= LAST_COUNT {
        let _ = counters.swap_remove(element);
        return true;
    }
    if let Some(slot) = counters.get_mut(element) {
        *slot = count - 1;
    }
    false
}

/// Takes one from the counter of each element, from the first to the last. The result is whether a counter may be gone.
fn drop_each(counters: &mut Counters<'_>, less: &[&str]) -> bool
    ensures dropped { (xs : List Text) → state_from_table (kept xs (counter_in counters.new)) (counter_in counters.new)
        ≡ drop_all (state_from_table (kept xs (counter_in counters.old)) (counter_in counters.old)) (slice_texts less.now) }
    ensures one_is_gone { result ≡ false → HaveSameElements (counter_in counters.old) (counter_in counters.new) }
{
    let mut one_is_gone = false;
    for element in less {
        one_is_gone |= drop_one(counters, *element);
    }
    one_is_gone
}

/// Retains the elements that have a counter.
fn keep_counted(elements: &mut Vec<&str>, counters: &Counters<'_>)
    ensures { slice_texts elements.new.items ≡ kept (slice_texts elements.old.items) (counter_in counters.now) }
{
    elements.retain(|element| counters.contains_key(*element));
}

/// Drops elements from a path variable that was read.
pub fn drop_from_path(path: &mut Path<'_>, less: &[&str])
    requires { HasCountersOf (slice_texts path.old.elements.items) (counter_in path.old.counters) }
    ensures { state_from_table (slice_texts path.new.elements.items) (counter_in path.new.counters)
        ≡ drop_all (state_from_table (slice_texts path.old.elements.items) (counter_in path.old.counters)) (slice_texts less.now) }
{
    if drop_each(&mut path.counters, less) {
        keep_counted(&mut path.elements, &path.counters);
    }
}
