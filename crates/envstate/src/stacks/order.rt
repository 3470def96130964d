//! Whether the stack of a variable is in order.
ghost use Rattle.std.specs.Prelude.{◌≡◌, ◌↔◌, true, map, string_bytes, IfOk, IsTrue};
ghost use Rattle.std.specs.List.{list_all};
ghost use Rattle.std.specs.Option.{option_map};
ghost use Rattle.modulename.specs.ModuleName.{is_module_name};
ghost use Rattle.envvars.specs.Texts.{slice_texts};
ghost use Rattle.envvars.specs.Names.{stack_name};
ghost use Rattle.envstate.specs.stacks.Stacks.{visible};
ghost use Rattle.envstate.specs.stacks.StackItems.{item_in};
ghost use Rattle.envstate.specs.stacks.StackVariables.{is_loaded_owner, IsStackInOrder};
ghost use Rattle.envstate.specs.stacks.StackOrder.{HoldsStack};

use crate::stacks::edits::{has_owner, visible};
use crate::stacks::texts::{StackItem, read_stack, stack_text};
use envvars::{Env, has_value, stack_name};
use std::alloc::{AllocError, Global};

/// Whether the item is of one of the loaded modules, or of none.
fn is_of_loaded(loaded: &[&str], item: &StackItem) -> bool
    ensures { result ≡ is_loaded_owner (slice_texts loaded.now) (option_map string_bytes item.now.owner) }
{
    match &item.owner {
        None => true,
        Some(owner) => loaded.iter().any(|name| *name == owner.as_str()),
    }
}

/// Whether each item is.
fn are_of_loaded(loaded: &[&str], items: &[StackItem]) -> bool
    ensures { result ≡ list_all (λ item. is_loaded_owner (slice_texts loaded.now) item.0) (map item_in items.now) }
{
    items.iter().all(|item| is_of_loaded(loaded, item))
}

/// Whether the two variables have the texts that these items are written as.
fn are_held(
    alloc: Global,
    env: &Env,
    variable: &str,
    stack: &str,
    items: &[StackItem],
) -> Result<bool, AllocError>
    requires { stack.now ≡ stack_name variable.now }
    ensures { IfOk result (λ b. IsTrue b ↔ HoldsStack env.now variable.now
        (record { items = map item_in items.now; value = visible (map item_in items.now) })) }
{
    let text = stack_text(alloc, items)?;
    Ok(has_value(env, variable, visible(items)) && has_value(env, stack, text.as_deref()))
}

/// Whether the stack of a variable is in order: whether there is none, or what its text is read as has an owner, all
/// its owners are among these loaded modules, and it is written as this text and the variable's value.
pub fn is_stack_in_order(
    alloc: Global,
    env: &Env,
    variable: &str,
    loaded: &[&str],
) -> Result<bool, AllocError>
    requires { list_all is_module_name (slice_texts loaded.now) ≡ true }
    ensures { IfOk result (λ b. IsTrue b ↔ IsStackInOrder (slice_texts loaded.now) env.now variable.now) }
{
    let stack = stack_name(alloc, variable)?;
    let Some(text) = env.get(stack.as_str()) else {
        return Ok(true);
    };
    let Some(items) = read_stack(alloc, Some(text))? else {
        return Ok(false);
    };
    if !has_owner(items.as_slice()) || !are_of_loaded(loaded, items.as_slice()) {
        return Ok(false);
    }
    are_held(alloc, env, variable, stack.as_str(), items.as_slice())
}
