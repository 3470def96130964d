//! Pushing a module's value on the stack of a variable, and popping it.
ghost use Rattle.std.specs.Prelude.{◌≡◌, ◌&&◌, map, string_bytes, is_some, if◌then◌else◌, OnOk, OnErr, IfOk, IfErr};
ghost use Rattle.std.specs.List.{list_any};
ghost use Rattle.std.specs.Option.{option_map};
ghost use Rattle.modulename.specs.ModuleName.{is_module_name};
ghost use Rattle.envvars.specs.Names.{is_nul_free, stack_name};
ghost use Rattle.envstate.specs.stacks.Stacks.{is_owner, without_owner, visible, items_or_bottom, push, without_lone_bottom};
ghost use Rattle.envstate.specs.stacks.Stacks.{on_top};
ghost use Rattle.envstate.specs.stacks.StackItems.{item_in, items_of_vec, state_of_borrowed, state_of_owned};
ghost use Rattle.envstate.specs.stacks.StackVariables.{push_reason, pop_reason, with_stack, pushed_value, popped_value};
ghost use Rattle.envvars.specs.Reasons.{Judges, Edits};
ghost use Rattle.envvars.specs.declared.fault.EnvFault.TheVariants.{OutOfMemory};

use crate::stacks::texts::{StackItem, read_stack, stack_text};
use envvars::fields::copy;
use envvars::{EnvFault, Vars, is_nul_free, judge_name, push_change, stack_name};
use modulename::is_module_name;
use std::alloc::{AllocError, Global};

/// Whether a module of this name can push the value.
fn can_push(owner: &str, value: &str) -> bool
    ensures { result ≡ (is_module_name owner.now && is_nul_free value.now) }
{
    is_module_name(owner) && is_nul_free(value)
}

/// Accepts a push by its words alone. The errors are those of the variable's name, then `BadValue` for the module's
/// name or the value.
fn judge_push(alloc: Global, var: &str, owner: &str, value: &str) -> Result<(), EnvFault>
    ensures { Judges result (push_reason var.now owner.now value.now) }
{
    judge_name(alloc, var)?;
    if !can_push(owner, value) {
        return Err(EnvFault::bad_value(alloc, var));
    }
    Ok(())
}

/// Accepts a pop by its words alone. The errors are those of the variable's name, then `BadValue` for the module's
/// name.
fn judge_pop(alloc: Global, var: &str, owner: &str) -> Result<(), EnvFault>
    ensures { Judges result (pop_reason var.now owner.now) }
{
    judge_name(alloc, var)?;
    if !is_module_name(owner) {
        return Err(EnvFault::bad_value(alloc, var));
    }
    Ok(())
}

/// Whether the module pushed the item.
fn is_owned(item: &StackItem, owner: &str) -> bool
    ensures { result ≡ is_owner owner.now (option_map string_bytes item.now.owner) }
{
    match &item.owner {
        Some(name) => owner == name.as_str(),
        None => false,
    }
}

/// Whether the module pushed one of the items.
fn holds(items: &[StackItem], owner: &str) -> bool
    ensures { result ≡ list_any (λ item. is_owner owner.now (option_map string_bytes item.owner)) items.now }
{
    items.iter().any(|item| is_owned(item, owner))
}

/// Whether the module pushed the first item.
fn is_on_top(items: &[StackItem], owner: &str) -> bool
    ensures { result ≡ on_top owner.now (map item_in items.now) }
{
    match items {
        [] => false,
        [top, ..] => is_owned(top, owner),
    }
}

/// Puts the variable's value on the stack as its bottom, where there is no stack yet and the variable is set.
fn make_bottom(
    alloc: Global,
    items: &mut Vec<StackItem>,
    value: Option<&str>,
) -> Result<(), AllocError>
    ensures { OnOk result (items_of_vec items.new ≡ items_or_bottom (items_of_vec items.old)
        (option_map (λ x. x.now) value.entry)) }
{
    if !items.is_empty() {
        return Ok(());
    }
    let Some(value) = value else {
        return Ok(());
    };
    let value = String::from_str(alloc, value)?;
    items.push(StackItem { owner: None, value })?;
    Ok(())
}

/// Removes the module's item.
fn take_out(items: &mut Vec<StackItem>, owner: &str)
    ensures { items_of_vec items.new ≡ without_owner owner.now (items_of_vec items.old) }
{
    items.retain(|item| !is_owned(item, owner));
}

/// The items after a push, where `current` is the variable's value before it.
fn pushed(
    alloc: Global,
    items: Vec<StackItem>,
    current: Option<&str>,
    owner: &str,
    value: &str,
) -> Result<Vec<StackItem>, AllocError>
    ensures { IfOk result (λ v. items_of_vec v
        ≡ (push (state_of_borrowed items current.entry) owner.now value.now).items) }
{
    let mut stack = items;
    make_bottom(alloc, &mut stack, current)?;
    take_out(&mut stack, owner);
    let owner = Some(String::from_str(alloc, owner)?);
    let value = String::from_str(alloc, value)?;
    stack.insert(0, StackItem { owner, value })?;
    Ok(stack)
}

/// The value of the first item, which the variable has.
pub(crate) fn visible(items: &[StackItem]) -> Option<&str>
    ensures { option_map (λ x. x.now) result ≡ visible (map item_in items.entry.now) }
{
    match items {
        [] => None,
        [top, ..] => Some(top.value.as_str()),
    }
}

/// The variable's value after a pop: that of the item which is now first where the popped one was on top, else
/// `current`.
fn value_after(
    alloc: Global,
    was_top: bool,
    items: &[StackItem],
    current: Option<&str>,
) -> Result<Option<String>, AllocError>
    ensures { IfOk result (λ v. option_map string_bytes v
        ≡ (if was_top then visible (map item_in items.now) else option_map (λ x. x.now) current.entry)) }
{
    if was_top {
        copy(alloc, visible(items))
    } else {
        copy(alloc, current)
    }
}

/// Whether a module pushed one of the items.
pub(crate) fn has_owner(items: &[StackItem]) -> bool
    ensures { result ≡ list_any (λ item. is_some item.owner) items.now }
{
    items.iter().any(|item| item.owner.is_some())
}

/// Drops all items where no module pushed one of them: a bottom alone is no stack.
fn drop_lone_bottom(items: &mut Vec<StackItem>)
    ensures { items_of_vec items.new ≡ without_lone_bottom (items_of_vec items.old) }
{
    if !has_owner(items.as_slice()) {
        items.clear();
    }
}

/// Writes a variable and the variable of its stack; neither where memory is refused.
fn write_stack<V: Vars>(
    alloc: Global,
    env: &mut V,
    var: &str,
    value: Option<String>,
    name: &str,
    items: &[StackItem],
) -> Result<(), EnvFault>
    requires { name.now ≡ stack_name var.now }
    ensures ok { OnOk result (V.vars env.new ≡ with_stack (V.vars env.old) var.now (state_of_owned items.now value)) }
    ensures err { OnErr result (V.vars env.new ≡ V.vars env.old) }
    ensures only { IfErr result (λ e. e ≡ OutOfMemory) }
    ensures base { V.base env.new ≡ V.base env.old }
{
    let text = stack_text(alloc, items)?;
    let mut changes = Vec::new(alloc);
    push_change(alloc, &mut changes, var, value)?;
    push_change(alloc, &mut changes, name, text)?;
    env.apply(changes)
}

/// Pushes a value for the module `owner`: the variable takes the value, and an older value of the module leaves the
/// stack (modulefile(5), pushenv). Where there is no stack yet, the variable's value becomes the bottom of the stack.
///
/// The errors, in this order: `BadVariable` where `var` isn't spelled as a variable's name; `Protected` where the
/// variable holds the tool's own state; `BadValue` where the module's name is ill spelled or the value holds NUL;
/// `BadStack` where the text in the variable of the stack, `__MODULES_PUSHENV_` and `var`, can't be read as a stack.
/// `OutOfMemory` can come at any point. After each of these the environment is unchanged.
pub fn push_value<V: Vars>(
    alloc: Global,
    env: &mut V,
    var: &str,
    owner: &str,
    value: &str,
) -> Result<(), EnvFault>
    ensures edits { Edits result (V.vars env.old) (V.vars env.new)
        (pushed_value (V.vars env.old) var.now owner.now value.now) }
    ensures base { V.base env.new ≡ V.base env.old }
{
    judge_push(alloc, var, owner, value)?;
    let name = stack_name(alloc, var)?;
    let Some(items) = read_stack(alloc, env.get(name.as_str()))? else {
        return Err(EnvFault::BadStack(String::from_str(alloc, var)?));
    };
    let stack = pushed(alloc, items, env.get(var), owner, value)?;
    let value = Some(String::from_str(alloc, value)?);
    write_stack(alloc, env, var, value, name.as_str(), stack.as_slice())
}

/// Pops the value of the module `owner`: where it was on top, the variable takes the value that is now first, or is
/// unset. Where the module has no value on the stack, nothing changes.
///
/// The errors are those of `push_value`, in the same order.
pub fn pop_value<V: Vars>(
    alloc: Global,
    env: &mut V,
    var: &str,
    owner: &str,
) -> Result<(), EnvFault>
    ensures edits { Edits result (V.vars env.old) (V.vars env.new) (popped_value (V.vars env.old) var.now owner.now) }
    ensures base { V.base env.new ≡ V.base env.old }
{
    judge_pop(alloc, var, owner)?;
    let name = stack_name(alloc, var)?;
    let Some(items) = read_stack(alloc, env.get(name.as_str()))? else {
        return Err(EnvFault::BadStack(String::from_str(alloc, var)?));
    };
    if !holds(items.as_slice(), owner) {
        return Ok(());
    }
    let was_top = is_on_top(items.as_slice(), owner);
    let mut remaining = items;
    take_out(&mut remaining, owner);
    let value = value_after(alloc, was_top, remaining.as_slice(), env.get(var))?;
    drop_lone_bottom(&mut remaining);
    write_stack(alloc, env, var, value, name.as_str(), remaining.as_slice())
}
