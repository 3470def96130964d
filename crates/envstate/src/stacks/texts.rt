//! Reading and writing the text of a stack: elements `module&value`, the newest first, separated by colons.
ghost use Rattle.std.specs.Prelude.{◌≡◌, ◌++◌, [], ◌∷◌, map, string_bytes, IfOk, OnOk};
ghost use Rattle.std.specs.Option.{option_map};
ghost use Rattle.envvars.specs.Escapes.{escaped};
ghost use Rattle.envstate.specs.stacks.StackTexts.{owner_of, item_of, items_of_elements, bottoms_last, owners_of, is_stack};
ghost use Rattle.envstate.specs.stacks.StackTexts.{items_in, owner_text, element_text, stack_text};
ghost use Rattle.envstate.specs.stacks.StackItems.{item_in, items_of_vec};

use envvars::escapes::{push_escaped, unescaped_fields};
use envvars::fields::{are_distinct, slices, text_of_elements};
use std::alloc::{AllocError, Global};

/// A value on a stack, with its owner: the module that pushed it, or none for the bottom, the value from before the
/// first push.
#[derive(Drop)]
pub(crate) struct StackItem {
    pub owner: Option<String>,
    pub value: String,
}

/// The owner that is written before the `&` of an element; none where nothing is.
fn owner_of(alloc: Global, prefix: &str) -> Result<Option<String>, AllocError>
    ensures { IfOk result (λ owner. option_map string_bytes owner ≡ owner_of prefix.now) }
{
    if prefix.is_empty() {
        return Ok(None);
    }
    Ok(Some(String::from_str(alloc, prefix)?))
}

/// The item that an element is read as; none where it has no `&`.
fn item_of(alloc: Global, element: &str) -> Result<Option<StackItem>, AllocError>
    ensures { IfOk result (λ item. option_map item_in item ≡ item_of element.now) }
{
    let Some((prefix, value)) = element.split_once('&') else {
        return Ok(None);
    };
    let owner = owner_of(alloc, prefix)?;
    let value = String::from_str(alloc, value)?;
    Ok(Some(StackItem { owner, value }))
}

/// The items that the elements are read as; none where an element has no `&`.
fn items_of(alloc: Global, elements: &[String]) -> Result<Option<Vec<StackItem>>, AllocError>
    ensures { IfOk result (λ items. option_map items_of_vec items ≡ items_of_elements (map string_bytes elements.now)) }
{
    let mut items = Vec::new(alloc);
    for element in elements {
        let Some(item) = item_of(alloc, element.as_str())? else {
            return Ok(None);
        };
        items.push(item)?;
    }
    Ok(Some(items))
}

/// Whether no item but the last is without an owner.
fn bottoms_last(items: &[StackItem]) -> bool
    ensures { result ≡ bottoms_last (map item_in items.now) }
{
    match items {
        [] => true,
        [others @ .., _] => others.iter().all(|item| item.owner.is_some()),
    }
}

/// Appends the owner of an item, if it has one.
fn push_owner<'a>(owners: &mut Vec<&'a str>, item: &'a StackItem) -> Result<(), AllocError>
    ensures { OnOk result (map (λ x. x.now) owners.new.items
        ≡ map (λ x. x.now) owners.old.items ++ owners_of (item_in item.entry.now ∷ [])) }
{
    let Some(owner) = &item.owner else {
        return Ok(());
    };
    owners.push(owner.as_str())?;
    Ok(())
}

fn owners_of(alloc: Global, items: &[StackItem]) -> Result<Vec<&str>, AllocError>
    ensures { IfOk result (λ v. map (λ x. x.now) v.items ≡ owners_of (map item_in items.now)) }
{
    let mut owners = Vec::new(alloc);
    for item in items {
        push_owner(&mut owners, item)?;
    }
    Ok(owners)
}

/// Whether the items are those of a stack: no item but the last is without an owner, and no owner has two.
fn is_stack(alloc: Global, items: &[StackItem]) -> Result<bool, AllocError>
    ensures { IfOk result (λ b. b ≡ is_stack (map item_in items.now)) }
{
    if !bottoms_last(items) {
        return Ok(false);
    }
    let owners = owners_of(alloc, items)?;
    are_distinct(alloc, owners.as_slice())
}

/// The items that a stack's text is read as, the newest first. An unset text has no item; none is the answer where the
/// text is no stack.
pub(crate) fn read_stack(
    alloc: Global,
    text: Option<&str>,
) -> Result<Option<Vec<StackItem>>, AllocError>
    ensures { IfOk result (λ items. option_map items_of_vec items ≡ items_in (option_map (λ t. t.now) text.entry)) }
{
    let Some(text) = text else {
        return Ok(Some(Vec::new(alloc)));
    };
    let elements = unescaped_fields(alloc, text)?;
    let Some(items) = items_of(alloc, elements.as_slice())? else {
        return Ok(None);
    };
    if is_stack(alloc, items.as_slice())? {
        Ok(Some(items))
    } else {
        Ok(None)
    }
}

/// What is written before the `&` of an element, with escapes: the owner, or nothing.
fn owner_text(alloc: Global, owner: &Option<String>) -> Result<String, AllocError>
    ensures { IfOk result (λ t. string_bytes t ≡ escaped (owner_text (option_map string_bytes owner.now))) }
{
    let mut text = String::new(alloc);
    match owner {
        None => Ok(text),
        Some(owner) => {
            push_escaped(&mut text, owner.as_str())?;
            Ok(text)
        }
    }
}

/// The element of an item, with escapes.
fn element_text(alloc: Global, item: &StackItem) -> Result<String, AllocError>
    ensures { IfOk result (λ t. string_bytes t ≡ escaped (element_text (item_in item.now))) }
{
    let mut text = owner_text(alloc, &item.owner)?;
    text.push('&')?;
    push_escaped(&mut text, item.value.as_str())?;
    Ok(text)
}

/// The text of a stack; none, which unsets its variable, where it has no item.
pub(crate) fn stack_text(alloc: Global, items: &[StackItem]) -> Result<Option<String>, AllocError>
    ensures { IfOk result (λ t. option_map string_bytes t ≡ stack_text (map item_in items.now)) }
{
    let mut elements = Vec::new(alloc);
    for item in items {
        elements.push(element_text(alloc, item)?)?;
    }
    let elements = slices(alloc, elements.as_slice())?;
    text_of_elements(alloc, elements.as_slice())
}
