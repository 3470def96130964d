//! Variables by name, in the order of their making: the global ones, or those of one procedure.
ghost use Rattle.std.specs.Prelude.{◌≡◌, ◌<◌, true, None, Ok, OnOk, OnErr, IfOk, IfSome, option_map, bytes_eq};
ghost use Rattle.std.specs.Prelude.{string_bytes};
ghost use Rattle.std.specs.Fmt.{signed_decimal};
ghost use Rattle.tcltext.specs.chars.Numerals.{numeral};
ghost use Rattle.tcltext.specs.declared.chars.number.Numeral.TheVariants.{Whole};
ghost use Rattle.tclrules.specs.Promise as promise;
ghost use Rattle.tclrules.specs.Rules.{increased};
ghost use Rattle.indexmap.specs.IndexMap.{index_of_by, index_map_len};
ghost use Rattle.tcltext.specs.chars.Runs.{Text};
ghost use Rattle.tclrules.specs.Variables.{lookup, store, without};
ghost use Rattle.tclforms.specs.variables.Contents.{HoldsList, IsIncreased};
ghost use Rattle.tclforms.specs.variables.Views.{texts_of};

use crate::variables::content::Content;
use indexmap::IndexMap;
use itoa::Buffer;
use std::alloc::{AllocError, Global};
use std::mem;
use tclvalue::operators::sum;

/// Variables by name.
pub(crate) type Table = IndexMap<String, Content>;

/// Up to so many variables are looked through one by one: comparing a few names takes less than hashing one.
const FEW: usize = 4;

/// The place of a variable in the order.
#[inline(always)]
fn place_of(table: &Table, name: &str) -> Option<usize>
    ensures place { result ≡ index_of_by (λ k. bytes_eq name.now (string_bytes k)) table.now }
    ensures within { IfSome result (λ i. i < index_map_len table.now) }
{
    if table.len() <= FEW {
        table.keys().position(|key| name == key.as_str())
    } else {
        hashed_place(table, name)
    }
}

/// The place of a variable in the order, by the hash of its name. It is kept out of `place_of`, which is to be short.
#[inline(never)]
fn hashed_place(table: &Table, name: &str) -> Option<usize>
    ensures place { result ≡ index_of_by (λ k. bytes_eq name.now (string_bytes k)) table.now }
    ensures within { IfSome result (λ i. i < index_map_len table.now) }
{
    table.get_index_of(name)
}

/// What a variable holds.
#[inline(always)]
pub(crate) fn content_in<'a>(table: &'a Table, name: &str) -> Option<&'a Content>
    ensures { option_map (λ c. c.now) result ≡ lookup (texts_of table.now.entries) name.now }
{
    match place_of(table, name) {
        None => None,
        Some(index) => Some(&table[index]),
    }
}

/// The text of a variable.
pub(crate) fn text_in<'a>(table: &'a Table, name: &str) -> Option<&'a str>
    ensures { option_map (λ v. v.now) result ≡ lookup (texts_of table.now.entries) name.now }
{
    match content_in(table, name) {
        None => None,
        Some(content) => Some(content.as_str()),
    }
}

/// Whether a variable is known to hold the text of a list, as list(n) writes it.
pub(crate) fn holds_list(table: &Table, name: &str) -> bool
    ensures { result ≡ true → HoldsList (lookup (texts_of table.now.entries) name.now) }
{
    match content_in(table, name) {
        None => false,
        Some(content) => content.is_list(),
    }
}

/// Takes the text of a variable, which holds the empty text until it is put again, so that the text can grow without a
/// copy.
pub(crate) fn take(table: &mut Table, alloc: Global, name: &str) -> Option<String>
    ensures value { option_map string_bytes result ≡ lookup (texts_of table.old.entries) name.now }
    ensures given_back { (t : Text) → store (texts_of table.new.entries) name.now t
        ≡ store (texts_of table.old.entries) name.now t }
{
    match place_of(table, name) {
        None => None,
        Some(index) => {
            let content = mem::replace(&mut table[index], Content::of_text(String::new(alloc)));
            Some(content.into_text())
        }
    }
}

/// Gives a variable what it is to hold; one that is set stays where it is in the order.
pub(crate) fn put(
    table: &mut Table,
    alloc: Global,
    name: &str,
    content: Content,
) -> Result<(), AllocError>
    ensures ok { OnOk result (texts_of table.new.entries ≡ store (texts_of table.old.entries) name.now content) }
    ensures err { OnErr result (texts_of table.new.entries ≡ texts_of table.old.entries) }
{
    match place_of(table, name) {
        Some(index) => table[index] = content,
        None => {
            let _ = table.insert(String::from_str(alloc, name)?, content)?;
        }
    }
    Ok(())
}

/// The number that a sum is known to be where its decimal digits are read: one that isn't negative.
fn known_number(sum: i64) -> Option<i64>
    ensures { IfSome result (λ n. numeral (signed_decimal sum) ≡ Whole n) }
{
    if sum < 0 { None } else { Some(sum) }
}

/// The sum of the whole number that a variable holds and another; None where it holds none, or the sum lies outside 64
/// bits.
fn sum_of(content: &Content, amount: i64) -> Option<i64>
    ensures { IfSome result (λ total. (n : Text) → numeral n ≡ Whole amount
        → increased content.now n ≡ Ok (signed_decimal total)) }
{
    match sum(content.whole_number()?, amount) {
        Ok(total) => Some(total),
        Err(_) => None,
    }
}

/// Adds a whole number to that which a variable holds, in the memory of its text, and gives the sum. None, and nothing is
/// changed, where the variable is unset or holds none, or where the sum lies outside 64 bits or has more bytes than
/// `limit`.
///
/// Errors: memory runs out; then the value is lost.
pub(crate) fn increase(
    table: &mut Table,
    name: &str,
    amount: i64,
    limit: usize,
) -> Result<Option<i64>, AllocError>
    ensures sum { IfOk result (λ made. IfSome made (λ total.
        IsIncreased (lookup (texts_of table.old.entries) name.now) amount limit (signed_decimal total)
        × (texts_of table.new.entries ≡ store (texts_of table.old.entries) name.now (signed_decimal total)))) }
    ensures same { IfOk result (λ made. made ≡ None → texts_of table.new.entries ≡ texts_of table.old.entries) }
{
    let Some(index) = place_of(table, name) else {
        return Ok(None);
    };
    let Some(sum) = sum_of(&table[index], amount) else {
        return Ok(None);
    };
    let mut buffer = Buffer::new();
    let text = buffer.format(sum);
    if text.len() > limit {
        return Ok(None);
    }
    table[index].overwrite(text, known_number(sum))?;
    Ok(Some(sum))
}

/// Unsets a variable, if it is set.
pub(crate) fn remove(table: &mut Table, name: &str)
    ensures { texts_of table.new.entries ≡ without (texts_of table.old.entries) name.now }
{
    let _ = table.shift_remove(name);
}

/// The variables with their texts, in the order of their making.
pub(crate) fn into_texts(alloc: Global, table: Table) -> Result<Vec<(String, String)>, AllocError>
    ensures { IfOk result (λ texts. promise.texts_of texts.items ≡ texts_of table.entries) }
{
    let mut texts = Vec::new(alloc);
    for (name, content) in table {
        texts.push((name, content.into_text()))?;
    }
    Ok(texts)
}
