//! What the turns of foreach(n) take.
ghost use Rattle.std.specs.Prelude.{◌≡◌, ◌++◌, map, string_bytes, IfOk, OnOk};
ghost use Rattle.message.specs.Answers.{Gives};
ghost use Rattle.tclvalue.specs.operators.Faults.{reason_of};
ghost use Rattle.tclrules.specs.Rules.{loops, turn_pairs, shortened, are_done};
ghost use Rattle.tclrules.specs.Rules as rules;
ghost use Rattle.tclforms.specs.Views.{pair_texts, texts_of};
ghost use Rattle.tclforms.specs.ArgumentViews.{named_values, remaining_after};
ghost use Rattle.tclforms.specs.Lists.{one_loop};

use crate::items::Items;
use crate::messages::no_loop_variable;
use std::alloc::{AllocError, Global};
use std::marker::Model;
use tclvalue::operators::{ValueFault, elements};

/// The variables and the items in two lists; the first must name one variable at least.
fn items_of(alloc: Global, names: &str, items: &str) -> Result<Items, ValueFault>
    ensures { Gives reason_of (remaining_after 0) result (one_loop (names.now, items.now)) }
{
    let names = elements(alloc, names)?;
    if names.is_empty() {
        return Err(no_loop_variable(alloc));
    }
    let items = elements(alloc, items)?;
    Ok(Items { names, items })
}

/// The items that remain after so many turns.
fn remaining(list: &Items, turns: usize) -> &[String]
    ensures { (texts_of list.entry.now.names.items, texts_of result.now) ≡ remaining_after turns list.entry.now }
{
    let passed = turns.saturating_mul(list.names.len());
    if passed < list.items.len() {
        &list.items[passed..]
    } else {
        &[]
    }
}

/// Appends the variables with the items that they take in a turn; a variable without one takes the empty text.
fn push_pairs<'a>(
    alloc: Global,
    out: &mut Vec<(&'a str, String)>,
    names: &'a [String],
    items: &[String],
) -> Result<(), AllocError>
    ensures { OnOk result (named_values out.new.items
        ≡ named_values out.old.items ++ rules.pairs (map string_bytes names.entry.now) (map string_bytes items.now)) }
{
    let mut items = items.iter();
    for name in names {
        match items.next() {
            Some(item) => out.push((name.as_str(), item.clone()?))?,
            None => out.push((name.as_str(), String::new(alloc)))?,
        }
    }
    Ok(())
}

/// The lists that a foreach goes through, each with its variables and the items that remain.
#[derive(Drop)]
pub struct Loops {
    lists: Vec<Items>,
    turns: usize,
}

impl Model for Loops {
    ghost use Rattle.tclrules.specs.Plans as plans;
    ghost use Rattle.std.specs.Prelude.{List};

    ghost Value = { List plans.Items };

    ghost use Rattle.tclforms.specs.Loops.{loops_view};

    ghost view = { loops_view };
}

impl Loops {
    /// The variables and items of these lists, each given as the text of its variables and that of its items.
    ///
    /// Errors: `TclError` (13) where a text is no list, or a list of variables is empty; `Text` (12) where a list is
    /// too long; `OutOfMemory` (11). They are judged from left to right, the variables of a list before its items.
    pub fn of(alloc: Global, lists: &[(&str, &str)]) -> Result<Loops, ValueFault>
        ensures { Gives reason_of (λ l. l) result (loops (pair_texts lists.now)) }
    {
        let mut read = Vec::new(alloc);
        for (names, items) in lists {
            read.push(items_of(alloc, names, items)?)?;
        }
        Ok(Loops {
            lists: read,
            turns: 0,
        })
    }

    /// Whether no items remain.
    pub fn are_done(&self) -> bool
        ensures { result ≡ are_done self.now }
    {
        for list in &self.lists {
            if !remaining(list, self.turns).is_empty() {
                return false;
            }
        }
        true
    }

    /// The variables of the next turn, each with its item.
    pub fn turn_pairs(&self, alloc: Global) -> Result<Vec<(&str, String)>, AllocError>
        ensures { IfOk result (λ pairs. named_values pairs.items ≡ turn_pairs self.entry.now) }
    {
        let mut pairs = Vec::new(alloc);
        for list in &self.lists {
            push_pairs(alloc, &mut pairs, &list.names, remaining(list, self.turns))?;
        }
        Ok(pairs)
    }

    /// Drops the items of a turn.
    pub fn shorten(&mut self)
        ensures { self.new ≡ shortened self.old }
    {
        self.turns = self.turns.saturating_add(1);
    }
}
