//! The words of if(n).
ghost use Rattle.std.specs.Prelude.{◌≡◌, ◌<◌, length, map, string_bytes, IfSome};
ghost use Rattle.std.specs.Option.{option_map};
ghost use Rattle.message.specs.Answers.{Gives};
ghost use Rattle.tclvalue.specs.operators.Faults.{reason_of};
ghost use Rattle.tclrules.specs.Forms.{last_body, last_words, if_form};
ghost use Rattle.tclforms.specs.Views.{form_view, pair_texts, texts_of};
ghost use Rattle.tclforms.specs.Branches.{after_then, first_branch, branch_view, after_elseif, prefixed_pairs, if_of};

use crate::form::Form;
use std::alloc::Global;
use tclvalue::operators::{ValueFault, wrong_words};

/// A condition with its body, and the words after them.
#[derive(Clone, Copy)]
struct Branch<'a> {
    condition: &'a str,
    body: &'a str,
    rest: &'a [String],
}

/// The branch with this condition, from the words after `then` on.
fn after_then<'a>(condition: &'a str, words: &'a [String]) -> Option<Branch<'a>>
    ensures branch { option_map branch_view result
        ≡ after_then condition.entry.now (map string_bytes words.entry.now) }
    ensures shorter { IfSome result (λ b. length b.rest.now < length words.entry.now) }
{
    match words {
        [body, rest @ ..] => Some(Branch {
            condition,
            body,
            rest,
        }),
        [] => None,
    }
}

/// The branch that the words begin with, from its condition on.
fn first_branch(words: &[String]) -> Option<Branch<'_>>
    ensures branch { option_map branch_view result ≡ first_branch (map string_bytes words.entry.now) }
    ensures shorter { IfSome result (λ b. length b.rest.now < length words.entry.now) }
{
    match words {
        [condition, then, rest @ ..] if then.as_str() == "then" => after_then(condition, rest),
        [condition, body, rest @ ..] => Some(Branch {
            condition,
            body,
            rest,
        }),
        _ => None,
    }
}

/// The form with these branches and a last body, which is the one word that remains.
fn last_body<'a>(
    alloc: Global,
    branches: Vec<(&'a str, &'a str)>,
    words: &'a [String],
) -> Result<Form<'a>, ValueFault>
    ensures { Gives reason_of form_view result
        (if_of (prefixed_pairs (pair_texts branches.entry.items) (last_body (map string_bytes words.entry.now)))) }
{
    match words {
        [body] => Ok(Form::If(branches, Some(body))),
        _ => Err(wrong_words(alloc, "if")),
    }
}

/// The form with these branches and then `else` with a last body, or nothing.
fn last_words<'a>(
    alloc: Global,
    branches: Vec<(&'a str, &'a str)>,
    words: &'a [String],
) -> Result<Form<'a>, ValueFault>
    ensures { Gives reason_of form_view result
        (if_of (prefixed_pairs (pair_texts branches.entry.items) (last_words (map string_bytes words.entry.now)))) }
{
    match words {
        [] => Ok(Form::If(branches, None)),
        [word, rest @ ..] if word.as_str() == "else" => last_body(alloc, branches, rest),
        _ => last_body(alloc, branches, words),
    }
}

/// The words after `elseif`, where they begin with it.
fn after_elseif(words: &[String]) -> Option<&[String]>
    ensures rest { option_map (λ ws. texts_of ws.now) result ≡ after_elseif (map string_bytes words.entry.now) }
    ensures shorter { IfSome result (λ ws. length ws.now < length words.entry.now) }
{
    match words {
        [word, rest @ ..] if word.as_str() == "elseif" => Some(rest),
        _ => None,
    }
}

/// `if c ?then? b ?elseif c ?then? b?... ?else? ?b?`
pub(crate) fn if_form(alloc: Global, words: &[String]) -> Result<Form<'_>, ValueFault>
    ensures { Gives reason_of form_view result (if_form (map string_bytes words.entry.now)) }
{
    let mut branches = Vec::new(alloc);
    let mut rest = words;
    while let Some(branch) = first_branch(rest) {
        branches.push((branch.condition, branch.body))?;
        match after_elseif(branch.rest) {
            Some(more) => rest = more,
            None => return last_words(alloc, branches, branch.rest),
        }
    }
    Err(wrong_words(alloc, "if"))
}
