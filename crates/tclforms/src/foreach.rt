//! The words of foreach(n).
ghost use Rattle.std.specs.Prelude.{map, string_bytes};
ghost use Rattle.message.specs.Answers.{Gives};
ghost use Rattle.tclvalue.specs.operators.Faults.{reason_of};
ghost use Rattle.tclrules.specs.Forms.{foreach_form};
ghost use Rattle.tclforms.specs.Views.{form_view};

use crate::form::Form;
use std::alloc::Global;
use tclvalue::operators::{ValueFault, wrong_words};

/// `foreach names list ?names list?... body`
pub(crate) fn foreach_form(alloc: Global, words: &[String]) -> Result<Form<'_>, ValueFault>
    ensures { Gives reason_of form_view result (foreach_form (map string_bytes words.entry.now)) }
{
    let mut pairs = Vec::new(alloc);
    let mut rest = words;
    while let [names, list, after @ ..] = rest {
        pairs.push((names.as_str(), list.as_str()))?;
        if let [body] = after {
            return Ok(Form::Foreach(pairs, body));
        }
        rest = after;
    }
    Err(wrong_words(alloc, "foreach"))
}
