//! The core commands by their names (the page of each), but those that take values alone.
ghost use Rattle.std.specs.Prelude.{map, string_bytes};
ghost use Rattle.std.specs.Option.{option_map};
ghost use Rattle.message.specs.Answers.{Gives};
ghost use Rattle.tclvalue.specs.operators.Faults.{reason_of};
ghost use Rattle.tclrules.specs.Forms.{core_form};
ghost use Rattle.tclforms.specs.Views.{form_view, transposed};

use crate::conditional::if_form;
use crate::foreach::foreach_form;
use crate::form::{Form, SimpleForm};
use crate::switch::switch_form;
use crate::words::{
    append_form, catch_form, error_form, exit_form, expr_form, for_form, incr_form, info_form,
    lappend_form, proc_form, puts_form, return_form, set_form, unset_form, while_form,
    without_words,
};
use std::alloc::Global;
use tclvalue::operators::ValueFault;

/// The form of a core command, by its name and the words after it; None for another name.
///
/// Errors, as far as the words alone show them. `TclError` (13): a wrong number of words, a bad option, patterns that
/// are no list or whose last body is missing. `LeftOut` (19): what is unsupported. `Text` (12): a list that is too
/// long. `OutOfMemory` (11).
#[tactic(auto, unfolding(tclrules::specs::Forms::core_form))]
pub fn core_form<'a>(
    alloc: Global,
    name: &str,
    words: &'a [String],
) -> Result<Option<Form<'a>>, ValueFault>
    ensures { Gives reason_of (option_map form_view) result
        (transposed (core_form name.now (map string_bytes words.entry.now))) }
{
    match name {
        "set" => set_form(alloc, words).map(Some),
        "unset" => Ok(Some(unset_form(words))),
        "append" => append_form(alloc, words).map(Some),
        "lappend" => lappend_form(alloc, words).map(Some),
        "incr" => incr_form(alloc, words).map(Some),
        "expr" => expr_form(alloc, words).map(Some),
        "if" => if_form(alloc, words).map(Some),
        "while" => while_form(alloc, words).map(Some),
        "for" => for_form(alloc, words).map(Some),
        "foreach" => foreach_form(alloc, words).map(Some),
        "switch" => switch_form(alloc, words).map(Some),
        "proc" => proc_form(alloc, words).map(Some),
        "return" => return_form(alloc, words).map(Some),
        "break" => without_words(alloc, "break", Form::Simple(SimpleForm::Break), words).map(Some),
        "continue" => without_words(
            alloc,
            "continue",
            Form::Simple(SimpleForm::Continue),
            words,
        ).map(Some),
        "exit" => exit_form(alloc, words).map(Some),
        "error" => error_form(alloc, words).map(Some),
        "catch" => catch_form(alloc, words).map(Some),
        "info" => info_form(alloc, words).map(Some),
        "global" => Ok(Some(Form::Simple(SimpleForm::Global(words)))),
        "puts" => puts_form(alloc, words).map(Some),
        _ => Ok(None),
    }
}
