//! The commands whose words are taken as they are: no word is a list, and none is given to more than one operand.
ghost use Rattle.std.specs.Prelude.{map, string_bytes, ◌≡◌};
ghost use Rattle.message.specs.Answers.{Gives};
ghost use Rattle.tclvalue.specs.operators.Faults.{reason_of};
ghost use Rattle.tclrules.specs.Forms.{set_form, after_dashes, unset_form, append_form, lappend_form, incr_form};
ghost use Rattle.tclrules.specs.Forms.{expr_form, while_form, for_form, proc_form, return_form, exit_form, error_form};
ghost use Rattle.tclrules.specs.Forms.{catch_form, exists_form, info_form, to_stderr, without_newline, puts_form};
ghost use Rattle.tclrules.specs.Forms.{without_words};
ghost use Rattle.tclforms.specs.Views.{form_view, texts_of};

use crate::form::{ForLoop, Form, SimpleForm, WhenMissing, WhileLoop};
use std::alloc::Global;
use tclvalue::operators::{ValueFault, unsupported, unsupported_subcommand, wrong_words};

/// `set name ?value?`
pub(crate) fn set_form(alloc: Global, words: &[String]) -> Result<Form<'_>, ValueFault>
    ensures { Gives reason_of form_view result (set_form (map string_bytes words.entry.now)) }
{
    match words {
        [name] => Ok(Form::Simple(SimpleForm::Get(name))),
        [name, value] => Ok(Form::Simple(SimpleForm::Set(name, value))),
        _ => Err(wrong_words(alloc, "set")),
    }
}

/// The words after `--`, where they begin with it; else all.
fn after_dashes(words: &[String]) -> &[String]
    ensures { texts_of result.now ≡ after_dashes (map string_bytes words.entry.now) }
{
    match words {
        [word, rest @ ..] if word.as_str() == "--" => rest,
        _ => words,
    }
}

/// `unset ?-nocomplain? ?--? ?name?...`
pub(crate) fn unset_form(words: &[String]) -> Form<'_>
    ensures { Gives reason_of form_view (Ok result) (unset_form (map string_bytes words.entry.now)) }
{
    match words {
        [word, rest @ ..] if word.as_str() == "-nocomplain" => {
            Form::Simple(SimpleForm::Unset(WhenMissing::Ignored, after_dashes(rest)))
        }
        _ => Form::Simple(SimpleForm::Unset(WhenMissing::IsError, after_dashes(words))),
    }
}

/// `append name ?text?...`
pub(crate) fn append_form(alloc: Global, words: &[String]) -> Result<Form<'_>, ValueFault>
    ensures { Gives reason_of form_view result (append_form (map string_bytes words.entry.now)) }
{
    match words {
        [name, texts @ ..] => Ok(Form::Simple(SimpleForm::Append(name, texts))),
        [] => Err(wrong_words(alloc, "append")),
    }
}

/// `lappend name ?element?...`
pub(crate) fn lappend_form(alloc: Global, words: &[String]) -> Result<Form<'_>, ValueFault>
    ensures { Gives reason_of form_view result (lappend_form (map string_bytes words.entry.now)) }
{
    match words {
        [name, elements @ ..] => Ok(Form::Simple(SimpleForm::ListAppend(name, elements))),
        [] => Err(wrong_words(alloc, "lappend")),
    }
}

/// `incr name ?increment?`, whose number of words is judged after the variable.
pub(crate) fn incr_form(alloc: Global, words: &[String]) -> Result<Form<'_>, ValueFault>
    ensures { Gives reason_of form_view result (incr_form (map string_bytes words.entry.now)) }
{
    match words {
        [name, numbers @ ..] => Ok(Form::Simple(SimpleForm::Increase(name, numbers))),
        [] => Err(wrong_words(alloc, "incr")),
    }
}

/// `expr text ?text?...`
pub(crate) fn expr_form(alloc: Global, words: &[String]) -> Result<Form<'_>, ValueFault>
    ensures { Gives reason_of form_view result (expr_form (map string_bytes words.entry.now)) }
{
    match words {
        [] => Err(wrong_words(alloc, "expr")),
        _ => Ok(Form::Express(words)),
    }
}

/// `while condition body`
pub(crate) fn while_form(alloc: Global, words: &[String]) -> Result<Form<'_>, ValueFault>
    ensures { Gives reason_of form_view result (while_form (map string_bytes words.entry.now)) }
{
    match words {
        [condition, body] => Ok(Form::While(WhileLoop { condition, body })),
        _ => Err(wrong_words(alloc, "while")),
    }
}

/// `for start condition next body`
pub(crate) fn for_form(alloc: Global, words: &[String]) -> Result<Form<'_>, ValueFault>
    ensures { Gives reason_of form_view result (for_form (map string_bytes words.entry.now)) }
{
    match words {
        [start, condition, next, body] => Ok(Form::For(ForLoop {
            start,
            condition,
            next,
            body,
        })),
        _ => Err(wrong_words(alloc, "for")),
    }
}

/// `proc name parameters body`
pub(crate) fn proc_form(alloc: Global, words: &[String]) -> Result<Form<'_>, ValueFault>
    ensures { Gives reason_of form_view result (proc_form (map string_bytes words.entry.now)) }
{
    match words {
        [name, parameters, body] => Ok(Form::Simple(SimpleForm::Define(name, parameters, body))),
        _ => Err(wrong_words(alloc, "proc")),
    }
}

/// `return ?value?`; its options are unsupported.
pub(crate) fn return_form(alloc: Global, words: &[String]) -> Result<Form<'_>, ValueFault>
    ensures { Gives reason_of form_view result (return_form (map string_bytes words.entry.now)) }
{
    match words {
        [] => Ok(Form::Simple(SimpleForm::Return(""))),
        [value] => Ok(Form::Simple(SimpleForm::Return(value))),
        _ => Err(unsupported(alloc, "return")),
    }
}

/// `exit ?code?`, whose code has no effect.
pub(crate) fn exit_form(alloc: Global, words: &[String]) -> Result<Form<'_>, ValueFault>
    ensures { Gives reason_of form_view result (exit_form (map string_bytes words.entry.now)) }
{
    match words {
        [] | [_] => Ok(Form::Simple(SimpleForm::Exit)),
        _ => Err(wrong_words(alloc, "exit")),
    }
}

/// `error message ?info? ?code?`, whose info and code have no effect.
pub(crate) fn error_form(alloc: Global, words: &[String]) -> Result<Form<'_>, ValueFault>
    ensures { Gives reason_of form_view result (error_form (map string_bytes words.entry.now)) }
{
    match words {
        [message] | [message, _] | [message, _, _] => Ok(Form::Simple(SimpleForm::Error(message))),
        _ => Err(wrong_words(alloc, "error")),
    }
}

/// `catch script ?name?`; a third word, for options, is one too many.
pub(crate) fn catch_form(alloc: Global, words: &[String]) -> Result<Form<'_>, ValueFault>
    ensures { Gives reason_of form_view result (catch_form (map string_bytes words.entry.now)) }
{
    match words {
        [script] => Ok(Form::Catch(script, None)),
        [script, name] => Ok(Form::Catch(script, Some(name))),
        _ => Err(wrong_words(alloc, "catch")),
    }
}

/// `info exists name`, from the name on.
fn exists_form(alloc: Global, words: &[String]) -> Result<Form<'_>, ValueFault>
    ensures { Gives reason_of form_view result (exists_form (map string_bytes words.entry.now)) }
{
    match words {
        [name] => Ok(Form::Simple(SimpleForm::Exists(name))),
        _ => Err(wrong_words(alloc, "info")),
    }
}

/// `info exists name`; other subcommands of info(n) are unsupported.
pub(crate) fn info_form(alloc: Global, words: &[String]) -> Result<Form<'_>, ValueFault>
    ensures { Gives reason_of form_view result (info_form (map string_bytes words.entry.now)) }
{
    match words {
        [] => Err(wrong_words(alloc, "info")),
        [subcommand, operands @ ..] if subcommand.as_str() == "exists" => {
            exists_form(alloc, operands)
        }
        [subcommand, ..] => Err(unsupported_subcommand(alloc, "info", subcommand)),
    }
}

/// `puts ?-nonewline? stderr text`; other channels are unsupported.
pub(crate) fn puts_form(alloc: Global, words: &[String]) -> Result<Form<'_>, ValueFault>
    ensures { Gives reason_of form_view result (puts_form (map string_bytes words.entry.now)) }
{
    match words {
        [_] => Err(unsupported(alloc, "puts")),
        [channel, _] => to_stderr(alloc, channel, words),
        [option, channel, _] => without_newline(alloc, option, channel, words),
        _ => Err(wrong_words(alloc, "puts")),
    }
}

/// The form of `puts` with an option before its channel, which has to be `-nonewline`.
fn without_newline<'a>(
    alloc: Global,
    option: &str,
    channel: &str,
    words: &'a [String],
) -> Result<Form<'a>, ValueFault>
    ensures { Gives reason_of form_view result
        (without_newline option.now channel.now (map string_bytes words.entry.now)) }
{
    if option == "-nonewline" {
        to_stderr(alloc, channel, words)
    } else {
        Err(wrong_words(alloc, "puts"))
    }
}

/// The form of `puts` with this channel; any but standard error is unsupported.
fn to_stderr<'a>(alloc: Global, channel: &str, words: &'a [String]) -> Result<Form<'a>, ValueFault>
    ensures { Gives reason_of form_view result (to_stderr channel.now (map string_bytes words.entry.now)) }
{
    if channel == "stderr" {
        Ok(Form::Simple(SimpleForm::Put(words)))
    } else {
        Err(unsupported(alloc, "puts"))
    }
}

/// The form of `break` or `continue`, which take no words.
pub(crate) fn without_words<'a>(
    alloc: Global,
    name: &str,
    form: Form<'a>,
    words: &[String],
) -> Result<Form<'a>, ValueFault>
    ensures { Gives reason_of form_view result (without_words name.now (form_view form.entry)
        (map string_bytes words.now)) }
{
    if words.is_empty() {
        Ok(form)
    } else {
        Err(wrong_words(alloc, name))
    }
}
