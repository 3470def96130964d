//! The line that says what to do.
ghost use Rattle.std.specs.Prelude.{◌≡◌, ◌++◌, flat_map, map, IfOk, OnOk, option_map, string_bytes};
ghost use Rattle.module_explain.specs.AdviceLines as spec;
ghost use Rattle.requests.specs.RequestViews.{action_view};

use crate::advice::Advice;
use modules::Action;
use std::alloc::{AllocError, Global};
use terminal::text::shown;

/// Adds names, each behind a space.
fn push_names(text: &mut String, names: &[String]) -> Result<(), AllocError>
    ensures { OnOk result (string_bytes text.new ≡ string_bytes text.old
        ++ flat_map spec.behind_space (map string_bytes names.now)) }
{
    for name in names {
        text.push(' ')?;
        text.push_str(name.as_str())?;
    }
    Ok(())
}

/// Adds a subcommand and its names.
fn push_words(text: &mut String, subcommand: &str, names: &[String]) -> Result<(), AllocError>
    ensures { OnOk result (string_bytes text.new ≡ string_bytes text.old
        ++ spec.words_text subcommand.now (map string_bytes names.now)) }
{
    text.push_str(subcommand)?;
    push_names(text, names)
}

/// Adds the words of a switch.
fn push_switch(text: &mut String, old: &Option<String>, new: &str) -> Result<(), AllocError>
    ensures { OnOk result (string_bytes text.new ≡ string_bytes text.old
        ++ spec.switch_text (option_map string_bytes old.now) new.now) }
{
    text.push_str("switch ")?;
    if let Some(old) = old {
        text.push_str(old.as_str())?;
        text.push(' ')?;
    }
    text.push_str(new)
}

/// Adds the subcommand and the words that ask for an action.
fn push_action(text: &mut String, action: &Action) -> Result<(), AllocError>
    ensures { OnOk result (string_bytes text.new ≡ string_bytes text.old
        ++ spec.action_text (action_view action.now)) }
{
    match action {
        Action::Load(names) => push_words(text, "load", names.as_slice()),
        Action::Unload(names) => push_words(text, "unload", names.as_slice()),
        Action::Switch(old, new) => push_switch(text, old, new.as_str()),
        Action::Purge => text.push_str("purge"),
        Action::List => text.push_str("list"),
        Action::Avail(texts) => push_words(text, "avail", texts.as_slice()),
        Action::Show(names) => push_words(text, "show", names.as_slice()),
        Action::Whatis(names) => push_words(text, "whatis", names.as_slice()),
    }
}

/// Adds the subcommand with its option, the names that were asked for, and what it would do.
fn push_automated(text: &mut String, asked: &[String], action: &Action) -> Result<(), AllocError>
    ensures { OnOk result (string_bytes text.new ≡ string_bytes text.old
        ++ spec.automated_text (map string_bytes asked.now) (action_view action.now)) }
{
    let subcommand = match action {
        Action::Unload(_) => "unload --auto",
        _ => "load --auto",
    };
    push_words(text, subcommand, asked)?;
    text.push_str(" (as ")?;
    push_action(text, action)?;
    text.push(')')
}

/// Adds that an action can be tried.
fn push_try(text: &mut String, action: &Action) -> Result<(), AllocError>
    ensures { OnOk result (string_bytes text.new ≡ string_bytes text.old
        ++ spec.try_text (action_view action.now)) }
{
    text.push_str("Try: module ")?;
    push_action(text, action)?;
    Ok(())
}

/// Adds that what was asked for can be tried with the option `--auto`.
fn push_try_automated(
    text: &mut String,
    asked: &[String],
    action: &Action,
) -> Result<(), AllocError>
    ensures { OnOk result (string_bytes text.new ≡ string_bytes text.old
        ++ spec.try_automated_text (map string_bytes asked.now) (action_view action.now)) }
{
    text.push_str("Try: module ")?;
    push_automated(text, asked, action)?;
    Ok(())
}

/// Adds what to do.
fn push_advice(text: &mut String, advice: &Advice) -> Result<(), AllocError>
    ensures { OnOk result (string_bytes text.new ≡ string_bytes text.old ++ spec.advice_text advice.now) }
{
    match advice {
        Advice::Try(action) => push_try(text, action),
        Advice::TryAutomated { asked, action } => {
            push_try_automated(text, asked.as_slice(), action)
        }
        Advice::Known(line) => text.push_str(line.as_str()),
    }
}

/// The line for a user at a terminal: what to do.
///
/// It fails for want of memory alone.
pub fn advice_line(alloc: Global, advice: &Advice) -> Result<String, AllocError>
    ensures { IfOk result (λ text. string_bytes text ≡ spec.advice_line advice.now) }
{
    let mut text = String::new(alloc);
    push_advice(&mut text, advice)?;
    let mut line = shown(alloc, text.as_str())?;
    line.push('\n')?;
    Ok(line)
}
