//! What modules do and are, and what the program says of itself.
ghost use Rattle.std.specs.Prelude.{◌≡◌, ◌<◌, ◌≤◌, ◌++◌, map, string_bytes, IfErr, IfOk, OnOk};
ghost use Rattle.std.specs.List.{flat_map};
ghost use Rattle.std.specs.Option.{option_map};
ghost use Rattle.envvars.specs.Texts.{texts_in};
ghost use Rattle.filetree.specs.Agreement.{ReadsOn};
ghost use Rattle.module_words.specs.function.Asked.{command_view};
ghost use Rattle.module_reports.specs.descriptions.Views.{help_view};
ghost use Rattle.module_subcommands.specs.Changes.{IsRefusedChange};
ghost use Rattle.module_subcommands.specs.Descriptions as spec;

use crate::asking::Asking;
use crate::refusal::Refusal;
use crate::reply::Reply;
use crate::reporting::{plain_reply, report_reply};
use crate::requesting::{Requested, request_done, request_words};
use crate::site::site_path;
use filetree::Tree;
use filetree::hiding::HidingTree;
use module_reports::descriptions::{HelpText, describe_readable, help};
use module_words::function::AskedCommand;
use module_words::protocol::Place;
use module_words::subcommands::{USAGE, VERSION};
use modules::STANDARD_LIMITS;
use std::alloc::{AllocError, Global};

/// Messages, one after another, and behind them a report.
fn with_messages(alloc: Global, messages: &[String], report: &str) -> Result<String, AllocError>
    ensures { IfOk result (λ text. string_bytes text
        ≡ spec.with_messages (map string_bytes messages.now) report.now) }
{
    let mut text = String::new(alloc);
    for message in messages {
        text.push_str(message.as_str())?;
    }
    text.push_str(report)?;
    Ok(text)
}

/// What a request says.
fn text_of_request(alloc: Global, requested: &Requested) -> Result<String, AllocError>
    ensures { IfOk result (λ text. string_bytes text ≡ spec.with_messages
        (texts_in requested.now.changed.done.messages) (string_bytes requested.now.changed.done.report)) }
{
    let done = &requested.changed.done;
    with_messages(alloc, done.messages.as_slice(), done.report.as_str())
}

/// Reports what modules do, or are.
pub fn report_modules<T: Tree>(
    alloc: Global,
    asking: &Asking,
    place: Place,
    command: &AskedCommand,
    tree: &mut T,
) -> Result<Reply, Refusal<'static>>
    ensures reads { ReadsOn T.agrees T.failures tree.old tree.new }
    ensures reported { IfOk result (spec.ReportsModules (T.agrees tree.new) asking.now place
        (command_view command.now)) }
    ensures refused { IfErr result (IsRefusedChange (T.agrees tree.new) (T.failures tree.old < T.failures tree.new)
        asking.now.shell asking.now.env (spec.DescribingStep asking.now (command_view command.now))) }
{
    let names = command.words.as_slice();
    let words = request_words(alloc, command.subcommand, names)?;
    let all = words.as_slice();
    let requested = request_done(alloc, asking, all, tree)?;
    let text = text_of_request(alloc, &requested)?;
    Ok(plain_reply(alloc, place, text.into_bytes())?)
}

/// A description, and what is left out of it, where something is.
fn with_left_out(text: String, left_out: &str) -> Result<String, AllocError>
    ensures { IfOk result (λ whole. string_bytes whole ≡ spec.with_left_out (string_bytes text) left_out.now) }
{
    let mut whole = text;
    if !left_out.is_empty() {
        whole.push_str("Left out:\n")?;
        whole.push_str(left_out)?;
    }
    Ok(whole)
}

/// Reports what all modules are, or those whose report mentions a text, and which are left out.
pub fn describe_all<T: Tree + Drop>(
    alloc: Global,
    asking: &Asking,
    place: Place,
    sought: Option<&str>,
    tree: &mut HidingTree<T>,
) -> Result<Reply, Refusal<'static>>
    ensures described { IfOk result (spec.DescribesAll (T.agrees tree.new.tree) (T.failed tree.new.tree)
        (T.failures tree.new.tree) asking.now place (option_map (λ t. t.now) sought.entry)) }
{
    let (shell, env) = (asking.shell, &asking.env);
    match describe_readable(alloc, shell, sought, env, tree, STANDARD_LIMITS) {
        Ok(described) => {
            let text = with_left_out(described.text, described.left_out.as_str())?;
            Ok(plain_reply(alloc, place, text.into_bytes())?)
        }
        Err(refusal) => Err(Refusal::Described(refusal)),
    }
}

/// Reports what the modules are whose report mentions the only word.
pub fn describe_sought<T: Tree + Drop>(
    alloc: Global,
    asking: &Asking,
    place: Place,
    words: &[String],
    tree: &mut HidingTree<T>,
) -> Result<Reply, Refusal<'static>>
    ensures described { IfOk result (spec.DescribesSought (T.agrees tree.new.tree) (T.failed tree.new.tree)
        (T.failures tree.new.tree) asking.now place (map string_bytes words.now)) }
{
    let [text] = words else {
        return Err(Refusal::BadArguments);
    };
    describe_all(alloc, asking, place, Some(text.as_str()), tree)
}

/// What the files of modules say of themselves.
#[derive(Drop)]
pub(crate) struct Helped {
    /// What they say, one after another, or what they are.
    pub(crate) text: String,
    /// Whether it says of one of them what it is.
    pub(crate) is_described: bool,
}

/// The text of an answer.
fn text_of(answer: HelpText) -> String
    ensures { string_bytes result ≡ spec.text_of (help_view answer) }
{
    match answer {
        HelpText::Own(text) | HelpText::Described(text) => text,
    }
}

/// Whether an answer says what a module is.
fn is_described(answer: &HelpText) -> bool
    ensures { result ≡ spec.is_described (help_view answer.now) }
{
    match answer {
        HelpText::Own(_) => false,
        HelpText::Described(_) => true,
    }
}

/// An answer in front of others.
fn in_front(answer: HelpText, others: Helped) -> Result<Helped, AllocError>
    ensures { IfOk result (λ h. spec.helped_view h ≡ spec.in_front (help_view answer) (spec.helped_view others)) }
{
    let is_described = is_described(&answer) || others.is_described;
    let mut text = text_of(answer);
    text.push_str(others.text.as_str())?;
    Ok(Helped { text, is_described })
}

/// What the files of the modules that names mean say of themselves, in turn.
fn help_each<T: Tree>(
    alloc: Global,
    asking: &Asking,
    names: &[String],
    tree: &mut T,
) -> Result<Helped, Refusal<'static>>
    ensures reads { ReadsOn T.agrees T.failures tree.old tree.new }
    ensures helped { IfOk result (λ h. spec.HelpsEach (T.agrees tree.new) asking.now.shell asking.now.env
        (map string_bytes names.now) (spec.helped_view h)) }
{
    let [name, rest @ ..] = names else {
        return Ok(Helped {
            text: String::new(alloc),
            is_described: false,
        });
    };
    let (shell, env) = (asking.shell, &asking.env);
    match help(alloc, shell, name.as_str(), env, tree, STANDARD_LIMITS) {
        Ok(answer) => {
            let others = help_each(alloc, asking, rest, tree)?;
            Ok(in_front(answer, others)?)
        }
        Err(refusal) => Err(Refusal::Described(refusal)),
    }
}

/// Where the manual pages of the site are.
fn pages_of(alloc: Global, asking: &Asking) -> Result<Option<String>, AllocError>
    ensures { IfOk result (λ found. option_map string_bytes found ≡ spec.pages_of asking.now) }
{
    site_path(alloc, asking.site.called_as.as_deref(), "share/man")
}

/// Adds where the manual pages are: by these lines, where the site has none.
fn with_pages(text: String, pages: Option<&str>, others: &str) -> Result<String, AllocError>
    ensures { IfOk result (λ whole. string_bytes whole
        ≡ spec.with_pages (string_bytes text) (option_map (λ path. path.now) pages.entry) others.now) }
{
    let mut whole = text;
    let Some(pages) = pages else {
        whole.push_str(others)?;
        return Ok(whole);
    };
    whole.push_str("\n  man -M '")?;
    whole.push_str(pages)?;
    whole.push_str("' module\n  man -M '")?;
    whole.push_str(pages)?;
    whole.push_str("' modulefile\n")?;
    Ok(whole)
}

/// What is said, and where more is, where a module only says what it is.
fn with_more(alloc: Global, asking: &Asking, helped: Helped) -> Result<String, AllocError>
    ensures { IfOk result (λ text. string_bytes text ≡ spec.with_more asking.now (spec.helped_view helped)) }
{
    let mut text = helped.text;
    if !helped.is_described {
        return Ok(text);
    }
    text.push_str("\"module show NAME\" says what a module does. Manual pages:")?;
    let pages = pages_of(alloc, asking)?;
    with_pages(text, pages.as_deref(), "\n  man module\n  man modulefile\n")
}

/// Reports what the files of modules say of themselves, and of those that say nothing what they are; nothing where one
/// of them is refused.
pub fn help_on<T: Tree>(
    alloc: Global,
    asking: &Asking,
    place: Place,
    words: &[String],
    tree: &mut T,
) -> Result<Reply, Refusal<'static>>
    ensures reads { ReadsOn T.agrees T.failures tree.old tree.new }
    ensures helped { IfOk result (spec.HelpsOn (T.agrees tree.new) asking.now place (map string_bytes words.now)) }
{
    let helped = help_each(alloc, asking, words, tree)?;
    let text = with_more(alloc, asking, helped)?;
    Ok(plain_reply(alloc, place, text.into_bytes())?)
}

/// Says how the functions are called, and where their pages are.
pub fn say_usage(alloc: Global, asking: &Asking, place: Place) -> Result<Reply, AllocError>
    ensures { IfOk result (spec.SaysUsage USAGE.now asking.now place) }
{
    let mut text = String::from_str(alloc, USAGE)?;
    text.push_str("\nManual pages:")?;
    let pages = pages_of(alloc, asking)?;
    let text = with_pages(text, pages.as_deref(), " module(1), modulefile(5)\n")?;
    Ok(report_reply(String::new(alloc), place, text.into_bytes()))
}

/// Says which version this is.
pub fn say_version(alloc: Global, place: Place) -> Result<Reply, AllocError>
    ensures { IfOk result (spec.SaysVersion VERSION.now place) }
{
    let mut text = String::from_str(alloc, VERSION)?;
    text.push('\n')?;
    Ok(report_reply(String::new(alloc), place, text.into_bytes()))
}
