//! What explains that a command was refused.
ghost use Rattle.std.specs.Prelude.{◌≡◌, map, string_bytes, IfOk};
ghost use Rattle.std.specs.Option.{option_map};
ghost use Rattle.envvars.specs.Environment.{lookup};
ghost use Rattle.envvars.specs.Texts.{texts_in};
ghost use Rattle.filetree.specs.Agreement.{ReadsOn};
ghost use Rattle.module_words.specs.function.Asked.{command_view};
ghost use Rattle.module_commands.specs.Explanations as spec;

use envvars::{Env, Vars};
use filetree::Tree;
use module_auto::{refused_load, refused_unload};
use module_explain::{
    Explanation, advice_line, explain, explain_refusal, explain_usage, failed_path, log_line,
    user_lines,
};
use module_reports::listings::ListingFault;
use module_subcommands::exchanging::{env_behind, whole_unload};
use module_subcommands::requesting::request_words;
use module_subcommands::{Asking, Refusal};
use module_words::function::{AskedCommand, FunctionFault, OutputFault, advice_on, moved_names};
use module_words::subcommands::{Subcommand, option_elsewhere};
use modules::{Refusal as RequestRefusal, STANDARD_LIMITS, request};
use shelltext::Shell;
use std::alloc::{AllocError, Global};
use terminal::text::shown;

/// What explains a refusal.
#[derive(Debug, Drop)]
pub(crate) struct Explained {
    /// Lines for standard error.
    pub(crate) lines: String,
    /// A path that can't be read, of which a user is to be told why.
    pub(crate) unreadable: Option<String>,
}

impl Explained {
    /// Nothing.
    pub(crate) fn nothing(alloc: Global) -> Explained
        ensures { spec.explained_view result ≡ spec.nothing }
    {
        Explained {
            lines: String::new(alloc),
            unreadable: None,
        }
    }
}

/// Why a path can't be read, as far as the system says it.
#[derive(Clone, Copy, Debug, PartialEq, Eq)]
pub enum Cause {
    /// It can be, or it has a name that isn't UTF-8.
    Readable,
    /// There is no permission.
    NoPermission,
    /// Another one.
    Unknown,
}

/// What is said of a cause.
fn cause_text(cause: Cause) -> &'static str
    ensures { result.now ≡ spec.cause_text cause }
{
    match cause {
        Cause::Readable => "it is readable now, or a name in it isn't UTF-8",
        Cause::NoPermission => "no permission",
        Cause::Unknown => "the system can't read it",
    }
}

/// The line that tells a user why a path can't be read.
///
/// It fails for want of memory alone.
pub fn cause_line(alloc: Global, path: &str, cause: Cause) -> Result<String, AllocError>
    ensures { IfOk result (λ line. string_bytes line ≡ spec.cause_line path.now cause) }
{
    let mut line = String::from_str(alloc, "  ")?;
    line.push_str(shown(alloc, path)?.as_str())?;
    line.push_str(": ")?;
    line.push_str(cause_text(cause))?;
    line.push('\n')?;
    Ok(line)
}

/// What a user is told: in which line of which file a modulefile failed, and what to do.
fn lines_for_user(alloc: Global, explanation: &Explanation) -> Result<String, AllocError>
    ensures { IfOk result (λ lines. string_bytes lines ≡ spec.lines_for_user explanation.now) }
{
    let mut lines = String::new(alloc);
    if let Some(file) = &explanation.file {
        lines.push_str(user_lines(alloc, file)?.as_str())?;
    }
    if let Some(advice) = &explanation.advice {
        lines.push_str(advice_line(alloc, advice)?.as_str())?;
    }
    Ok(lines)
}

/// What a log has: in which line of which file a modulefile failed, and what to do.
fn lines_for_log(alloc: Global, explanation: &Explanation) -> Result<String, AllocError>
    ensures { IfOk result (λ lines. string_bytes lines ≡ spec.lines_for_log explanation.now) }
{
    let mut lines = String::new(alloc);
    if let Some(file) = &explanation.file {
        lines.push_str(log_line(alloc, file)?.as_str())?;
    }
    if let Some(advice) = &explanation.advice {
        lines.push_str(advice_line(alloc, advice)?.as_str())?;
    }
    Ok(lines)
}

/// What is told of an explanation, to a user or a log.
fn told(alloc: Global, asking: &Asking, explanation: &Explanation) -> Result<Explained, AllocError>
    ensures { IfOk result (λ x. spec.explained_view x
        ≡ spec.told_of asking.now.site.streams.error explanation.now) }
{
    let lines = if asking.site.streams.error {
        lines_for_user(alloc, explanation)?
    } else {
        lines_for_log(alloc, explanation)?
    };
    Ok(Explained {
        lines,
        unreadable: None,
    })
}

/// What is told of a path that can't be read: a user is told why.
fn told_of_path(alloc: Global, asking: &Asking, path: String) -> Result<Explained, AllocError>
    ensures { IfOk result (λ x. spec.explained_view x
        ≡ spec.told_of_path asking.now.site.streams.error (string_bytes path)) }
{
    let mut lines = String::new(alloc);
    if asking.site.streams.error {
        return Ok(Explained {
            lines,
            unreadable: Some(path),
        });
    }
    lines.push_str("  at ")?;
    lines.push_str(path.as_str())?;
    lines.push('\n')?;
    Ok(Explained {
        lines,
        unreadable: None,
    })
}

/// At which path reading failed, where the request of these words is made anew.
fn explained_path<T: Tree + Drop>(
    alloc: Global,
    asking: &Asking,
    env: &Env,
    words: &[String],
    spare: T,
) -> Result<Explained, AllocError>
    ensures { IfOk result (λ x. spec.IsOfPath asking.now.site.streams.error (spec.explained_view x)) }
{
    let Ok(wanted) = request(alloc, asking.shell, words) else {
        return Ok(Explained::nothing(alloc));
    };
    match failed_path(alloc, &wanted, env, spare, STANDARD_LIMITS)? {
        Some(path) => told_of_path(alloc, asking, path),
        None => Ok(Explained::nothing(alloc)),
    }
}

/// Whether the user wants no explanations.
pub(crate) fn is_unwanted(env: &Env) -> bool
    ensures { result ≡ spec.is_unwanted (lookup env.now) }
{
    env.get("MODULECMD_EXPLAIN") == Some("no")
}

/// What explains that the command of these words was refused in an environment, where the user wants that.
pub(crate) fn explain_words<T: Tree + Drop>(
    alloc: Global,
    asking: &Asking,
    env: &Env,
    words: &[String],
    tree: &mut T,
    spare: T,
) -> Result<Explained, AllocError>
    ensures reads { ReadsOn T.agrees T.failures tree.old tree.new }
    ensures explains { IfOk result (λ x. spec.Explains (T.agrees tree.new) asking.now env.now
        (map string_bytes words.now) (spec.explained_view x)) }
{
    if is_unwanted(env) {
        return Ok(Explained::nothing(alloc));
    }
    match explain(alloc, asking.shell, words, env, tree, STANDARD_LIMITS) {
        Ok(explanation) => told(alloc, asking, &explanation),
        Err(_) => explained_path(alloc, asking, env, words, spare),
    }
}

/// What explains a refusal that no request has brought, as that of `help`, where the user wants that.
pub(crate) fn explained_cause<T: Tree>(
    alloc: Global,
    asking: &Asking,
    refusal: &RequestRefusal,
    tree: &mut T,
) -> Result<Explained, AllocError>
    ensures { IfOk result (λ x. spec.ExplainsCause (T.agrees tree.new) asking.now refusal.now
        (spec.explained_view x)) }
{
    let (shell, env) = (asking.shell, &asking.env);
    if is_unwanted(env) {
        return Ok(Explained::nothing(alloc));
    }
    match explain_refusal(alloc, shell, refusal, env, tree, STANDARD_LIMITS) {
        Ok(explanation) => told(alloc, asking, &explanation),
        Err(_) => Ok(Explained::nothing(alloc)),
    }
}

/// What explains that words don't fit a subcommand, where the user wants that.
pub(crate) fn explained_usage(
    alloc: Global,
    asking: &Asking,
    subcommand: Subcommand,
) -> Result<Explained, AllocError>
    ensures { IfOk result (λ x. spec.ExplainsUsage asking.now subcommand (spec.explained_view x)) }
{
    if is_unwanted(&asking.env) {
        return Ok(Explained::nothing(alloc));
    }
    let explanation = explain_usage(alloc, subcommand.name())?;
    told(alloc, asking, &explanation)
}

/// What to type in place of words that mean nothing, where the command is refused for these.
fn advice_behind(refusal: &Refusal<'_>) -> Option<&'static str>
    ensures { option_map (λ t. t.now) result ≡ spec.advice_behind refusal.now }
{
    match refusal {
        Refusal::Function(fault) | Refusal::Output(OutputFault::Refused(fault)) => advice_on(fault),
        Refusal::Listing(ListingFault::NoOption(_, word)) => Some(option_elsewhere(word)),
        _ => None,
    }
}

/// What to type in place of words that mean nothing, as a line, where the user wants that.
pub(crate) fn advised(
    alloc: Global,
    asking: &Asking,
    refusal: &Refusal<'_>,
) -> Result<Explained, AllocError>
    ensures { IfOk result (λ x. spec.explained_view x ≡ spec.told_behind asking.now refusal.now) }
{
    let mut more = Explained::nothing(alloc);
    if is_unwanted(&asking.env) {
        return Ok(more);
    }
    if let Some(line) = advice_behind(refusal) {
        more.lines.push_str(line)?;
        more.lines.push('\n')?;
    }
    Ok(more)
}

/// The names with which an automated load or unload of these ended that was refused in an environment.
fn refused_names<T: Tree>(
    alloc: Global,
    shell: Shell,
    subcommand: Subcommand,
    asked: &[String],
    env: &Env,
    tree: &mut T,
) -> Result<Vec<String>, RequestRefusal>
    ensures reads { ReadsOn T.agrees T.failures tree.old tree.new }
    ensures ends { IfOk result (λ names. spec.EndsWith (T.agrees tree.new) shell env.now subcommand
        (map string_bytes asked.now) (texts_in names)) }
{
    match subcommand {
        Subcommand::Load => refused_load(alloc, shell, asked, env, tree, STANDARD_LIMITS),
        _ => refused_unload(alloc, shell, asked, env, tree, STANDARD_LIMITS),
    }
}

/// The words of the request with which an automated load or unload of these names ended that was refused.
fn automated_words<T: Tree>(
    alloc: Global,
    shell: Shell,
    subcommand: Subcommand,
    asked: &[String],
    env: &Env,
    tree: &mut T,
) -> Result<Vec<String>, Refusal<'static>>
    ensures reads { ReadsOn T.agrees T.failures tree.old tree.new }
    ensures words { IfOk result (λ v. spec.AreAutomatedWords (T.agrees tree.new) shell env.now subcommand
        (map string_bytes asked.now) (texts_in v)) }
{
    let names = refused_names(alloc, shell, subcommand, asked, env, tree)?;
    Ok(request_words(alloc, subcommand, names.as_slice())?)
}

/// The words of the request with which a command ended that was refused in an environment: an automated load or unload has
/// other names than were asked for.
fn refused_words<T: Tree>(
    alloc: Global,
    asking: &Asking,
    env: &Env,
    command: &AskedCommand,
    tree: &mut T,
) -> Result<Vec<String>, Refusal<'static>>
    ensures reads { ReadsOn T.agrees T.failures tree.old tree.new }
    ensures words { IfOk result (λ v. spec.AreRefusedWords (T.agrees tree.new) asking.now env.now
        (command_view command.now) (texts_in v)) }
{
    let subcommand = command.subcommand;
    let words = command.words.as_slice();
    let moved = match moved_names(subcommand, &asking.env, words) {
        Ok(moved) => moved,
        Err(FunctionFault::Word(_)) => return Ok(request_words(alloc, subcommand, words)?),
        Err(_) => return Err(Refusal::OutOfMemory),
    };
    if moved.is_automatic {
        return automated_words(alloc, asking.shell, subcommand, moved.names, env, tree);
    }
    Ok(request_words(alloc, subcommand, words)?)
}

/// What explains that a command which loads, unloads, switches or reports of modules was refused in an environment.
pub(crate) fn explained_move<T: Tree + Drop>(
    alloc: Global,
    asking: &Asking,
    env: &Env,
    command: &AskedCommand,
    tree: &mut T,
    spare: T,
) -> Result<Explained, AllocError>
    ensures { IfOk result (λ x. spec.ExplainsMove (T.agrees tree.new) asking.now env.now
        (command_view command.now) (spec.explained_view x)) }
{
    match refused_words(alloc, asking, env, command, tree) {
        Ok(words) => explain_words(alloc, asking, env, words.as_slice(), tree, spare),
        Err(refusal) => {
            drop(refusal);
            Ok(Explained::nothing(alloc))
        }
    }
}

/// The environment after the unload of an exchange.
fn behind_unload<'a, T: Tree>(
    alloc: Global,
    asking: &Asking,
    unloads: &'a AskedCommand,
    tree: &mut T,
) -> Result<Env, Refusal<'a>> {
    let words = unloads.words.as_slice();
    let moved = moved_names(Subcommand::Unload, &asking.env, words)?;
    let whole = whole_unload(alloc, asking, moved, tree)?;
    env_behind(alloc, asking, whole.names.as_slice(), tree)
}

/// What explains that an exchange was refused: its unload, or the load that follows.
pub(crate) fn explained_exchange<T: Tree + Drop>(
    alloc: Global,
    asking: &Asking,
    unloads: &AskedCommand,
    loads: &AskedCommand,
    tree: &mut T,
    spare: T,
) -> Result<Explained, AllocError> {
    match behind_unload(alloc, asking, unloads, tree) {
        Ok(env) => explained_move(alloc, asking, &env, loads, tree, spare),
        Err(refusal) => {
            drop(refusal);
            explained_move(alloc, asking, &asking.env, unloads, tree, spare)
        }
    }
}
