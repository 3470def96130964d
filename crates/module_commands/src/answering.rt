//! The answer to all words: what is written where, and the status.
ghost use Rattle.std.specs.Prelude.{◌≡◌, None, map, string_bytes, IfOk};
ghost use Rattle.module_words.specs.function.Asked.{command_view};
ghost use Rattle.module_commands.specs.Answers as spec;
ghost use Rattle.module_commands.specs.Scripts as scripts;
ghost use Rattle.module_commands.specs.Explanations.{explained_view, told_behind};

use crate::command::answer_of;
use crate::explaining::{
    Explained, advised, explained_cause, explained_exchange, explained_move, explained_usage,
};
use crate::forgetting::with_way_out;
use crate::scripts::answer_script;
use filetree::Tree;
use filetree::hiding::HidingTree;
use module_collections::files::Storage;
use module_reports::listings::ListingFault;
use module_subcommands::exchanging::exchange_modules;
use module_subcommands::reply::{Reply, hints_of, own_line, status_of, writings_of};
use module_subcommands::{Asking, Refusal, Writing, error_line};
use module_words::function::{Asked, AskedCommand, FunctionFault, OutputFault, asked_for};
use module_words::protocol::{Asker, ScriptWord, refusal_status, script_word};
use module_words::subcommands::{USAGE, VERSION};
use std::alloc::{AllocError, Global};

/// The answer to a command.
#[derive(Debug, Drop)]
pub struct Answer {
    /// What is written, in turn. A refused command has nothing here.
    pub writes: Vec<Writing>,
    /// Whether it isn't said where something of that can't be written.
    pub is_quiet: bool,
    /// What goes to standard error after that, whether or not it can be written.
    pub lines: String,
    /// A path that can't be read. A user is told why, after all else.
    pub unreadable: Option<String>,
    /// The status of the process.
    pub status: u8,
}

/// The line that says why a command is refused, as standard error shows it.
///
/// It fails for want of memory alone.
pub fn refusal_line(
    alloc: Global,
    is_terminal: bool,
    refusal: &Refusal<'_>,
) -> Result<String, AllocError>
    ensures { IfOk result (λ line. string_bytes line ≡ spec.refusal_line is_terminal refusal.now) }
{
    own_line(alloc, is_terminal, error_line(alloc, refusal)?)
}

/// The answer to a command that is accepted.
pub(crate) fn accepted(alloc: Global, asking: &Asking, reply: Reply) -> Result<Answer, AllocError>
    ensures { IfOk result (λ a. spec.answer_view a ≡ spec.accepted asking.now reply) }
{
    let status = status_of(asking, &reply);
    let lines = String::from_str(alloc, hints_of(&reply))?;
    Ok(Answer {
        writes: writings_of(alloc, asking, reply)?,
        is_quiet: false,
        lines,
        unreadable: None,
        status,
    })
}

/// The answer to a command that is refused, with what explains it.
pub(crate) fn refused(
    alloc: Global,
    asking: &Asking,
    refusal: &Refusal<'_>,
    more: Explained,
) -> Result<Answer, AllocError>
    ensures { IfOk result (λ a. spec.answer_view a ≡ spec.refused asking.now refusal.now (explained_view more)) }
{
    let mut lines = refusal_line(alloc, asking.site.streams.error, refusal)?;
    lines.push_str(more.lines.as_str())?;
    Ok(Answer {
        writes: Vec::new(alloc),
        is_quiet: false,
        lines,
        unreadable: more.unreadable,
        status: refusal_status(asking.shell, asking.asker),
    })
}

/// The answer to a refused command, whose reason is followed by advice on its words.
fn refused_with_advice(
    alloc: Global,
    asking: &Asking,
    refusal: &Refusal<'_>,
) -> Result<Answer, AllocError>
    ensures { IfOk result (λ a. spec.answer_view a ≡ spec.refused asking.now refusal.now
        (told_behind asking.now refusal.now)) }
{
    let more = advised(alloc, asking, refusal)?;
    refused(alloc, asking, refusal, more)
}

/// The answer to words that mean nothing: why, and then what to type here.
fn refused_words(
    alloc: Global,
    asking: &Asking,
    fault: FunctionFault<'_>,
) -> Result<Answer, AllocError>
    ensures { IfOk result (λ a. spec.answer_view a ≡ spec.refused_words asking.now fault.entry) }
{
    let refusal = Refusal::Function(fault);
    let answer = refused_with_advice(alloc, asking, &refusal);
    drop(refusal);
    answer
}

/// What explains a refusal, where that could be found.
fn if_found(alloc: Global, found: Result<Explained, AllocError>) -> Explained {
    match found {
        Ok(explained) => explained,
        Err(_) => Explained::nothing(alloc),
    }
}

/// The answer to a command that is refused, with what explains it, and the way out behind that where there is one.
fn refused_with_way_out<T: Tree>(
    alloc: Global,
    asking: &Asking,
    refusal: &Refusal<'_>,
    explained: Explained,
    tree: &mut T,
) -> Result<Answer, AllocError>
    ensures { IfOk result (λ a. spec.IsRefused asking.now (spec.answer_view a)) }
{
    let more = with_way_out(alloc, asking, refusal, explained, tree)?;
    refused(alloc, asking, refusal, more)
}

/// Whether the words of a command don't fit the subcommand.
fn are_bad_arguments(fault: &FunctionFault<'_>) -> bool {
    match fault {
        FunctionFault::BadArguments => true,
        _ => false,
    }
}

/// Whether a command is refused since its words don't fit the subcommand.
fn is_by_arguments(refusal: &Refusal<'_>) -> bool {
    match refusal {
        Refusal::BadArguments | Refusal::Listing(ListingFault::BadArguments) => true,
        Refusal::Function(fault) | Refusal::Output(OutputFault::Refused(fault)) => {
            are_bad_arguments(fault)
        }
        _ => false,
    }
}

/// What explains a refusal of a command whose words fit the subcommand.
fn explained_reason<T: Tree + Drop>(
    alloc: Global,
    asking: &Asking,
    command: &AskedCommand,
    refusal: &Refusal<'_>,
    tree: &mut T,
    spare: T,
) -> Result<Explained, AllocError> {
    match refusal {
        Refusal::Requested(_) => {
            explained_move(alloc, asking, &asking.env, command, tree, spare)
        }
        Refusal::Described(cause) => explained_cause(alloc, asking, cause, tree),
        _ => advised(alloc, asking, refusal),
    }
}

/// What explains why a command is refused.
fn explained_refusal<T: Tree + Drop>(
    alloc: Global,
    asking: &Asking,
    command: &AskedCommand,
    refusal: &Refusal<'_>,
    tree: &mut T,
    spare: T,
) -> Explained {
    let found = if is_by_arguments(refusal) {
        explained_usage(alloc, asking, command.subcommand)
    } else {
        explained_reason(alloc, asking, command, refusal, tree, spare)
    };
    if_found(alloc, found)
}

/// What explains why an unload and a load are refused.
fn explained_refusals<T: Tree + Drop>(
    alloc: Global,
    asking: &Asking,
    unloads: &AskedCommand,
    loads: &AskedCommand,
    refusal: &Refusal<'_>,
    tree: &mut T,
    spare: T,
) -> Explained {
    let found = match refusal {
        Refusal::Requested(_) => { explained_exchange(alloc, asking, unloads, loads, tree, spare) }
        _ => advised(alloc, asking, refusal),
    };
    if_found(alloc, found)
}

/// The answer to a command. If it is refused, what explains that follows the reason.
fn answer_command<T: Tree + Drop, S: Storage>(
    alloc: Global,
    asking: &Asking,
    command: &AskedCommand,
    tree: &mut T,
    readable: &mut HidingTree<T>,
    storage: &mut S,
    spare: T,
) -> Result<Answer, AllocError>
    ensures { IfOk result (λ a. spec.WritesCommand (T.agrees tree.new) (T.agrees readable.new.tree)
        (T.failed readable.new.tree) (T.failures readable.old.tree) (T.failures readable.new.tree)
        (S.agrees storage.old) (S.agrees storage.new) USAGE.now VERSION.now asking.now
        (command_view command.now) (spec.answer_view a)) }
{
    match answer_of(alloc, asking, command, tree, readable, storage) {
        Ok(reply) => accepted(alloc, asking, reply),
        Err(refusal) => {
            let more = explained_refusal(alloc, asking, command, &refusal, tree, spare);
            let answer = refused_with_way_out(alloc, asking, &refusal, more, tree);
            drop(refusal);
            answer
        }
    }
}

/// The answer to an unload and a load. If these are refused, what explains that follows the reason.
fn answer_exchange<T: Tree + Drop>(
    alloc: Global,
    asking: &Asking,
    unloads: &AskedCommand,
    loads: &AskedCommand,
    tree: &mut T,
    spare: T,
) -> Result<Answer, AllocError>
    ensures { IfOk result (λ a. spec.WritesExchange (T.agrees tree.new) asking.now (command_view unloads.now)
        (command_view loads.now) (spec.answer_view a)) }
{
    match exchange_modules(alloc, asking, unloads, loads, tree) {
        Ok(reply) => accepted(alloc, asking, reply),
        Err(refusal) => {
            let more = explained_refusals(alloc, asking, unloads, loads, &refusal, tree, spare);
            let answer = refused_with_way_out(alloc, asking, &refusal, more, tree);
            drop(refusal);
            answer
        }
    }
}

/// What a script asks for by its first word, where that is one of its own.
fn word_of_script(asker: Asker, words: &[String]) -> Option<ScriptWord>
    ensures { result ≡ scripts.word_of_script asker (map string_bytes words.now) }
{
    match (asker, words) {
        (Asker::Script, [word, ..]) => script_word(word.as_str()),
        _ => None,
    }
}

/// The answer to the words of a function.
fn answer_words<T: Tree + Drop, S: Storage>(
    alloc: Global,
    asking: &Asking,
    words: &[String],
    tree: &mut T,
    readable: &mut HidingTree<T>,
    storage: &mut S,
    spare: T,
) -> Result<Answer, AllocError>
    ensures { IfOk result (λ a. spec.WritesWords (T.agrees tree.new) (T.agrees readable.new.tree)
        (T.failed readable.new.tree) (T.failures readable.old.tree) (T.failures readable.new.tree)
        (S.agrees storage.old) (S.agrees storage.new) USAGE.now VERSION.now asking.now
        (map string_bytes words.now) (spec.answer_view a)) }
{
    match asked_for(alloc, words) {
        Ok(Asked::One(command)) => answer_command(
            alloc, asking, &command, tree, readable, storage, spare,
        ),
        Ok(Asked::Exchange { unloads, loads }) => {
            answer_exchange(alloc, asking, &unloads, &loads, tree, spare)
        }
        Err(fault) => refused_words(alloc, asking, fault),
    }
}

/// The answer to the words of a function, or of a script. The spare tree, of which nothing was read, is for what explains
/// that reading failed.
///
/// It fails for want of memory alone.
pub fn answer_to<T: Tree + Drop, S: Storage>(
    alloc: Global,
    asking: &Asking,
    words: &[String],
    tree: &mut T,
    readable: &mut HidingTree<T>,
    storage: &mut S,
    spare: T,
) -> Result<Answer, AllocError>
    ensures { scripts.word_of_script asking.now.asker (map string_bytes words.now) ≡ None
        → IfOk result (λ a. spec.WritesWords (T.agrees tree.new) (T.agrees readable.new.tree)
        (T.failed readable.new.tree) (T.failures readable.old.tree) (T.failures readable.new.tree)
        (S.agrees storage.old) (S.agrees storage.new) USAGE.now VERSION.now asking.now
        (map string_bytes words.now) (spec.answer_view a)) }
{
    match (word_of_script(asking.asker, words), words) {
        (Some(word), [_, rest @ ..]) => {
            answer_script(alloc, asking, word, rest, tree, readable, storage, spare)
        }
        _ => answer_words(alloc, asking, words, tree, readable, storage, spare),
    }
}
