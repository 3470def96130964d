//! The commands of collections: what is kept, restored, listed, shown and removed.
ghost use Rattle.std.specs.Prelude.{◌≡◌, [], ◌++◌, map, string_bytes, vec_items, IfOk, OnOk};
ghost use Rattle.std.specs.Option.{option_map};
ghost use Rattle.envvars.specs.Texts.{texts_in};
ghost use Rattle.filetree.specs.Agreement.{ReadsOn};
ghost use Rattle.module_collections.specs.files.Calls.{Narrows};
ghost use Rattle.module_words.specs.function.Asked.{command_view};
ghost use Rattle.module_subcommands.specs.Collections as spec;

use crate::after::after_one;
use crate::asking::Asking;
use crate::changing::Accepted;
use crate::editing::{directory_of, judge_modulepath};
use crate::lines::{in_order, lines_of};
use crate::moving::changed;
use crate::refusal::Refusal;
use crate::reply::Reply;
use crate::reporting::{lines_reply, plain_reply};
use crate::site::site_path;
use filetree::Tree;
use module_auto::RequestFault;
use module_collections::files::{
    Storage, find_collection, list_collections, read_bytes, read_collection_file,
    remove_collection, save_collection,
};
use module_restore::{Restored, collection_of, reload, restore};
use module_words::function::AskedCommand;
use module_words::protocol::Place;
use modules::STANDARD_LIMITS;
use std::alloc::{AllocError, Global};

/// The name of a collection: the only word, or `default` without one.
fn collection_name(words: &[String]) -> Option<&str>
    ensures { option_map (λ t. t.now) result ≡ spec.collection_name (map string_bytes words.entry.now) }
{
    match words {
        [] => Some("default"),
        [name] => Some(name.as_str()),
        _ => None,
    }
}

/// The path of the site's own collection.
fn site_collection(alloc: Global, asking: &Asking) -> Result<Option<String>, AllocError>
    ensures { IfOk result (λ found. option_map string_bytes found ≡ spec.site_collection asking.now) }
{
    site_path(alloc, asking.site.called_as.as_deref(), "etc/initial")
}

/// The path of the collection that the words name: a user's, or the site's own.
fn path_of<S: Storage>(
    alloc: Global,
    asking: &Asking,
    words: &[String],
    storage: &mut S,
) -> Result<String, Refusal<'static>>
    ensures narrows { Narrows (S.agrees storage.old) (S.agrees storage.new) }
    ensures found { IfOk result (λ path. spec.IsPlaceAt (S.agrees storage.new) asking.now
        (map string_bytes words.now) (string_bytes path)) }
{
    let site = site_collection(alloc, asking)?;
    let Some(name) = collection_name(words) else {
        return Err(Refusal::BadArguments);
    };
    Ok(find_collection(alloc, storage, &asking.env, site.as_deref(), name)?)
}

/// Refuses words where none are wanted.
fn refuse_words(words: &[String]) -> Result<(), Refusal<'static>>
    ensures { IfOk result (λ u. map string_bytes words.now ≡ []) }
{
    if words.is_empty() {
        Ok(())
    } else {
        Err(Refusal::BadArguments)
    }
}

/// Why a report of collections is empty, where it is.
fn why_none(alloc: Global, lines: &str) -> Result<String, AllocError>
    ensures { IfOk result (λ line. string_bytes line ≡ spec.why_none lines.now) }
{
    if lines.is_empty() {
        return String::from_str(alloc, "No collection is saved.\n");
    }
    Ok(String::new(alloc))
}

/// Reports the names of the collections, or says that there are none.
pub fn list_saved<S: Storage>(
    alloc: Global,
    asking: &Asking,
    place: Place,
    words: &[String],
    storage: &mut S,
) -> Result<Reply, Refusal<'static>>
    ensures narrows { Narrows (S.agrees storage.old) (S.agrees storage.new) }
    ensures listed { IfOk result (spec.ListsSaved (S.agrees storage.new) asking.now place (map string_bytes words.now)) }
{
    refuse_words(words)?;
    let names = in_order(alloc, list_collections(alloc, storage, &asking.env)?)?;
    let lines = lines_of(alloc, names.as_slice())?;
    let aside = why_none(alloc, lines.as_str())?;
    Ok(lines_reply(alloc, aside, place, lines.into_bytes())?)
}

/// The path of a file, and what it has, as a report.
fn with_path(alloc: Global, path: &str, bytes: &[u8]) -> Result<Vec<u8>, AllocError>
    ensures { IfOk result (λ v. vec_items v ≡ spec.with_path path.now bytes.now) }
{
    let mut report = Vec::new(alloc);
    report.extend_from_slice(path.as_bytes())?;
    report.extend_from_slice(b":\n")?;
    report.extend_from_slice(bytes)?;
    Ok(report)
}

/// Reports what is in the file of a collection.
pub fn show_saved<S: Storage>(
    alloc: Global,
    asking: &Asking,
    place: Place,
    words: &[String],
    storage: &mut S,
) -> Result<Reply, Refusal<'static>>
    ensures narrows { Narrows (S.agrees storage.old) (S.agrees storage.new) }
    ensures shown { IfOk result (spec.ShowsSaved (S.agrees storage.new) asking.now place (map string_bytes words.now)) }
{
    let path = path_of(alloc, asking, words, storage)?;
    let name = path.as_str();
    let bytes = read_bytes(alloc, storage, name)?;
    let report = with_path(alloc, name, bytes.as_slice())?;
    Ok(plain_reply(alloc, place, report)?)
}

/// Saves what is loaded, and what is searched without it.
pub fn save_modules<T: Tree, S: Storage>(
    alloc: Global,
    asking: &Asking,
    words: &[String],
    tree: &mut T,
    storage: &mut S,
) -> Result<Reply, Refusal<'static>>
    ensures reads { ReadsOn T.agrees T.failures tree.old tree.new }
    ensures saved { IfOk result (spec.SavesModules (T.agrees tree.new) (S.agrees storage.old) (S.agrees storage.new)
        asking.now (map string_bytes words.now)) }
{
    judge_modulepath(asking)?;
    let Some(name) = collection_name(words) else {
        return Err(Refusal::BadArguments);
    };
    let working = directory_of(alloc, asking)?;
    let (shell, env) = (asking.shell, &asking.env);
    let kept = collection_of(alloc, shell, env, working, tree, STANDARD_LIMITS)?;
    save_collection(alloc, storage, env, name, asking.site.number, &kept)?;
    Ok(Reply::Nothing)
}

/// Removes a collection.
pub fn remove_saved<S: Storage>(
    alloc: Global,
    asking: &Asking,
    words: &[String],
    storage: &mut S,
) -> Result<Reply, Refusal<'static>>
    ensures removed { IfOk result (spec.RemovesSaved (S.agrees storage.old) (S.agrees storage.new) asking.now
        (map string_bytes words.now)) }
{
    let [name] = words else {
        return Err(Refusal::BadArguments);
    };
    remove_collection(alloc, storage, &asking.env, name.as_str())?;
    Ok(Reply::Nothing)
}

/// What a restore or a reload answers, or that it is refused.
fn or_refused(answer: Result<Restored, RequestFault>) -> Result<Restored, Refusal<'static>>
    ensures { IfOk result (λ restored. answer ≡ Ok restored) }
{
    match answer {
        Ok(restored) => Ok(restored),
        Err(fault) => Err(Refusal::Restore(fault)),
    }
}

/// What is answered of a restore or a reload.
fn restored_reply(
    alloc: Global,
    asking: &Asking,
    command: &AskedCommand,
    restored: Restored,
) -> Result<Reply, AllocError>
    ensures { IfOk result (spec.IsRestoredReply asking.now (command_view command.now) restored) }
{
    let Restored {
        text,
        changes,
        messages,
    } = restored;
    let after = after_one(alloc, asking, changes.as_slice(), command)?;
    let accepted = Accepted {
        said: String::new(alloc),
        messages,
        text,
        changes,
    };
    Ok(Reply::Changed(changed(accepted, after, String::new(alloc))))
}

/// Restores a collection.
pub fn restore_saved<T: Tree, S: Storage>(
    alloc: Global,
    asking: &Asking,
    command: &AskedCommand,
    tree: &mut T,
    storage: &mut S,
) -> Result<Reply, Refusal<'static>>
    ensures reads { ReadsOn T.agrees T.failures tree.old tree.new }
    ensures narrows { Narrows (S.agrees storage.old) (S.agrees storage.new) }
    ensures restored { IfOk result (spec.RestoresSaved (T.agrees tree.new) (S.agrees storage.new) asking.now
        (command_view command.now)) }
{
    let words = command.words.as_slice();
    let path = path_of(alloc, asking, words, storage)?;
    let name = path.as_str();
    let kept = read_collection_file(alloc, storage, name)?;
    let (shell, env) = (asking.shell, &asking.env);
    let restored = or_refused(restore(alloc, shell, &kept, env, tree, STANDARD_LIMITS))?;
    Ok(restored_reply(alloc, asking, command, restored)?)
}

/// Unloads all modules and loads them again.
pub fn reload_modules<T: Tree>(
    alloc: Global,
    asking: &Asking,
    command: &AskedCommand,
    tree: &mut T,
) -> Result<Reply, Refusal<'static>>
    ensures reads { ReadsOn T.agrees T.failures tree.old tree.new }
    ensures reloaded { IfOk result (spec.Reloads (T.agrees tree.new) asking.now (command_view command.now)) }
{
    let words = command.words.as_slice();
    refuse_words(words)?;
    let (shell, env) = (asking.shell, &asking.env);
    let restored = or_refused(reload(alloc, shell, env, tree, STANDARD_LIMITS))?;
    Ok(restored_reply(alloc, asking, command, restored)?)
}
