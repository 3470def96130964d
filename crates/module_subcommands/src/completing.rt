//! Names for completion: `names KIND [TEXT]`, `names at module|ml WORD...`, and `names line`, which is tcsh's. Where
//! something is refused, there are none.
ghost use Rattle.std.specs.Prelude.{◌≡◌, map, string_bytes, IfOk};
ghost use Rattle.std.specs.Option.{option_map};
ghost use Rattle.envvars.specs.Texts.{texts_in};
ghost use Rattle.module_reports.specs.completions.Places as places;
ghost use Rattle.module_subcommands.specs.Completions as spec;
ghost use Rattle.module_subcommands.specs.CompletionViews.{wanted_view};

use crate::asking::Asking;
use crate::lines::in_order;
use envvars::Vars;
use filetree::Tree;
use filetree::hiding::HidingTree;
use module_collections::files::{Storage, list_collections};
use module_reports::completions::{
    Line, NameKind, caller_named, kind_named, kinds_at, names_offered, read_line,
};
use modules::STANDARD_LIMITS;
use std::alloc::{AllocError, Global};

/// The variable in which tcsh hands the line that is typed.
const COMMAND_LINE: &str = "COMMAND_LINE";

/// Of which kinds the names are, and with which text those of modules that can be loaded begin.
#[derive(Drop)]
struct Wanted {
    kinds: Vec<NameKind>,
    word: String,
}

/// What can stand where the last of the words is typed, behind the others of a command of this function.
fn wanted_at(alloc: Global, caller: &str, words: &[String]) -> Result<Option<Wanted>, AllocError>
    ensures { IfOk result (λ w. option_map wanted_view w ≡ spec.wanted_at (places.caller_named caller.now)
        (map string_bytes words.now)) }
{
    let Some(caller) = caller_named(caller) else {
        return Ok(None);
    };
    let [before @ .., word] = words else {
        return Ok(None);
    };
    Ok(Some(Wanted {
        kinds: kinds_at(alloc, caller, before, word.as_str())?,
        word: word.clone()?,
    }))
}

/// What can stand at the end of a line that is typed.
fn wanted_in_line(alloc: Global, line: &str) -> Result<Option<Wanted>, AllocError>
    ensures { IfOk result (λ w. option_map wanted_view w ≡ spec.wanted_in_line line.now) }
{
    let Some(line) = read_line(alloc, line)? else {
        return Ok(None);
    };
    let Line {
        caller,
        before,
        word,
    } = line;
    let kinds = kinds_at(alloc, caller, before.as_slice(), word.as_str())?;
    Ok(Some(Wanted { kinds, word }))
}

/// The names of a kind by its own name.
fn wanted_by_name(alloc: Global, name: &str, words: &[String]) -> Result<Option<Wanted>, AllocError>
    ensures { IfOk result (λ w. option_map wanted_view w
        ≡ spec.wanted_by_name name.now (map string_bytes words.now)) }
{
    let Some(kind) = kind_named(name) else {
        return Ok(None);
    };
    let word = match words {
        [word, ..] => word.as_str(),
        [] => "",
    };
    Ok(Some(Wanted {
        kinds: vec![in alloc; kind]?,
        word: String::from_str(alloc, word)?,
    }))
}

/// What words ask for of which the first isn't `at`.
fn read_others(
    alloc: Global,
    asking: &Asking,
    asked: &str,
    words: &[String],
) -> Result<Option<Wanted>, AllocError>
    ensures { IfOk result (λ w. option_map wanted_view w
        ≡ spec.wanted_behind asking.now asked.now (map string_bytes words.now)) }
{
    if asked == "line" {
        return wanted_in_line(alloc, asking.env.get(COMMAND_LINE).unwrap_or(""));
    }
    wanted_by_name(alloc, asked, words)
}

/// What these words ask for; nothing where they make no sense.
fn read_words(
    alloc: Global,
    asking: &Asking,
    words: &[String],
) -> Result<Option<Wanted>, AllocError>
    ensures { IfOk result (λ w. option_map wanted_view w ≡ spec.wanted_by asking.now (map string_bytes words.now)) }
{
    let [asked, words @ ..] = words else {
        return Ok(None);
    };
    let asked = asked.as_str();
    if asked != "at" {
        return read_others(alloc, asking, asked, words);
    }
    match words {
        [caller, words @ ..] => wanted_at(alloc, caller.as_str(), words),
        [] => Ok(None),
    }
}

/// The names of the collections; none where they can't be listed.
fn collections<S: Storage>(
    alloc: Global,
    asking: &Asking,
    storage: &mut S,
) -> Result<Vec<String>, AllocError>
    ensures { IfOk result (λ names. spec.CollectionNames (S.agrees storage.new) asking.now (texts_in names)) }
{
    match list_collections(alloc, storage, &asking.env) {
        Ok(names) => in_order(alloc, names),
        Err(_) => Ok(Vec::new(alloc)),
    }
}

/// The names of these kinds; none where they can't be listed. Collections stand alone.
fn offered<T: Tree + Drop, S: Storage>(
    alloc: Global,
    asking: &Asking,
    wanted: &Wanted,
    tree: &mut HidingTree<T>,
    storage: &mut S,
) -> Result<Vec<String>, AllocError>
    ensures { IfOk result (λ names. spec.AreOffered (T.agrees tree.new.tree) (T.failed tree.new.tree)
        (T.failures tree.old.tree) (T.failures tree.new.tree) (S.agrees storage.new) asking.now (wanted_view wanted.now)
        (texts_in names)) }
{
    let kinds = wanted.kinds.as_slice();
    if let [NameKind::Collections] = kinds {
        return collections(alloc, asking, storage);
    }
    let word = wanted.word.as_str();
    match names_offered(alloc, kinds, &asking.env, word, tree, STANDARD_LIMITS) {
        Ok(names) => Ok(names),
        Err(_) => Ok(Vec::new(alloc)),
    }
}

/// The names that these words ask for.
pub fn names_for<T: Tree + Drop, S: Storage>(
    alloc: Global,
    asking: &Asking,
    words: &[String],
    tree: &mut HidingTree<T>,
    storage: &mut S,
) -> Result<Vec<String>, AllocError>
    ensures { IfOk result (λ names. spec.OffersIf (T.agrees tree.new.tree) (T.failed tree.new.tree)
        (T.failures tree.old.tree) (T.failures tree.new.tree) (S.agrees storage.new) asking.now
        (spec.wanted_by asking.now (map string_bytes words.now)) (texts_in names)) }
{
    match read_words(alloc, asking, words)? {
        Some(wanted) => offered(alloc, asking, &wanted, tree, storage),
        None => Ok(Vec::new(alloc)),
    }
}
