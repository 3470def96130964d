//! The classes of commands: what is written for each, by its words and what is known of the site.
ghost use Rattle.std.specs.Prelude.{◌≡◌, IfOk, IfSome, IsTrue, ◌∷◌, codes, map};
ghost use Rattle.port_rewriting.specs.Asking.{AreAdded, AreNeeded, AreSomeNeeded, AreUsed, EachStands};
ghost use Rattle.port_rewriting.specs.Asking.{IsAbsolute, IsOneNeeded};
ghost use Rattle.port_rewriting.specs.AskingViews.{AreAskedFor, Asks, AsksNothing, IsAskedBy};
ghost use Rattle.port_rewriting.specs.AskingViews.{IsOfFamily, IsOfFolder, MayAsk, StandsFor};
ghost use Rattle.port_rewriting.specs.RecordViews.{lists_view, records_view, shown, texts_in};

use crate::acceptance::{filled, is_name_read, is_read};
use crate::aliases::{is_folder, script_of};
use crate::class::Class;
use crate::guards::guard_of;
use crate::meanings::{added, any_needed, each_needed, in_family};
use crate::names::{Meaning, Site, folder_of, is_plain, meaning_in};
use crate::reader::Reader;
use crate::records::written;
use crate::rewrite::{Case, Rewrite};
use crate::scopes::{FileKind, Scope};
use crate::symbols::{all_known, full_name, in_place};
use modulefile::{PathEdit, Record};
use std::alloc::AllocError;
use tcltext::chars::is_name;

/// How modules are asked for.
#[derive(Clone, Copy, PartialEq, Eq)]
enum Ask {
    /// They are loaded in this place.
    Load,
    /// They are loaded, if they are there.
    Try,
    /// They have to be loaded.
    Need,
}

/// Whether a part of a path can be written as it is.
fn is_plain_part(part: &str) -> bool {
    match part.strip_prefix(".") {
        Some(rest) => rest.is_empty() || is_plain(rest),
        None => part.is_empty() || is_plain(part),
    }
}

/// Whether a directory can be written as a word of a script, and is the same wherever a shell is.
fn is_directory(word: &str) -> bool
    ensures { IsTrue result → IsAbsolute word.now }
{
    word.starts_with('/') && word.split('/').all(|part| is_plain_part(part))
}

/// Whether a variable is one of the environment, which no command of Tcl changes here.
fn is_of_environment(name: &str) -> bool {
    name == "env" || name.starts_with("env(") || name.starts_with("::env")
}

/// Whether default files of Environment Modules have a command of this name that those here haven't (modulefile(5)).
fn is_of_default_files(name: &str) -> bool {
    matches!(
        name,
        "module-alias" | "module-virtual" | "module-hide" | "module-forbid" | "module-tag"
    )
}

/// Whether one of the records adds a directory that modules are searched in.
fn adds_search(records: &[Record]) -> bool {
    records.iter().any(|record| record
        .added_elements()
        .is_some_and(|added| added.0 == "MODULEPATH"))
}

/// Whether a shell takes something in a value for a home.
fn has_tilde(word: Option<&str>) -> bool {
    word.is_some_and(|value| value.starts_with('~') || value.contains(":~"))
}

impl<'f> Reader<'f> {
    /// The command as it is, which isn't read as it was meant, by what is said.
    fn left(&self, said: &str) -> Result<Rewrite, AllocError>
        ensures { IfOk result AsksNothing }
    {
        Ok(Rewrite::Left(String::from_str(self.alloc, said)?))
    }

    /// The modules of which one is meant by a name that is asked for; none where that can't be written.
    fn asked(&self, name: &str) -> Result<Option<Vec<String>>, AllocError>
        ensures { IfOk result (λ found. IfSome found (λ v. StandsFor self.now.given.site name.now (texts_in v))) }
    {
        match meaning_in(self.alloc, self.given.site, name)? {
            Meaning::Modules(modules) => Ok(Some(modules)),
            Meaning::Same if is_plain(name) => {
                Ok(Some(vec![in self.alloc; String::from_str(self.alloc, name)?]?))
            }
            _ => Ok(None),
        }
    }

    /// Whether a name means a module of the site there.
    fn is_there(&self, name: &str) -> Result<bool, AllocError> {
        let Some(site) = self.given.site else {
            return Ok(false);
        };
        Ok(site.has(name) || matches!(site.meaning(self.alloc, name)?, Meaning::Modules(_)))
    }

    /// Whether a module that is asked for may be missing, or there only for this file.
    fn is_missing(&self, ask: Ask, name: &str) -> Result<bool, AllocError> {
        match (ask, self.given.site) {
            (Ask::Need, _) => Ok(false),
            (Ask::Try, Some(site)) => Ok(site.is_family(name) || !self.is_there(name)?),
            (Ask::Try, None) => Ok(self.has_search),
            (Ask::Load, _) => Ok(self.has_search && !self.is_there(name)?),
        }
    }

    /// What differs where modules are asked for.
    fn case_of(&self, ask: Ask) -> Option<Case> {
        if ask == Ask::Need {
            None
        } else if !self.is_quiet {
            Some(Case::Order)
        } else if ask == Ask::Try && self.given.site.is_none() {
            Some(Case::Absence)
        } else {
            None
        }
    }

    /// For each of some names the modules of which one is asked for; none where that can't be written.
    fn all_asked(&self, ask: Ask, names: &[&str]) -> Result<Option<Vec<Vec<String>>>, AllocError>
        ensures { IfOk result (λ found. IfSome found (λ lists.
            EachStands (StandsFor self.now.given.site) (map shown names.now) (lists_view lists.items))) }
    {
        let mut lists = Vec::new(self.alloc);
        for name in names {
            match self.asked(name)? {
                Some(modules) if !self.is_missing(ask, name)? => lists.push(modules)?,
                _ => return Ok(None),
            }
        }
        Ok(if lists.is_empty() { None } else { Some(lists) })
    }

    /// Commands that leave these records; none where their text would be read in another way.
    fn spell(&self, records: &[Record], case: Option<Case>) -> Result<Option<Rewrite>, AllocError>
        ensures { MayAsk result (λ rs. rs ≡ records_view records.now) }
    {
        let searches = adds_search(records);
        match written(self.alloc, records)? {
            Some(text) => Ok(Some(Rewrite::Commands(text, searches, case))),
            None => Ok(None),
        }
    }

    /// What is written where each of some modules is asked for.
    fn asking(&self, ask: Ask, names: &[&str]) -> Result<Option<Rewrite>, AllocError>
        ensures { MayAsk result (AreNeeded (StandsFor self.now.given.site) (map shown names.now)) }
    {
        let Some(lists) = self.all_asked(ask, names)? else {
            return Ok(None);
        };
        let records = each_needed(self.alloc, lists.as_slice())?;
        self.spell(records.as_slice(), self.case_of(ask))
    }

    /// What is written where one of some modules is asked for.
    fn asking_one(&self, names: &[&str]) -> Result<Option<Rewrite>, AllocError>
        ensures { MayAsk result (IsOneNeeded (StandsFor self.now.given.site) (map shown names.now)) }
    {
        let Some(lists) = self.all_asked(Ask::Need, names)? else {
            return Ok(None);
        };
        let records = any_needed(self.alloc, lists.as_slice())?;
        self.spell(records.as_slice(), None)
    }

    /// What is written where directories are searched.
    fn searching(&self, edit: PathEdit, words: &[&str]) -> Result<Option<Rewrite>, AllocError>
        ensures { MayAsk result (AreAdded edit (map shown words.now)) }
    {
        let mut directories = Vec::new(self.alloc);
        for word in words {
            if !is_directory(word) {
                return Ok(None);
            }
            directories.push(String::from_str(self.alloc, word)?)?;
        }
        if directories.is_empty() {
            return Ok(None);
        }
        let records = added(self.alloc, edit, "MODULEPATH", directories)?;
        self.spell(records.as_slice(), None)
    }

    /// What is written for `module use` with these words.
    fn module_use(&self, words: &[&str]) -> Result<Option<Rewrite>, AllocError>
        ensures { MayAsk result (AreUsed (map shown words.now)) }
    {
        let [option, those @ ..] = words else {
            return Ok(None);
        };
        match *option {
            "-a" | "--append" | "-append" => self.searching(PathEdit::Back, those),
            "-p" | "--prepend" | "-prepend" => self.searching(PathEdit::Front, those),
            _ => self.searching(PathEdit::Front, words),
        }
    }

    /// What is written for the command `module` with these words, which stands at the top or not.
    fn by_module(&self, is_top: bool, words: &[&str]) -> Result<Option<Rewrite>, AllocError>
        ensures { MayAsk result (Asks self.now.given (codes "module" ∷ map shown words.now)) }
    {
        let [name, others @ ..] = words else {
            return Ok(None);
        };
        match *name {
            "load" | "add" if is_top => self.asking(Ask::Load, others),
            "try-load" if is_top => self.asking(Ask::Try, others),
            "use" => self.module_use(others),
            _ => Ok(None),
        }
    }

    /// What is written for a family with these words.
    fn family(&self, words: &[&str]) -> Result<Option<Rewrite>, AllocError>
        ensures { MayAsk result (IsOfFamily self.now.given.site self.now.given.file (map shown words.now)) }
    {
        let (Some(site), Some(file), [name]) = (self.given.site, self.given.file, words) else {
            return Ok(None);
        };
        let module = match folder_of(file.name) {
            "" => file.name,
            folder => folder,
        };
        let is_family = !name.is_empty() && name.bytes().all(|byte| is_name(byte));
        match site.conflicts_of(self.alloc, name, file.name)? {
            Some(conflicts) if is_family && is_plain(module) => {
                let records = in_family(self.alloc, name, module, conflicts)?;
                self.spell(records.as_slice(), None)
            }
            _ => Ok(None),
        }
    }

    /// What is written for an alias with these words, where a folder for its script is given; the script is kept.
    fn alias(&mut self, words: &[&str]) -> Result<Option<Rewrite>, AllocError>
        ensures { MayAsk result (IsOfFolder self.old.given.scripts_folder) }
    {
        let (Some(folder), [name, text]) = (self.given.scripts_folder, words) else {
            return Ok(None);
        };
        match script_of(self.alloc, name, text)? {
            Some(script) if is_folder(folder) && !self.given.is_strict => {
                self.scripts.push(script)?;
                let folders = vec![in self.alloc; String::from_str(self.alloc, folder)?]?;
                let records = added(self.alloc, PathEdit::Front, "PATH", folders)?;
                self.spell(records.as_slice(), Some(Case::Script))
            }
            _ => Ok(None),
        }
    }

    /// What is written for a command of these words, of which the first is this name and the others name modules.
    fn naming(&self, name: &str, words: &[Option<&str>]) -> Result<Rewrite, AllocError>
        ensures { IfOk result AsksNothing }
    {
        let mut texts = Vec::new(self.alloc);
        for (number, word) in words.iter().enumerate() {
            let meaning = match *word {
                Some(word) if number > 0 => meaning_in(self.alloc, self.given.site, word)?,
                None if self.given.site.is_some() => return self.left(name),
                _ => Meaning::Same,
            };
            texts.push(match meaning {
                Meaning::Same => None,
                Meaning::Unknown => return self.left(word.unwrap_or("")),
                Meaning::Modules(modules) => Some(modules.as_slice().join(self.alloc, " ")?),
            })?;
        }
        Ok(if texts.iter().all(|text| text.is_none()) {
            Rewrite::Keep
        } else {
            Rewrite::Words(texts)
        })
    }

    /// What is written for an `if` that only loads modules.
    fn guard(&self, words: &[&str]) -> Result<Option<Rewrite>, AllocError>
        ensures { MayAsk result (AreSomeNeeded (StandsFor self.now.given.site)) }
    {
        match guard_of(self.alloc, words)? {
            Some(loads) => self.asking(Ask::Load, loads.as_slice()),
            None => Ok(None),
        }
    }

    /// What is written for a command that asks for something that other commands say here.
    fn form(&mut self, is_top: bool, words: &[&str]) -> Result<Option<Rewrite>, AllocError>
        ensures { MayAsk result (Asks self.old.given (map shown words.now)) }
    {
        let [name, others @ ..] = words else {
            return Ok(None);
        };
        match *name {
            "depends-on" | "prereq-all" => self.asking(Ask::Need, others),
            "prereq-any" => self.asking_one(others),
            "module" => self.by_module(is_top, others),
            "family" if is_top => self.family(others),
            "set-alias" if is_top => self.alias(others),
            "if" if is_top => self.guard(others),
            _ => Ok(None),
        }
    }

    /// What is written for a command whose words are all known, where it asks for something that other commands say here.
    fn meant(&mut self, scope: Scope, words: &[Option<&str>]) -> Result<Option<Rewrite>, AllocError>
        ensures { MayAsk result (AreAskedFor self.old.given words.now) }
    {
        match all_known(self.alloc, words)? {
            Some(known) if scope.is_statement() => self.form(scope.is_top, known.as_slice()),
            _ => Ok(None),
        }
    }

    /// What is written for a command with an option that isn't read here, where that is the command without it.
    fn without_option(&self, words: &[Option<&str>]) -> Option<Rewrite>
        ensures { IfSome result AsksNothing }
    {
        match words {
            [
                Some("prepend-path" | "append-path"),
                Some("--duplicates"),
                _,
                _,
                ..
            ] => { Some(Rewrite::WithoutOption(Some(Case::Present))) }
            [Some("unsetenv"), Some("--noop-on-unload"), _] => Some(Rewrite::WithoutOption(None)),
            _ => None,
        }
    }

    /// Whether a default that a default file names is taken here: it is there, and of the file's own folder.
    fn is_default_taken(&self, site: &Site, file: &str, version: &str) -> bool {
        let is_known = site.has_module(version) || site.is_symbol(version);
        let is_own = !file.ends_with(".version") && folder_of(version) == folder_of(file);
        is_known && (is_own || self.given.has_defaults)
    }

    /// What isn't read here of the symbols for a name in a default file: a symbol that is the name of a version, and a
    /// default that isn't taken.
    fn unread_symbol<'w>(
        &self,
        name: &str,
        words: &[Option<&'w str>],
    ) -> Result<Option<&'w str>, AllocError> {
        let (Some(site), Some(file)) = (self.given.site, self.given.file) else {
            return Ok(None);
        };
        let version = full_name(self.alloc, folder_of(file.name), name)?;
        let version = version.as_str();
        for word in words {
            let word = word.unwrap_or("");
            let called = in_place(self.alloc, version, word)?;
            let is_taken = word != "default" || self.is_default_taken(site, file.name, version);
            if !is_taken || site.has_module(called.as_str()) {
                return Ok(Some(word));
            }
        }
        Ok(None)
    }

    /// What is written for a symbol of a default file.
    fn symbol(&self, name: &str, words: &[Option<&str>]) -> Result<Rewrite, AllocError>
        ensures { IfOk result AsksNothing }
    {
        match self.unread_symbol(name, words)? {
            Some(said) => self.left(said),
            None => Ok(Rewrite::Keep),
        }
    }

    /// What a command that is read here does otherwise there.
    fn difference(&self, scope: Scope, words: &[Option<&str>]) -> Option<&'static str> {
        match words {
            [Some("return"), ..] if !scope.is_in_procedure => Some("return"),
            [Some("set"), Some(name), _]
            | [
                Some("append" | "lappend" | "incr" | "unset"),
                Some(name),
                ..
            ] if is_of_environment(name) => { Some("env") }
            [Some("prepend-path" | "append-path"), .., Some(":")] => Some(":"),
            [
                Some("setenv" | "pushenv" | "prepend-path" | "append-path"),
                others @ ..,
            ] if others.iter().any(|word| has_tilde(*word)) => { Some("~") }
            _ => None,
        }
    }

    /// Whether a command of these words is read here.
    fn reads(&self, name: &str, words: &[Option<&str>], expands: bool) -> Result<bool, AllocError> {
        if self.procedures.iter().any(|other| *other == name) {
            return Ok(true);
        }
        if expands {
            return Ok(is_name_read(self.given.kind, name));
        }
        let all = filled(self.alloc, words)?;
        is_read(self.alloc, self.given.kind, all.as_slice())
    }

    /// What is written for a command of these words that isn't read here: nothing, where it is to be dropped. Else its name is
    /// said, and the option that isn't read.
    fn unread(&self, name: &str, words: &[Option<&str>]) -> Result<Rewrite, AllocError>
        ensures { IfOk result AsksNothing }
    {
        let is_droppable = self.given.kind == FileKind::Defaults && is_of_default_files(name);
        match words {
            _ if is_droppable && self.given.drops_unread => {
                Ok(Rewrite::Commands(String::new(self.alloc), false, Some(Case::Dropped)))
            }
            [_, Some(option), ..]
                if option.starts_with('-') && is_name_read(self.given.kind, name) => {
                Ok(Rewrite::Left(format!(in self.alloc; "{name} {option}")?))
            }
            _ => self.left(name),
        }
    }

    /// What is written for a command of these words, whatever differs.
    fn rewrite_of(
        &mut self,
        scope: Scope,
        name: &str,
        words: &[Option<&str>],
        expands: bool,
    ) -> Result<Rewrite, AllocError>
        ensures { IfOk result (IsAskedBy (AreAskedFor self.old.given words.now)) }
    {
        if self.given.kind == FileKind::Modulefile && !expands {
            if let Some(rewrite) = self.meant(scope, words)? {
                return Ok(rewrite);
            }
            if let Some(rewrite) = self.without_option(words) {
                return Ok(rewrite);
            }
            match words {
                [Some("prereq"), ..] if scope.is_caught => return self.left(name),
                [Some("conflict" | "prereq" | "is-loaded"), _, ..] => {
                    return self.naming(name, words);
                }
                _ => {}
            }
        }
        if !self.reads(name, words, expands)? {
            return self.unread(name, words);
        }
        if let [Some("module-version"), Some(symbol), others @ ..] = words {
            return self.symbol(symbol, others);
        }
        match self.difference(scope, words) {
            Some(said) => self.left(said),
            None => Ok(Rewrite::Keep),
        }
    }

    /// What is written for a command of this name and these words, in a script that stands there.
    pub(crate) fn classify(
        &mut self,
        scope: Scope,
        name: &str,
        words: &[Option<&str>],
        expands: bool,
    ) -> Result<Rewrite, AllocError>
        // Its commands leave records that the words ask for, unless the command is dropped.
        ensures { IfOk result (IsAskedBy (AreAskedFor self.old.given words.now)) }
    {
        let rewrite = self.rewrite_of(scope, name, words, expands)?;
        if self.given.is_strict && rewrite.class() == Class::Changed {
            return self.left(name);
        }
        Ok(rewrite)
    }
}
