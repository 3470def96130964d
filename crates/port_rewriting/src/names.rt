//! What names mean among the modules of a site: there, by versions, symbols and families; and here.
ghost use Rattle.std.specs.Prelude.{◌≡◌, ◌≢◌, IfOk, IfSome, IsTrue, OnOk, true, map, string_bytes};
ghost use Rattle.tcltext.specs.chars.Runs.{Text};
ghost use Rattle.modulename.specs.ModuleName as module_name;
ghost use Rattle.port_rewriting.specs.AskingViews as views;
ghost use Rattle.port_rewriting.specs.AskingViews.{IsMet, MeansIn, MeansSo};
ghost use Rattle.port_rewriting.specs.Families as spec;
ghost use Rattle.port_rewriting.specs.Families.{ExcludesOthers};
ghost use Rattle.port_rewriting.specs.FamilyViews.{is_in_family};
ghost use Rattle.port_rewriting.specs.RecordViews.{texts_in};

use crate::symbols::VersionSymbol;
use modulename::{is_module_name, means};
use port_constants::is_bare;
use std::alloc::{AllocError, Global};
use tcltext::chars::is_name;

/// A module that is in a family.
#[derive(Debug, Drop)]
pub struct Member {
    /// The family.
    pub family: String,
    /// The module, with its version.
    pub own: String,
    /// Whether it is in the family each time that it is loaded.
    pub is_sure: bool,
}

/// What the files of a site say of its modules.
#[derive(Debug, Drop)]
pub struct Site {
    /// The modules, with their versions, in order.
    pub modules: Vec<String>,
    /// The version symbols, of which the first of a name counts.
    pub symbols: Vec<VersionSymbol>,
    /// The members of families.
    pub members: Vec<Member>,
    /// Whether a file may be in families whose names aren't known.
    pub has_unknown_families: bool,
}

/// What a name means.
#[derive(Debug, Drop)]
pub(crate) enum Meaning {
    /// The same here and there.
    Same,
    /// These modules, with their versions.
    Modules(Vec<String>),
    /// What can't be said by names.
    Unknown,
}

/// Whether a name can be written as a word of a script.
pub(crate) fn is_plain(name: &str) -> bool {
    is_bare(name) && name.bytes().next().is_some_and(|first| is_name(first))
}

/// Whether a word is more than a name, as one with versions, ranges or variants.
fn is_specification(word: &str) -> bool {
    let is_marked = word.starts_with('+') || word.starts_with('-') || word.starts_with('~');
    word.is_empty() || is_marked || word.contains('@') || word.contains('=') || word.ends_with('/')
}

/// Whether a name is said to mean another version, without a file that says so.
fn is_implicit(name: &str) -> bool {
    name.ends_with("/default") || name.ends_with("/latest")
}

/// Whether a version is a part of another, up to a point.
fn is_part(name: &str, called: &str) -> bool {
    match called.strip_prefix(name) {
        Some(rest) => rest.starts_with('.') && name.contains('/'),
        None => false,
    }
}

/// Whether a name means there what is called so: it, what is below it, and the versions that it is a part of.
fn means_there(name: &str, called: &str) -> bool
    ensures { module_name.means name.now called.now ≡ true → IsTrue result }
{
    means(name, called) || is_part(name, called)
}

/// The folder of a module, which is empty at the top.
pub fn folder_of(module: &str) -> &str {
    module.rsplit_once('/').map_or("", |parts| parts.0)
}

/// Whether a text is one of some.
pub(crate) fn is_among(texts: &[String], text: &str) -> bool {
    texts.iter().any(|other| other.as_str() == text)
}

/// Whether one of the names means a module.
fn is_excluded(names: &[String], own: &str) -> bool
    ensures { result ≡ spec.is_excluded names.now own.now }
{
    names.iter().any(|name| means(name.as_str(), own))
}

/// Adds a name, unless one that is there means it.
#[tactic(auto, using(crate::proofs::Excluding::still, crate::proofs::Excluding::by_itself))]
fn add_once(alloc: Global, names: &mut Vec<String>, name: &str) -> Result<(), AllocError>
    ensures kept { OnOk result ((x : Text) → spec.is_excluded names.old.items x ≡ true
        → spec.is_excluded names.new.items x ≡ true) }
    ensures there { OnOk result (spec.is_excluded names.new.items name.now ≡ true) }
{
    if !is_excluded(names.as_slice(), name) {
        names.push(String::from_str(alloc, name)?)?;
    }
    Ok(())
}

impl Site {
    /// One of which nothing is known.
    pub fn new(alloc: Global) -> Site {
        Site {
            modules: Vec::new(alloc),
            symbols: Vec::new(alloc),
            members: Vec::new(alloc),
            has_unknown_families: false,
        }
    }

    /// What a name is said to mean, where it is a symbol.
    fn said_of(&self, name: &str) -> Option<&str> {
        self.symbols
            .iter()
            .find(|symbol| symbol.name.as_str() == name)
            .map(|symbol| symbol.version.as_str())
    }

    /// What a symbol means, maybe by other symbols.
    fn version_of<'s>(&'s self, name: &'s str) -> &'s str {
        let mut version = name;
        for _ in 0..self.symbols.len() {
            match self.said_of(version) {
                Some(other) => version = other,
                None => break,
            }
        }
        version
    }

    /// Whether a name means a module there by a symbol.
    fn is_symbol_for(&self, name: &str, module: &str) -> bool {
        self.symbols.iter().any(|symbol| {
            means_there(name, symbol.name.as_str())
                && self.version_of(symbol.name.as_str()) == module
        })
    }

    /// Whether a name means a module there as the name of a family.
    fn is_family_of(&self, name: &str, own: &str) -> bool
        ensures { result ≡ is_in_family self.now.members.items name.now own.now }
    {
        self.members.iter().any(|member| member.own.as_str() == own
            && member.family.as_str() == name)
    }

    /// Whether a name means a module there.
    fn is_meant(&self, name: &str, own: &str) -> bool
        ensures { views.is_meant self.now name.now own.now ≡ true → IsTrue result }
    {
        means_there(name, own) || self.is_symbol_for(name, own) || self.is_family_of(name, own)
    }

    /// Whether a module has this whole name.
    pub(crate) fn has_module(&self, name: &str) -> bool {
        is_among(self.modules.as_slice(), name)
    }

    /// Whether a module is directly in the folder of a name.
    pub fn has_version(&self, folder: &str) -> bool {
        self.modules
            .iter()
            .any(|module| folder_of(module.as_str()) == folder)
    }

    /// Whether a default file says what a name means.
    pub(crate) fn is_symbol(&self, name: &str) -> bool {
        self.said_of(name).is_some()
    }

    /// Whether one of the modules is meant here by a name.
    pub(crate) fn has(&self, name: &str) -> bool {
        self.modules
            .iter()
            .any(|module| means(name, module.as_str()))
    }

    /// Whether a name is that of a family, and of no module: a search doesn't find it.
    pub(crate) fn is_family(&self, name: &str) -> bool {
        !self.has(name)
            && self
                .members
                .iter()
                .any(|member| member.family.as_str() == name)
    }

    /// Whether a name may be that of a family whose members aren't all known.
    fn is_unsure(&self, name: &str) -> bool {
        self.members.iter().any(|member| member.family.as_str() == name
            && (self.has_unknown_families || !member.is_sure))
    }

    /// The modules that a name means there, with those of other directories that symbols mean.
    fn meant(&self, alloc: Global, name: &str) -> Result<Vec<String>, AllocError>
        ensures { IfOk result (λ v. IsMet self.now name.now (spec.is_excluded v.items)) }
    {
        let mut meant = Vec::new(alloc);
        for own in &self.modules {
            if self.is_meant(name, own.as_str()) {
                add_once(alloc, &mut meant, own.as_str())?;
            }
        }
        for symbol in &self.symbols {
            if means_there(name, symbol.name.as_str()) {
                add_once(alloc, &mut meant, self.version_of(symbol.name.as_str()))?;
            }
        }
        Ok(meant)
    }

    /// Whether a name means the same modules here and there.
    fn is_same(&self, name: &str) -> bool
        ensures { IsTrue result → IsMet self.now name.now (module_name.means name.now) }
    {
        for own in &self.modules {
            if self.is_meant(name, own.as_str()) && !means(name, own.as_str()) {
                return false;
            }
        }
        self.symbols.iter().all(|symbol| {
            let symbol = symbol.name.as_str();
            !means_there(name, symbol) || means(name, self.version_of(symbol))
        })
    }

    /// What a word means that names modules.
    pub(crate) fn meaning(&self, alloc: Global, word: &str) -> Result<Meaning, AllocError>
        ensures { IfOk result (MeansSo self.now word.now) }
    {
        if is_specification(word) || self.is_unsure(word) {
            return Ok(Meaning::Unknown);
        }
        let is_same = self.is_same(word);
        if is_same && (self.has(word) || !is_implicit(word)) {
            return Ok(Meaning::Same);
        }
        let meant = self.meant(alloc, word)?;
        if !is_same && !meant.is_empty() && meant.iter().all(|own| is_plain(own.as_str())) {
            Ok(Meaning::Modules(meant))
        } else {
            Ok(Meaning::Unknown)
        }
    }

    /// Whether a member of a family is in conflict with a module: another member, or one of the family's name.
    fn is_in_conflict(&self, family: &str, own: &str, other: &str) -> bool
        ensures { other.now ≢ own.now → is_in_family self.now.members.items family.now other.now ≡ true
            → IsTrue result }
    {
        other != own && (means(family, other) || self.is_family_of(family, other))
    }

    /// Whether all that is below a folder is in conflict with a member of a family, or is it.
    fn are_in_conflict(&self, family: &str, own: &str, folder: &str) -> bool {
        self.modules.iter().all(|module| {
            let module = module.as_str();
            !means(folder, module) || module == own || self.is_in_conflict(family, own, module)
        })
    }

    /// The name by which a module in conflict with a member of a family is excluded: that of its folder, where all below that
    /// are in conflict too, or its own.
    fn conflict_name<'m>(&self, family: &str, own: &str, other: &'m str) -> &'m str {
        match other.rsplit_once('/') {
            Some((folder, _)) if self.are_in_conflict(family, own, folder) => folder,
            _ => other,
        }
    }

    /// Adds a name by which a module is excluded, where it is in conflict with a member of a family; false where none can
    /// be written.
    #[tactic(auto, using(crate::proofs::Excluding::still, crate::proofs::Excluding::by_last))]
    fn exclude(
        &self,
        alloc: Global,
        names: &mut Vec<String>,
        family: &str,
        own: &str,
        other: &str,
    ) -> Result<bool, AllocError>
        ensures kept { OnOk result ((x : Text) → spec.is_excluded names.old.items x ≡ true
            → spec.is_excluded names.new.items x ≡ true) }
        ensures excluded { IfOk result (λ b. IsTrue b → other.now ≢ own.now
            → is_in_family self.now.members.items family.now other.now ≡ true
            → spec.is_excluded names.new.items other.now ≡ true) }
    {
        if !self.is_in_conflict(family, own, other) || is_excluded(names.as_slice(), other) {
            return Ok(true);
        }
        let name = self.conflict_name(family, own, other);
        if !is_plain(name) || !means(name, other) {
            return Ok(false);
        }
        names.push(String::from_str(alloc, name)?)?;
        Ok(true)
    }

    /// The names that a member of a family is in conflict with; none where not all is known.
    pub(crate) fn conflicts_of(
        &self,
        alloc: Global,
        family: &str,
        own: &str,
    ) -> Result<Option<Vec<String>>, AllocError>
        // Each other member is excluded by one of them.
        ensures { IfOk result (λ found. IfSome found (λ names. ExcludesOthers
            (is_in_family self.now.members.items family.now) (texts_in self.now.modules) own.now names.items)) }
    {
        let mut names = Vec::new(alloc);
        if self.is_unsure(family) {
            return Ok(None);
        }
        for other in &self.modules {
            if !self.exclude(alloc, &mut names, family, own, other.as_str())? {
                return Ok(None);
            }
        }
        Ok(Some(names))
    }
}

/// What a word means that names modules, in a site where one is known.
pub(crate) fn meaning_in(
    alloc: Global,
    site: Option<&Site>,
    word: &str,
) -> Result<Meaning, AllocError>
    ensures { IfOk result (MeansIn site.entry word.now) }
{
    match site {
        _ if !is_module_name(word) => Ok(Meaning::Unknown),
        Some(site) => site.meaning(alloc, word),
        None if is_specification(word) || is_implicit(word) => Ok(Meaning::Unknown),
        None => Ok(Meaning::Same),
    }
}
