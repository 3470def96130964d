//! What the words of a command line ask for.

use crate::fault::PortFault;
use crate::named_values::{Named, NamedValues};
use std::alloc::Global;

/// What is translated, and where it is written.
#[derive(Debug, Drop)]
pub(crate) enum PortTarget {
    /// How the program is called is said.
    Help,
    /// Standard input, to standard output.
    Stdin,
    /// The file at this path, to standard output.
    File(String),
    /// The files below these paths.
    Trees(Vec<TreePaths>),
}

/// A directory whose files are translated.
#[derive(Debug, Drop)]
pub(crate) struct TreePaths {
    /// Its path.
    pub from: String,
    /// The path that they are written below; none where nothing is written but the report.
    pub to: Option<String>,
}

/// What options ask for.
#[derive(Debug, Drop)]
pub(crate) struct PortOptions {
    help: bool,
    stdin: bool,
    check: bool,
    /// Whether each line of the report is JSON.
    pub json: bool,
    /// Whether each modulefile is to be in conflict with its own name.
    pub one_version: bool,
    /// Whether scripts are written for aliases.
    pub alias_scripts: bool,
    /// Whether commands of default files that aren't read here are dropped.
    pub drop_unread: bool,
    /// Whether a command is left where something would differ.
    pub strict: bool,
    /// What is said of the host that the modulefiles are for.
    pub host: NamedValues,
    /// What is said of the person in whose environment modulefiles were loaded.
    pub kept: NamedValues,
    /// The path of what was loaded.
    pub records: Option<String>,
    /// The path of a list of defaults.
    pub defaults: Option<String>,
}

/// Sets a path that isn't there yet.
///
/// The errors: want of memory; one is there.
fn set_once(path: &mut Option<String>, word: String) -> Result<(), PortFault> {
    match path.replace(word) {
        Some(_) => Err(PortFault::Usage),
        None => Ok(()),
    }
}

impl PortOptions {
    /// Those of a command line without options.
    fn new(alloc: Global) -> PortOptions {
        PortOptions {
            help: false,
            stdin: false,
            check: false,
            json: false,
            one_version: false,
            alias_scripts: false,
            drop_unread: false,
            strict: false,
            host: NamedValues::new(alloc),
            kept: NamedValues::new(alloc),
            records: None,
            defaults: None,
        }
    }

    /// Adds an option; true where a word is to follow.
    ///
    /// The error: there is no such option.
    fn add(&mut self, word: &str) -> Result<bool, PortFault> {
        match word {
            "--help" => self.help = true,
            "--stdin" => self.stdin = true,
            "--check" => self.check = true,
            "--json" => self.json = true,
            "--one-version" => self.one_version = true,
            "--alias-scripts" => self.alias_scripts = true,
            "--drop-unread" => self.drop_unread = true,
            "--strict" => self.strict = true,
            "--host" | "--kept" | "--flatten" | "--defaults" => return Ok(true),
            _ => return Err(PortFault::Usage),
        }
        Ok(false)
    }

    /// Adds the word behind an option.
    ///
    /// The errors: want of memory; it says nothing, or what is said already.
    fn add_word(&mut self, alloc: Global, option: &str, word: String) -> Result<(), PortFault> {
        match option {
            "--host" => self.host.add(alloc, Named::Host, word.as_str()),
            "--kept" => self.kept.add(alloc, Named::Person, word.as_str()),
            "--flatten" => set_once(&mut self.records, word),
            _ => set_once(&mut self.defaults, word),
        }
    }

    /// What is translated, with these paths.
    fn target(&self, alloc: Global, mut paths: Vec<String>) -> Result<PortTarget, PortFault> {
        if self.records.is_none() && !self.kept.said.is_empty() {
            return Err(PortFault::Usage);
        }
        if self.help {
            return Ok(PortTarget::Help);
        }
        let is_of_trees = self.one_version
            || self.alias_scripts
            || self.drop_unread
            || self.defaults.is_some();
        match (self.stdin, self.check, paths.len()) {
            (true, false, 0) if !is_of_trees => Ok(PortTarget::Stdin),
            (false, false, 1) if !is_of_trees => match paths.pop() {
                Some(path) => Ok(PortTarget::File(path)),
                None => Err(PortFault::Usage),
            },
            (false, true, 1) => trees(alloc, paths, true),
            (false, check, count) if count > 0 && count % 2 == 0 => trees(alloc, paths, check),
            _ => Err(PortFault::Usage),
        }
    }
}

/// The trees of paths that are read and written in turn, or are only read.
fn trees(alloc: Global, paths: Vec<String>, is_check: bool) -> Result<PortTarget, PortFault> {
    let mut trees = Vec::new(alloc);
    let count = paths.len();
    let mut paths = paths.into_iter();
    for _ in 0..count {
        if let Some(from) = paths.next() {
            let to = paths.next().filter(|_| !is_check);
            trees.push(TreePaths { from, to })?;
        }
    }
    Ok(PortTarget::Trees(trees))
}

/// What the words of a command line ask for.
///
/// The errors: want of memory; they ask for nothing that the program does.
pub(crate) fn asked_for(
    alloc: Global,
    words: Vec<String>,
) -> Result<(PortTarget, PortOptions), PortFault> {
    let mut options = PortOptions::new(alloc);
    let mut paths = Vec::new(alloc);
    let mut telling: Option<String> = None;
    let mut has_ended = false;
    for word in words {
        if let Some(option) = telling.take() {
            options.add_word(alloc, option.as_str(), word)?;
        } else if has_ended || !word.starts_with('-') {
            paths.push(word)?;
        } else if word.as_str() == "--" {
            has_ended = true;
        } else if options.add(word.as_str())? {
            telling = Some(word);
        }
    }
    if telling.is_some() {
        return Err(PortFault::Usage);
    }
    let target = options.target(alloc, paths)?;
    Ok((target, options))
}
