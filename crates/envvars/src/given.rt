//! The variables that a process is given, each in its entry of the block that holds them all (environ(7)). Of thousands
//! a request looks at ten, so that none is copied, and a value is read where somebody asks for it.
ghost use Rattle.std.specs.Prelude.{◌≡◌, ◌<◌, ◌≤◌, ◌-◌, ◌++◌, ◌&&◌, [], nat_lt, take, drop, length, IfOk, OnOk};
ghost use Rattle.std.specs.Option.{option_map};
ghost use Rattle.std.specs.Str.{is_utf8};
ghost use Rattle.std.specs.FinMap as finite;
ghost use Rattle.memchr.specs.Find.{IsFirstByte, is_byte};
ghost use Rattle.envvars.specs.Texts.{slice_texts};
ghost use Rattle.envvars.specs.Environment.{Environment, lookup, with_value};
ghost use Rattle.envvars.specs.EnvironmentBlock as block_specs;
ghost use Rattle.envvars.specs.EnvironmentBlock.{utf8_value, with_entry};
ghost use Rattle.envvars.specs.Given.{name_in, value_in, given_over, variables_of, names_of, IsInside, IsNamed};
ghost use Rattle.envvars.specs.Given.{IsFirstOf, IsChained, chain_of};

use memchr::memchr;
use std::alloc::{AllocError, Global};
use std::str;

/// How many bytes most entries have at least: as many entries get their room at once, and as many chains.
const USUAL_LENGTH: usize = 24;

/// An entry `NAME=VALUE` of a block, by its place.
#[derive(Clone, Copy)]
pub(crate) struct Entry {
    /// Where its name begins.
    start: usize,
    /// Where its first `=` stands, behind the name.
    equals: usize,
    /// Where its value ends.
    end: usize,
    /// Whether the variable is set, as it is until it is unset.
    is_set: bool,
    /// The entry before it in its chain.
    earlier: Option<usize>,
}

/// The variables of a block of entries.
#[derive(Drop)]
pub(crate) struct GivenVariables {
    /// The entries, each ended by NUL.
    block: Vec<u8>,
    /// The places of the entries, in the order of the block.
    entries: Vec<Entry>,
    /// The last entry of each chain. All entries of a name are in one chain.
    latest: Vec<Option<usize>>,
}

/// The chain of a name, of so many chains. Names are told apart best by their lengths and their ends.
fn chain_of(count: usize, name: &[u8]) -> usize
    requires { 0 < count }
    ensures is { result ≡ chain_of count name.now }
    ensures within { result < count }
{
    if name.is_empty() {
        return 0;
    }
    let middle = usize::from(name[name.len() / 2]);
    let last = usize::from(name[name.len() - 1]);
    (name.len() + 3 * middle + 31 * last) % count
}

/// The bytes as a text; none where they aren't UTF-8.
fn text_of(bytes: &[u8]) -> Option<&str>
    ensures { option_map (λ t. t.now) result ≡ utf8_value bytes.now }
{
    match str::from_utf8(bytes) {
        Ok(text) => Some(text),
        Err(_) => None,
    }
}

/// Whether the bytes are a name in UTF-8.
fn is_name(name: &[u8]) -> bool
    ensures { result ≡ nat_lt 0 (length name.now) && is_utf8 name.now }
{
    !name.is_empty() && text_of(name).is_some()
}

fn name_in(block: &[u8], entry: Entry) -> &[u8]
    requires { IsInside block.now entry }
    ensures { result.now ≡ name_in block.now entry }
{
    &block[entry.start..entry.equals]
}

/// The value of an entry; none where it is unset or isn't UTF-8.
fn value_in(block: &[u8], entry: Entry) -> Option<&str>
    requires { IsInside block.now entry }
    ensures { option_map (λ t. t.now) result ≡ value_in block.now entry }
{
    if !entry.is_set {
        return None;
    }
    text_of(&block[entry.equals + 1..entry.end])
}

impl GivenVariables {
    /// No variables, in no block.
    pub(crate) fn new(alloc: Global) -> GivenVariables
        ensures chained { IsChained result }
        ensures given { variables_of result ≡ finite.empty }
    {
        GivenVariables {
            block: Vec::new(alloc),
            entries: Vec::new(alloc),
            latest: Vec::new(alloc),
        }
    }

    /// A block of which no entry is known yet.
    fn of_block(alloc: Global, block: Vec<u8>) -> Result<GivenVariables, AllocError>
        ensures block { IfOk result (λ given. given.block.items ≡ block.items) }
        ensures entries { IfOk result (λ given. given.entries.items ≡ []) }
        ensures chains { IfOk result (λ given. 0 < length given.latest.items) }
        ensures chained { IfOk result IsChained }
    {
        let count = block.len() / USUAL_LENGTH + 1;
        Ok(GivenVariables {
            block,
            entries: Vec::with_capacity(alloc, count)?,
            latest: Vec::from_elem(alloc, None, count)?,
        })
    }

    /// Adds an entry behind all others, to the end of its chain.
    fn push(&mut self, entry: Entry) -> Result<(), AllocError>
        requires chains { 0 < length self.old.latest.items }
        requires chained { IsChained self.old }
        requires inside { IsInside self.old.block.items entry }
        ensures chains { OnOk result (0 < length self.new.latest.items) }
        ensures chained { OnOk result (IsChained self.new) }
        ensures block { OnOk result (self.new.block.items ≡ self.old.block.items) }
        ensures given { OnOk result ((base : Environment) → given_over self.new.block.items base self.new.entries.items
            ≡ given_over self.old.block.items
            (with_value base (name_in self.old.block.items entry) (value_in self.old.block.items entry))
            self.old.entries.items) }
    {
        let chain = chain_of(self.latest.len(), name_in(self.block.as_slice(), entry));
        let earlier = self.latest[chain];
        let index = self.entries.len();
        self.entries.push(Entry { earlier, ..entry })?;
        self.latest[chain] = Some(index);
        Ok(())
    }

    /// Adds what stands from `start` up to `end`, if it is an entry with `=` and, before it, a name in UTF-8.
    fn add(&mut self, start: usize, end: usize) -> Result<(), AllocError>
        requires chains { 0 < length self.old.latest.items }
        requires chained { IsChained self.old }
        requires ordered { start ≤ end }
        requires within { end ≤ length self.old.block.items }
        ensures chains { OnOk result (0 < length self.new.latest.items) }
        ensures chained { OnOk result (IsChained self.new) }
        ensures block { OnOk result (self.new.block.items ≡ self.old.block.items) }
        ensures given { OnOk result ((base : Environment) → given_over self.new.block.items base self.new.entries.items
            ≡ given_over self.old.block.items
            (with_entry (take (end - start) (drop start self.old.block.items)) base)
            self.old.entries.items) }
    {
        let entry = &self.block[start..end];
        let Some(length) = memchr(b'=', entry) else {
            return Ok(());
        };
        if !is_name(&entry[..length]) {
            return Ok(());
        }
        self.push(Entry {
            start,
            equals: start + length,
            end,
            is_set: true,
            earlier: None,
        })
    }

    /// The length of what stands from `start` up to a NUL; none where no NUL ends it.
    fn length_at(&self, start: usize) -> Option<usize>
        requires { start ≤ length self.now.block.items }
        ensures { IsFirstByte (is_byte 0) (drop start self.now.block.items) result }
    {
        memchr(0, &self.block[start..])
    }

    /// The variables of a block, which is kept as it is.
    pub(crate) fn read(alloc: Global, block: Vec<u8>) -> Result<GivenVariables, AllocError>
        ensures chained { IfOk result IsChained }
        ensures given { IfOk result (λ given. variables_of given ≡ block_specs.environment_of block.items) }
    {
        let end = block.len();
        let mut given = GivenVariables::of_block(alloc, block)?;
        let mut start = 0;
        while let Some(length) = given.length_at(start) {
            given.add(start, start + length)?;
            start += length + 1;
        }
        given.add(start, end)?;
        Ok(given)
    }

    /// The first entry of a name, by its index; none where the block has no such entry.
    fn find(&self, name: &[u8]) -> Option<usize>
        requires { IsChained self.now }
        ensures { IsFirstOf (IsNamed self.now.block.items self.now.entries.items name.now) result }
    {
        if self.entries.is_empty() {
            return None;
        }
        let mut found = None;
        let mut at = self.latest[chain_of(self.latest.len(), name)];
        while let Some(i) = at {
            let entry = self.entries[i];
            if name_in(self.block.as_slice(), entry) == name {
                found = Some(i);
            }
            at = entry.earlier;
        }
        found
    }

    /// The value of a variable; none where it is unset.
    pub(crate) fn get(&self, name: &str) -> Option<&str>
        requires { IsChained self.now }
        ensures { option_map (λ t. t.now) result ≡ lookup (variables_of self.now) name.now }
    {
        match self.find(name.as_bytes()) {
            None => None,
            Some(i) => value_in(self.block.as_slice(), self.entries[i]),
        }
    }

    /// Unsets a variable. It takes no memory.
    pub(crate) fn unset(&mut self, name: &str)
        requires { IsChained self.old }
        ensures chained { IsChained self.new }
        ensures unset { variables_of self.new ≡ finite.remove (variables_of self.old) name.now }
    {
        if let Some(i) = self.find(name.as_bytes()) {
            let entry = self.entries[i];
            self.entries[i] = Entry {
                is_set: false,
                ..entry
            };
        }
    }

    /// A copy.
    pub(crate) fn copy(&self) -> Result<GivenVariables, AllocError>
        requires { IsChained self.now }
        ensures chained { IfOk result IsChained }
        ensures given { IfOk result (λ given. variables_of given ≡ variables_of self.now) }
    {
        Ok(GivenVariables {
            block: self.block.clone()?,
            entries: self.entries.clone()?,
            latest: self.latest.clone()?,
        })
    }

    /// Appends the names of the entries: every variable that is set, and perhaps some that are unset.
    pub(crate) fn push_names<'a>(&'a self, names: &mut Vec<&'a str>) -> Result<(), AllocError>
        requires { IsChained self.now }
        ensures { OnOk result (slice_texts names.new.items
            ≡ slice_texts names.old.items ++ names_of self.entry.now) }
    {
        for entry in &self.entries {
            if let Some(name) = text_of(name_in(self.block.as_slice(), *entry)) {
                names.push(name)?;
            }
        }
        Ok(())
    }
}
