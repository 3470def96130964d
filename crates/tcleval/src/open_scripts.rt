//! The scripts under evaluation, with the offsets of their current commands.
ghost use Rattle.std.specs.Prelude.{◌≡◌, ◌++◌, ◌∷◌, [], IfOk, OnErr, OnOk, drop, option_map, reverse, slice_get};
ghost use Rattle.std.specs.Prelude.{string_bytes};
ghost use Rattle.tclrules.specs.Plans.{with_offset, without_innermost, around};
ghost use Rattle.tclrules.specs.Meaning.{outermost};
ghost use Rattle.tclrules.specs.Places.{innermost_from, place_of};
ghost use Rattle.tcleval.specs.OpenScripts.{begins_inside, script_view};

use crate::places::{SoughtScript, line_at, offset_in_file};
use std::alloc::{AllocError, Global};
use std::marker::Model;
use std::rc::Rc;
use tclrules::FaultPlace;
use tcltext::script::OwnedScript;

/// A script under evaluation.
#[derive(Drop)]
pub struct OpenScript {
    /// How many scripts may still begin inside of it.
    remaining: u32,
    /// Its tree, with its text.
    tree: Rc<OwnedScript>,
    /// The offset of the current command of the script around it, where there is one.
    outer_offset: usize,
}

/// The scripts under evaluation, the outermost first, and the offset of the innermost one's current command. Offsets are
/// in bytes.
#[derive(Drop)]
pub struct OpenScripts {
    entries: Vec<OpenScript>,
    offset: usize,
}

impl Model for OpenScripts {
    ghost use Rattle.std.specs.Prelude.{List};
    ghost use Rattle.tclrules.specs.Derivation.{OpenScript};

    ghost Value = { List OpenScript };

    ghost use Rattle.tcleval.specs.OpenScripts.{scripts_view};

    ghost view = { scripts_view };
}

/// Adds a script inside of the others.
fn push_script(entries: &mut Vec<OpenScript>, script: OpenScript) -> Result<(), AllocError>
    ensures ok { OnOk result (entries.new.items ≡ entries.old.items ++ script ∷ []) }
    ensures err { OnErr result (entries.new.items ≡ entries.old.items) }
{
    entries.push(script)?;
    Ok(())
}

impl OpenScripts {
    /// No script is under evaluation.
    pub fn new(alloc: Global) -> OpenScripts
        ensures { result ≡ [] }
    {
        OpenScripts {
            entries: Vec::new(alloc),
            offset: 0,
        }
    }

    /// A script begins, inside of which so many may still begin.
    ///
    /// Errors: memory runs out; then none begins.
    pub fn begin(&mut self, remaining: u32, tree: &Rc<OwnedScript>) -> Result<(), AllocError>
        ensures ok { OnOk result (self.new ≡ record {
          remaining = remaining;
          text = string_bytes tree.now.value.text;
          offset = 0;
        } ∷ self.old) }
        ensures err { OnErr result (self.new ≡ self.old) }
    {
        let tree = tree.clone()?;
        let script = OpenScript {
            remaining,
            tree,
            outer_offset: self.offset,
        };
        push_script(&mut self.entries, script)?;
        self.offset = 0;
        Ok(())
    }

    /// The innermost script comes to the command at this offset.
    pub fn move_to(&mut self, offset: usize)
        ensures { self.new ≡ with_offset offset self.old }
    {
        self.offset = offset;
    }

    /// The innermost script ends.
    pub fn end(&mut self)
        ensures { self.new ≡ without_innermost self.old }
    {
        if let Some(ended) = self.entries.pop() {
            self.offset = ended.outer_offset;
        }
    }

    /// Whether fewer than so many scripts may still begin inside of the innermost.
    fn is_inside(&self, remaining: u32) -> bool
        ensures { result ≡ begins_inside remaining self.now }
    {
        match self.entries.as_slice().split_last() {
            Some((innermost, _)) => innermost.remaining < remaining,
            None => false,
        }
    }

    /// The scripts inside of which fewer than so many may still begin are left.
    pub fn leave(&mut self, remaining: u32)
        ensures { self.new ≡ around remaining self.old }
    {
        while self.is_inside(remaining) {
            self.end();
        }
    }

    /// The script at this index, from the outermost on.
    fn script_at(&self, index: usize) -> Option<SoughtScript<'_>>
        ensures { option_map script_view result ≡ slice_get (reverse self.now) index }
    {
        let script = self.entries.get(index)?;
        let offset = match self.entries.get(index + 1) {
            Some(inner) => inner.outer_offset,
            None => self.offset,
        };
        Some(SoughtScript {
            remaining: script.remaining,
            text: script.tree.text.as_str(),
            offset,
        })
    }

    /// The offset of the current command of the outermost script; 0 where there is none.
    pub fn outermost_offset(&self) -> usize
        ensures { result ≡ outermost self.now }
    {
        match self.script_at(0) {
            Some(script) => script.offset,
            None => 0,
        }
    }

    /// Where the evaluation of this file stands, of which the outermost script is the text; None where no script is
    /// under evaluation.
    ///
    /// Errors: memory runs out.
    pub fn place_in(&self, alloc: Global, file: &str) -> Result<Option<FaultPlace>, AllocError>
        ensures { IfOk result (λ place. place ≡ place_of file.now self.now) }
    {
        let Some(script) = self.script_at(0) else {
            return Ok(None);
        };
        let innermost = self.innermost_from(alloc, file, script.offset)?;
        Ok(Some(FaultPlace {
            outermost: script.offset,
            innermost,
            line: line_at(file, innermost),
        }))
    }

    /// The innermost command that is found in the file, from its own command at this offset inwards.
    fn innermost_from(
        &self,
        alloc: Global,
        file: &str,
        outermost: usize,
    ) -> Result<usize, AllocError>
        ensures { IfOk result (λ place. place ≡ innermost_from file.now outermost (drop 1 (reverse self.now))) }
    {
        let mut place = outermost;
        for index in 1..self.entries.len() {
            let Some(script) = self.script_at(index) else {
                return Ok(place);
            };
            match offset_in_file(alloc, file, place, script)? {
                Some(offset) => place = offset,
                None => return Ok(place),
            }
        }
        Ok(place)
    }
}
