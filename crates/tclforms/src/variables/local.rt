//! The frame of a procedure that runs: its own variables, and the global ones that it sees.
ghost use Rattle.std.specs.Prelude.{◌≡◌, [], true, None, map, OnOk, OnErr, IfOk, IfSome, option_map, bytes_eq};
ghost use Rattle.std.specs.Prelude.{string_bytes};
ghost use Rattle.std.specs.Fmt.{signed_decimal};
ghost use Rattle.tcltext.specs.chars.Runs.{Text};
ghost use Rattle.tclforms.specs.variables.Contents.{HoldsList, IsIncreased};
ghost use Rattle.std.specs.List.{list_any};
ghost use Rattle.tclrules.specs.Variables.{Frame, lookup, store, without, with_name};

use crate::variables::content::Content;
use crate::variables::table::{
    Table, content_in, holds_list, increase, put, remove, take, text_in,
};
use indexmap::{IndexMap, IndexSet};
use std::alloc::{AllocError, Global};
use std::marker::Model;

/// The variables of a procedure that runs, and the names that denote global variables in it (global(n)).
#[derive(Drop)]
pub struct Local {
    own: Table,
    shared: IndexSet<String>,
}

impl Model for Local {
    ghost use Rattle.tclrules.specs.Variables.{Frame};

    ghost Value = { Frame };

    ghost use Rattle.tclforms.specs.variables.Views.{local_view};

    ghost view = { local_view };
}

impl Local {
    /// No variables, and no global one is seen.
    pub fn new(alloc: Global) -> Local
        ensures { result ≡ record { own = []; shared = [] } }
    {
        Local {
            own: IndexMap::new(alloc),
            shared: IndexSet::new(alloc),
        }
    }

    /// Whether a name denotes a global variable.
    pub(crate) fn sees(&self, name: &str) -> bool
        ensures { result ≡ list_any (bytes_eq name.now) self.now.shared }
    {
        self.shared.contains(name)
    }

    /// The value of a variable of the procedure.
    pub(crate) fn get(&self, name: &str) -> Option<&str>
        ensures { option_map (λ v. v.now) result ≡ lookup self.now.own name.now }
    {
        text_in(&self.own, name)
    }

    /// What a variable of the procedure holds.
    pub(crate) fn content(&self, name: &str) -> Option<&Content>
        ensures { option_map (λ c. c.now) result ≡ lookup self.now.own name.now }
    {
        content_in(&self.own, name)
    }

    /// Gives a variable of the procedure what it is to hold.
    pub(crate) fn put(
        &mut self,
        alloc: Global,
        name: &str,
        content: Content,
    ) -> Result<(), AllocError>
        ensures ok { OnOk result (self.new ≡ record self.old { own = store self.old.own name.now content }) }
        ensures err { OnErr result (self.new ≡ self.old) }
    {
        put(&mut self.own, alloc, name, content)
    }

    /// Whether a variable of the procedure is known to hold the text of a list, as list(n) writes it.
    pub(crate) fn holds_list(&self, name: &str) -> bool
        ensures { result ≡ true → HoldsList (lookup self.now.own name.now) }
    {
        holds_list(&self.own, name)
    }

    /// Takes the text of a variable of the procedure, which is empty until it is put again.
    pub(crate) fn take(&mut self, alloc: Global, name: &str) -> Option<String>
        ensures value { option_map string_bytes result ≡ lookup self.old.own name.now }
        ensures given_back { (t : Text) → store self.new.own name.now t ≡ store self.old.own name.now t }
        ensures shared { self.new.shared ≡ self.old.shared }
    {
        take(&mut self.own, alloc, name)
    }

    /// Adds a whole number to that which a variable of the procedure holds, as `Variables::increase`.
    pub(crate) fn increase(
        &mut self,
        name: &str,
        amount: i64,
        limit: usize,
    ) -> Result<Option<i64>, AllocError>
        ensures sum { IfOk result (λ made. IfSome made (λ total.
            IsIncreased (lookup self.old.own name.now) amount limit (signed_decimal total)
            × (self.new ≡ record self.old { own = store self.old.own name.now (signed_decimal total) }))) }
        ensures same { IfOk result (λ made. made ≡ None → self.new ≡ self.old) }
    {
        increase(&mut self.own, name, amount, limit)
    }

    /// Unsets a variable of the procedure, if it is set.
    pub(crate) fn remove(&mut self, name: &str)
        ensures { self.new ≡ record self.old { own = without self.old.own name.now } }
    {
        remove(&mut self.own, name)
    }

    /// Lets a name denote the global variable from now on; the variable of the procedure by this name is unset.
    pub(crate) fn share(&mut self, alloc: Global, name: &str) -> Result<(), AllocError>
        ensures ok { OnOk result (self.new
            ≡ record { own = without self.old.own name.now; shared = with_name self.old.shared name.now }) }
        ensures err { OnErr result (self.new ≡ self.old) }
    {
        add_name(&mut self.shared, alloc, name)?;
        remove(&mut self.own, name);
        Ok(())
    }
}

/// Adds a name at the end, unless it is among the names.
fn add_name(names: &mut IndexSet<String>, alloc: Global, name: &str) -> Result<(), AllocError>
    ensures ok { OnOk result
        (map string_bytes names.new.keys ≡ with_name (map string_bytes names.old.keys) name.now) }
    ensures err { OnErr result (names.new.keys ≡ names.old.keys) }
{
    if names.contains(name) {
        return Ok(());
    }
    let _ = names.insert(String::from_str(alloc, name)?)?;
    Ok(())
}
