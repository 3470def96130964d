//! All that an evaluation has of variables and procedures.
ghost use Rattle.std.specs.Prelude.{◌≡◌, [], true, None, map, string_bytes, OnOk, OnErr, IfOk, IfSome, option_map};
ghost use Rattle.std.specs.Prelude.{is_some};
ghost use Rattle.std.specs.Fmt.{signed_decimal};
ghost use Rattle.tcltext.specs.chars.Runs.{Text};
ghost use Rattle.tclforms.specs.variables.Contents.{HoldsList, IsIncreased};
ghost use Rattle.tclrules.specs.Variables.{initial_state, in_frame, sees, value_at, with_value, without_value};
ghost use Rattle.tclrules.specs.Variables.{shared_in, lookup};
ghost use Rattle.tclrules.specs.Rules.{new_frame, with_procedure};
ghost use Rattle.tclrules.specs.Promise as promise;
ghost use Rattle.tclforms.specs.variables.Locations.{is_global, scalar_view};
ghost use Rattle.tclforms.specs.variables.Views.{texts_of, procedure_view};

use crate::variables::content::Content;
use crate::variables::local::Local;
use crate::variables::location::{Scalar, Scope};
use crate::variables::table::{
    Table, content_in, holds_list, increase, into_texts, put, remove, take, text_in,
};
use indexmap::IndexMap;
use std::alloc::{AllocError, Global};
use std::marker::Model;
use std::mem;
use std::rc::Rc;

/// A parameter of a procedure (proc(n)).
#[derive(Drop)]
pub struct Parameter {
    /// The name of the variable that it becomes.
    pub name: String,
    /// The value where a call has no word for it.
    pub default: Option<String>,
}

/// A procedure that proc(n) made.
#[derive(Drop)]
pub struct Procedure {
    /// The parameters, from left to right.
    pub parameters: Vec<Parameter>,
    /// The text of its script.
    pub body: String,
}

/// The names that the host reserves, the global variables, the frame of the procedure that runs, and the procedures.
///
/// A call that fails for `AllocError` has changed nothing.
#[derive(Drop)]
pub struct Variables {
    reserved: &'static [&'static str],
    globals: Table,
    local: Option<Local>,
    procedures: IndexMap<String, Rc<Procedure>>,
}

impl Model for Variables {
    ghost use Rattle.tclrules.specs.Variables.{State};

    ghost Value = { State };

    ghost use Rattle.tclforms.specs.variables.Views.{variables_view};

    ghost view = { variables_view };
}

impl Variables {
    /// No variables and no procedures; no procedure may have one of the names `reserved`.
    pub fn new(alloc: Global, reserved: &'static [&'static str]) -> Variables
        ensures { result ≡ initial_state (map (λ n. n.now) reserved.now) [] }
    {
        Variables {
            reserved,
            globals: IndexMap::new(alloc),
            local: None,
            procedures: IndexMap::new(alloc),
        }
    }

    /// The names that the host reserves.
    pub fn reserved(&self) -> &'static [&'static str]
        ensures { map (λ n. n.now) result.now ≡ self.now.reserved }
    {
        self.reserved
    }

    /// Whether a procedure runs.
    pub fn is_in_procedure(&self) -> bool
        ensures { result ≡ is_some self.now.frame }
    {
        self.local.is_some()
    }

    /// Whose variable a name without colons denotes: a global one where no procedure runs, or where global(n) named it.
    pub fn scope_of(&self, name: &str) -> Scope
        ensures { is_global result ≡ sees self.now.frame name.now }
    {
        match &self.local {
            Some(local) if !local.sees(name) => Scope::Procedure,
            _ => Scope::Global,
        }
    }

    /// The value of a variable; None where it is unset.
    pub fn get(&self, variable: Scalar<'_>) -> Option<&str>
        ensures { option_map (λ v. v.now) result ≡ value_at self.now (scalar_view variable.entry) }
    {
        match variable.scope {
            Scope::Global => text_in(&self.globals, variable.name),
            Scope::Procedure => self.local.as_ref()?.get(variable.name),
        }
    }

    /// What a variable holds; None where it is unset.
    pub fn content(&self, variable: Scalar<'_>) -> Option<&Content>
        ensures { option_map (λ c. c.now) result ≡ value_at self.now (scalar_view variable.entry) }
    {
        match variable.scope {
            Scope::Global => content_in(&self.globals, variable.name),
            Scope::Procedure => self.local.as_ref()?.content(variable.name),
        }
    }

    /// Gives a variable a value; one of a procedure has an effect only where a procedure runs.
    pub fn set(
        &mut self,
        alloc: Global,
        variable: Scalar<'_>,
        value: String,
    ) -> Result<(), AllocError>
        ensures ok { OnOk result (self.new ≡ with_value self.old (scalar_view variable.entry) (string_bytes value)) }
        ensures err { OnErr result (self.new ≡ self.old) }
    {
        self.put(alloc, variable, Content::of_text(value))
    }

    /// Gives a variable what it is to hold, as `set`.
    pub fn put(
        &mut self,
        alloc: Global,
        variable: Scalar<'_>,
        content: Content,
    ) -> Result<(), AllocError>
        ensures ok { OnOk result (self.new ≡ with_value self.old (scalar_view variable.entry) content) }
        ensures err { OnErr result (self.new ≡ self.old) }
    {
        match variable.scope {
            Scope::Global => put(&mut self.globals, alloc, variable.name, content),
            Scope::Procedure => match &mut self.local {
                None => Ok(()),
                Some(local) => local.put(alloc, variable.name, content),
            },
        }
    }

    /// Whether a variable is known to hold the text of a list, as list(n) writes it.
    pub fn holds_list(&self, variable: Scalar<'_>) -> bool
        ensures { result ≡ true → HoldsList (value_at self.now (scalar_view variable.entry)) }
    {
        match variable.scope {
            Scope::Global => holds_list(&self.globals, variable.name),
            Scope::Procedure => match &self.local {
                None => false,
                Some(local) => local.holds_list(variable.name),
            },
        }
    }

    /// Takes the text of a variable, if it is set, so that it can grow without a copy: the variable holds the empty
    /// text until `put` gives it the text again.
    pub fn take(&mut self, alloc: Global, variable: Scalar<'_>) -> Option<String>
        ensures value { option_map string_bytes result ≡ value_at self.old (scalar_view variable.entry) }
        ensures given_back { (t : Text) → with_value self.new (scalar_view variable.entry) t
            ≡ with_value self.old (scalar_view variable.entry) t }
    {
        match variable.scope {
            Scope::Global => take(&mut self.globals, alloc, variable.name),
            Scope::Procedure => match &mut self.local {
                None => None,
                Some(local) => local.take(alloc, variable.name),
            },
        }
    }

    /// Adds a whole number to that which a variable holds, and gives the sum. None, and nothing is changed, where the
    /// variable is unset or holds none, or where the sum lies outside 64 bits or has more bytes than `limit`.
    ///
    /// Errors: memory runs out; then the value is lost.
    pub fn increase(
        &mut self,
        variable: Scalar<'_>,
        amount: i64,
        limit: usize,
    ) -> Result<Option<i64>, AllocError>
        ensures sum { IfOk result (λ made. IfSome made (λ total.
            IsIncreased (value_at self.old (scalar_view variable.entry)) amount limit (signed_decimal total)
            × (self.new ≡ with_value self.old (scalar_view variable.entry) (signed_decimal total)))) }
        ensures same { IfOk result (λ made. made ≡ None → self.new ≡ self.old) }
    {
        match variable.scope {
            Scope::Global => increase(&mut self.globals, variable.name, amount, limit),
            Scope::Procedure => match &mut self.local {
                None => Ok(None),
                Some(local) => local.increase(variable.name, amount, limit),
            },
        }
    }

    /// Unsets a variable, if it is set.
    pub fn unset(&mut self, variable: Scalar<'_>)
        ensures { self.new ≡ without_value self.old (scalar_view variable.entry) }
    {
        match variable.scope {
            Scope::Global => remove(&mut self.globals, variable.name),
            Scope::Procedure => match &mut self.local {
                None => {},
                Some(local) => local.remove(variable.name),
            },
        }
    }

    /// Lets a name denote the global variable from now on, in the procedure that runs, if one does (global(n)).
    pub fn share(&mut self, alloc: Global, name: &str) -> Result<(), AllocError>
        ensures ok { OnOk result (self.new ≡ in_frame self.old (shared_in self.old.frame name.now)) }
        ensures err { OnErr result (self.new ≡ self.old) }
    {
        match &mut self.local {
            None => Ok(()),
            Some(local) => local.share(alloc, name),
        }
    }

    /// Begins a procedure, which has no variables at first. Gives the frame of the procedure that called it, if one
    /// did.
    pub fn enter(&mut self, alloc: Global) -> Option<Local>
        ensures entered { self.new ≡ in_frame self.old new_frame }
        ensures caller { result ≡ self.old.frame }
    {
        mem::replace(&mut self.local, Some(Local::new(alloc)))
    }

    /// Ends a procedure: its caller has its frame again.
    pub fn leave(&mut self, caller: Option<Local>)
        ensures { self.new ≡ in_frame self.old caller }
    {
        self.local = caller;
    }

    /// The procedure of this name.
    pub fn procedure(&self, name: &str) -> Option<&Rc<Procedure>>
        ensures { option_map (λ p. procedure_view p.now.value) result ≡ lookup self.now.procedures name.now }
    {
        self.procedures.get(name)
    }

    /// Makes a procedure, in place of one of this name.
    pub fn define(
        &mut self,
        alloc: Global,
        name: &str,
        procedure: Procedure,
    ) -> Result<(), AllocError>
        ensures ok { OnOk result (self.new ≡ with_procedure self.old name.now (procedure_view procedure)) }
        ensures err { OnErr result (self.new ≡ self.old) }
    {
        let name = String::from_str(alloc, name)?;
        let procedure = Rc::new(alloc, procedure)?;
        let _ = self.procedures.insert(name, procedure)?;
        Ok(())
    }

    /// The global variables with their values, in the order of their making.
    pub fn into_globals(self, alloc: Global) -> Result<Vec<(String, String)>, AllocError>
        ensures { IfOk result (λ v. promise.texts_of v.items ≡ self.globals) }
    {
        let Variables { globals, .. } = self;
        into_texts(alloc, globals)
    }
}
