//! Names on their way to be loaded: one after another is tried, and what one needs goes right before it.
ghost use Rattle.std.specs.Prelude.{◌≡◌, ◌<◌, List, map, string_bytes, vec_len, IfErr, IfOk, OnOk};
ghost use Rattle.envvars.specs.Texts.{Text, texts_in};
ghost use Rattle.filetree.specs.Agreement.{FailsAt, InEachPair, ReadsOn};
ghost use Rattle.filetree.specs.Causes.{Applies};
ghost use Rattle.modules.specs.Answers.{cause_of, is_failure};
ghost use Rattle.requests.specs.Reasons.{prereq_missing};
ghost use Rattle.requests.specs.Steps.{request_context_in};
ghost use Rattle.shelltext.specs.declared.shell.Shell.{Shell};
ghost use Rattle.module_auto.specs.Loads.{AnyLooksAt, AutomaticLoadLooksAt, RefusesLoad};
ghost use Rattle.module_auto.specs.Views.{IsPlan, IsUnmet, IsWhole, PutsIn, tries_left};

use crate::finding::first_found;
use crate::requesting::loaded;
use crate::spent::is_spent;
use envvars::Env;
use filetree::Tree;
use message::texts::copies;
use modules::{MissingNames, Refusal};
use shelltext::Shell;
use std::alloc::Global;
use tclrules::Limits;

/// Names on their way to be loaded.
#[derive(Drop)]
pub(crate) struct Plan {
    /// The names, in the order in which they are to be loaded.
    pub(crate) names: Vec<String>,
    /// How many of the first of them can be loaded, one after another.
    pub(crate) ready: usize,
    /// The environment that these make.
    pub(crate) after: Env,
    /// The names that were put in.
    pub(crate) added: Vec<String>,
}

impl Plan {
    /// Puts in the first of the alternatives that is found, before the name that needs one of them.
    fn put_in<T: Tree>(
        &mut self,
        alloc: Global,
        missing: MissingNames,
        tree: &mut T,
        limits: Limits,
    ) -> Result<(), Refusal>
        requires { self.old.ready < vec_len self.old.names }
        ensures reads { ReadsOn T.agrees T.failures tree.old tree.new }
        ensures advanced { OnOk result (InEachPair (T.agrees tree.new) (λ files listings. (shell : Shell)
            → PutsIn (request_context_in limits shell files listings) (texts_in missing.names) self.old self.new)) }
        ensures fewer { OnOk result (tries_left self.new < tries_left self.old) }
        ensures refused { IfErr result (λ refusal.
            Applies (cause_of refusal) (T.failures tree.old < T.failures tree.new) (λ reason.
            (reason ≡ prereq_missing (texts_in missing.names))
            × InEachPair (T.agrees tree.new) (λ files listings. (shell : Shell)
            → IsUnmet (request_context_in limits shell files listings) self.old.after (texts_in self.old.added)
            (texts_in missing.names)))) }
        ensures failed { FailsAt is_failure (T.failed tree.old) (T.failed tree.new) result (λ at.
            InEachPair (T.agrees tree.new) (λ files listings. (shell : Shell)
            → AnyLooksAt (request_context_in limits shell files listings) self.old.after (texts_in missing.names) at)) }
    {
        let found = first_found(alloc, missing.names.as_slice(), &self.after, tree, limits)?;
        let Some(name) = found else {
            return Err(Refusal::PrereqMissing(missing));
        };
        if is_spent(name.as_str(), self.added.as_slice()) {
            return Err(Refusal::PrereqMissing(missing));
        }
        self.added.push(name.clone()?)?;
        self.names.insert(self.ready, name)?;
        Ok(())
    }

    /// Tries the next name behind those that can be loaded. It can be, or what it needs is put in before it.
    pub(crate) fn advance<T: Tree>(
        &mut self,
        alloc: Global,
        shell: Shell,
        env: &Env,
        tree: &mut T,
        limits: Limits,
    ) -> Result<(), Refusal>
        requires { self.old.ready < vec_len self.old.names }
        ensures reads { ReadsOn T.agrees T.failures tree.old tree.new }
        ensures advanced { OnOk result (InEachPair (T.agrees tree.new) (λ files listings. (asked : List Text)
            → IsPlan (request_context_in limits shell files listings) env.now asked self.old
            → IsPlan (request_context_in limits shell files listings) env.now asked self.new)) }
        ensures fewer { OnOk result (tries_left self.new < tries_left self.old) }
        ensures refused { IfErr result (λ refusal.
            Applies (cause_of refusal) (T.failures tree.old < T.failures tree.new) (λ reason.
            InEachPair (T.agrees tree.new) (λ files listings. (asked : List Text)
            → IsPlan (request_context_in limits shell files listings) env.now asked self.old
            → RefusesLoad (request_context_in limits shell files listings) env.now asked reason))) }
        ensures failed { FailsAt is_failure (T.failed tree.old) (T.failed tree.new) result (λ at.
            InEachPair (T.agrees tree.new) (λ files listings. (asked : List Text)
            → IsPlan (request_context_in limits shell files listings) env.now asked self.old
            → AutomaticLoadLooksAt (request_context_in limits shell files listings) env.now asked at)) }
    {
        let tried = &self.names[..self.ready + 1];
        match loaded(alloc, shell, tried, env, tree, limits) {
            Ok(after) => {
                self.after = after;
                self.ready += 1;
                Ok(())
            }
            Err(refusal) => match refusal {
                Refusal::PrereqMissing(missing) => self.put_in(alloc, missing, tree, limits),
                refusal => Err(refusal),
            },
        }
    }

    /// The names that were asked for, with all that they need.
    pub(crate) fn completed<T: Tree>(
        alloc: Global,
        shell: Shell,
        asked: &[String],
        env: &Env,
        tree: &mut T,
        limits: Limits,
    ) -> Result<Plan, Refusal>
        ensures reads { ReadsOn T.agrees T.failures tree.old tree.new }
        ensures completed { IfOk result (λ plan. InEachPair (T.agrees tree.new) (λ files listings.
            IsWhole (request_context_in limits shell files listings) env.now (map string_bytes asked.now) plan)) }
        ensures refused { IfErr result (λ refusal.
            Applies (cause_of refusal) (T.failures tree.old < T.failures tree.new) (λ reason.
            InEachPair (T.agrees tree.new) (λ files listings.
            RefusesLoad (request_context_in limits shell files listings) env.now (map string_bytes asked.now)
            reason))) }
        ensures failed { FailsAt is_failure (T.failed tree.old) (T.failed tree.new) result (λ at.
            InEachPair (T.agrees tree.new) (λ files listings.
            AutomaticLoadLooksAt (request_context_in limits shell files listings) env.now (map string_bytes asked.now)
            at)) }
    {
        let mut plan = Plan {
            names: copies(alloc, asked)?,
            ready: 0,
            after: env.copy()?,
            added: Vec::new(alloc),
        };
        while plan.ready < plan.names.len() {
            plan.advance(alloc, shell, env, tree, limits)?;
        }
        Ok(plan)
    }
}
