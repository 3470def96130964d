//! The state of an evaluation, the count of commands, and results within the limit on values.
ghost use Rattle.std.specs.Prelude.{◌≡◌, ◌≤◌, ◌<◌, ◌+◌, ℕ, Bool, MatchResult, IfOk, IfErr, IfSome, length};
ghost use Rattle.std.specs.Prelude.{string_bytes};
ghost use Rattle.tclrules.specs.Oracle.{Oracle, Trace};
ghost use Rattle.tclrules.specs.Simulates.{Simulates, Point, point};
ghost use Rattle.tclrules.specs.Variables.{State};
ghost use Rattle.tclrules.specs.Plans as plans;
ghost use Rattle.tclrules.specs.Plans.{Job, Next, sized};
ghost use Rattle.tclrules.specs.Rules.{rule};
ghost use Rattle.tclforms.specs.substitution.Stops.{after, stopped};
ghost use Rattle.tcltext.specs.expr.Owned as expression;
ghost use Rattle.tclforms.specs.substitution.Machine.{bounds};
ghost use Rattle.tclcommands.specs.declared.result_use.ResultUse.{ResultUse};
ghost use Rattle.tclcommands.specs.Completions.{EvaluatesToText, condition_plan};
ghost use Rattle.tcleval.specs.Continues.{bounds_of};
ghost use Rattle.tclvalue.specs.declared.operators.operators.ComputedValue.TheVariants.{Truth};
ghost use Rattle.tclforms.specs.declared.substitution.stop.Stop.TheVariants.{Fault};
ghost use Rattle.tclrules.specs.declared.outcome.EvalFault.TheVariants.{TooManyCommands};

use crate::bounds::Bounds;
use crate::cache::Kept;
use crate::open_scripts::OpenScripts;
use std::alloc::Global;
use tclforms::substitution::{Stop, SubstitutionContext, compute_borrowed};
use tclforms::variables::Variables;
use tclrules::{EvalFault, Limits};
use tcltext::expr::OwnedExpr;
use tclvalue::operators::ComputedValue;

/// The state of an evaluation.
#[derive(Drop)]
pub struct Evaluator {
    /// The allocator.
    pub alloc: Global,
    /// The trees of texts that were parsed before.
    pub cache: Kept,
    /// The variables and procedures.
    pub variables: Variables,
    /// The scripts under evaluation.
    pub scripts: OpenScripts,
    /// How many commands and turns of loops were counted.
    pub used: u64,
}

impl Evaluator {
    /// Counts a command or a turn of a loop, where the limit allows one more; else the evaluation halts.
    pub(crate) fn count(&mut self, limits: Limits) -> Result<(), Stop>
        ensures counted { MatchResult result
            (λ _. (self.old.used < limits.commands) × (self.new.used ≡ self.old.used + 1))
            (λ stop. (limits.commands ≤ self.old.used) × (self.new.used ≡ self.old.used) × (stop ≡ Fault
            TooManyCommands)) }
        ensures variables { self.new.variables ≡ self.old.variables }
        ensures cache { self.new.cache ≡ self.old.cache }
        ensures scripts { self.new.scripts ≡ self.old.scripts }
    {
        if self.used >= limits.commands {
            return Err(Stop::Fault(EvalFault::TooManyCommands));
        }
        self.used += 1;
        Ok(())
    }

    /// The completion of a command whose scripts are left, unless it ends another script too.
    #[inline(always)]
    pub(crate) fn left<T: Drop>(
        &mut self,
        bounds: Bounds,
        outcome: Result<T, Stop>,
    ) -> Result<T, Stop>
        ensures evaluates_to { (next : T → State → plans.Step) (oracle : Oracle) (trace : Trace)
            → Simulates bounds.limits.commands (rule bounds.limits.value_bytes)
            (after outcome (λ value s. plans.left (bounds_of bounds) (next value s)) self.old.variables)
            (point oracle trace self.old.used self.old.scripts)
            (after result next self.new.variables) (point oracle trace self.new.used self.new.scripts) }
        ensures used { self.new.used ≡ self.old.used }
        ensures cache { self.new.cache ≡ self.old.cache }
    {
        match outcome {
            Ok(value) => {
                self.scripts.leave(bounds.remaining);
                Ok(value)
            }
            Err(stop) => Err(stop),
        }
    }

    /// Whether a comparison holds whose operands are literals or scalar variables; None for any other expression, which
    /// is evaluated by steps.
    pub(crate) fn comparison(&self, limits: Limits, tree: &OwnedExpr) -> Result<Option<bool>, Stop>
        ensures found { IfOk result (λ found. IfSome found (λ holds. (most remaining : ℕ) (r : Job → plans.Step)
            (k : Bool → State → plans.Step) (x : Point) → Simulates most r
            (condition_plan (bounds limits.value_bytes remaining)
            (expression.owned_view tree.now) self.now.variables k) x
            (k holds self.now.variables) x)) }
        ensures err { IfErr result (λ stop. (most remaining : ℕ) (r : Job → plans.Step)
            (k : Bool → State → plans.Step) (x : Point) → Simulates most r
            (condition_plan (bounds limits.value_bytes remaining)
            (expression.owned_view tree.now) self.now.variables k) x
            (stopped stop self.now.variables) x) }
    {
        let context = SubstitutionContext {
            alloc: self.alloc,
            limits,
            source: tree.text.as_str(),
            variables: &self.variables,
        };
        match compute_borrowed(context, &tree.expression)? {
            Some(made) => Ok(truth_of(limits, made)),
            None => Ok(None),
        }
    }
}

/// The truth value that an operator computed, where its text, which has one byte, is within the limit on values; None
/// of a number.
fn truth_of(limits: Limits, made: ComputedValue) -> Option<bool>
    ensures { IfSome result (λ holds. (made ≡ Truth holds) × (1 ≤ limits.value_bytes)) }
{
    match made {
        ComputedValue::Truth(holds) if limits.value_bytes > 0 => Some(holds),
        ComputedValue::Truth(_) | ComputedValue::Whole(_) => None,
    }
}

/// A text, judged by the limit on values.
#[tactic(none)]
pub(crate) fn sized(limits: Limits, text: String) -> Result<String, Stop>
    ensures within { IfOk result (λ t. length (string_bytes t) ≤ limits.value_bytes) }
    ensures evaluates_to { (most : ℕ) (r : Job → plans.Step) (k : Next) (s : State) (x : Point)
        → Simulates most r (sized limits.value_bytes (string_bytes text) (k (string_bytes text) s)) x
        (after result (λ t s. k (string_bytes t) s) s) x }
{
    if text.len() > limits.value_bytes {
        return Err(Stop::Fault(EvalFault::ValueTooLong));
    }
    Ok(text)
}

/// The completion of a command, with its result judged by the limit on values.
#[tactic(none)]
pub(crate) fn within(limits: Limits, outcome: Result<String, Stop>) -> Result<String, Stop>
    ensures { (result_use : ResultUse) (s : State) → EvaluatesToText result_use limits.value_bytes result
        (λ t. (most : ℕ) (r : Job →
        plans.Step)
        (k : Next) (x : Point) → Simulates most r
        (after outcome (λ v s'. sized limits.value_bytes (string_bytes v) (k (string_bytes v) s')) s) x
        (after result (λ _ s'. k t s') s) x) }
{
    match outcome {
        Ok(text) => sized(limits, text),
        Err(stop) => Err(stop),
    }
}
