//! Scripts, commands, words and expressions, which evaluate one another: one cycle of methods, which ends since each
//! script in another has less depth remaining, and each command and each turn of a loop is counted.
ghost use Rattle.std.specs.Prelude.{◌≡◌, ◌<◌, ◌∷◌, [], Bool, true, false, List, drop, map, option_map, IfOk};
ghost use Rattle.std.specs.Prelude.{string_bytes};
ghost use Rattle.tcltext.specs.chars.Runs.{Text};
ghost use Rattle.tcltext.specs.script.Tree.{commands_of, words_of};
ghost use Rattle.tcltext.specs.script.Owned.{owned_view};
ghost use Rattle.tcltext.specs.script.View.{script_view, command_view, word_view, content_view, parts_view};
ghost use Rattle.tclrules.specs.Derivation.{Moves, Runs};
ghost use Rattle.tclrules.specs.Variables.{State, lookup};
ghost use Rattle.tclforms.specs.variables.Views.{procedure_view};
ghost use Rattle.tclrules.specs.Plans as plans;
ghost use Rattle.tclrules.specs.Plans.{Next, on_normal, sized, with_script, without_innermost};
ghost use Rattle.tclrules.specs.Words as pieces;
ghost use Rattle.tclrules.specs.Expressions.{express, decide};
ghost use Rattle.tclrules.specs.Rules as rules;
ghost use Rattle.tclrules.specs.Rules.{rule, called, counted, turn};
ghost use Rattle.tclrules.specs.Forms as forms;
ghost use Rattle.tclforms.specs.Views.{form_view, simple_view, pair_texts};
ghost use Rattle.tclforms.specs.substitution.Machine.{range_text, control_plan};
ghost use Rattle.tcltext.specs.expr.Owned as expression;
ghost use Rattle.tclcommands.specs.CommandTexts.{name_of};
ghost use Rattle.tclcommands.specs.declared.result_use.ResultUse.TheVariants.{Dropped};
ghost use Rattle.tclcommands.specs.Completions.{EvaluatesToText, finish, sized_next, loop_continuation, guarded};
ghost use Rattle.tclcommands.specs.Completions.{expression_plan, condition_plan};
ghost use Rattle.tcleval.specs.Continues.{Continues, bounds_of, with_text};
ghost use Rattle.tcleval.specs.LoopBodies.{HasItsTree, IsSameBody};
ghost use Rattle.tcleval.specs.OnlyGrows.{OnlyGrows};

use crate::bounds::Bounds;
use crate::evaluator::{Evaluator, sized, within};
use crate::literals::literal_form;
use crate::loop_body::LoopBody;
use crate::sourced::SourcedTree;
use crate::trees::{expression_tree, normal};
use crate::turns::begin_turn;
use crate::words::{braced_value, copied, literal_part, push_words};
use std::rc::Rc;
use tclcommands::{
    CommandWords, ResultUse, after_call, after_next, after_turn, assign, catch_outcome,
    simple_command, store_caught, unknown_command,
};
use tclforms::substitution::{Control, Step, Stop, SubstitutionContext, advance};
use tclforms::variables::Procedure;
use tclforms::{ForLoop, Form, Loops, SimpleForm, WhileLoop, chosen, core_form, parameter_values};
use tclrules::Host;
use tcltext::expr::OwnedExpr;
use tcltext::script::{ByteRange, Command, OwnedScript, Part, Script, Word, WordContent};
use tclvalue::operators::truth;
use tclvalue::{concatenated, value_command};

impl Evaluator {
    /// Evaluates a text as a script: a body, or the script of catch(n).
    #[cycle(evaluate)]
    #[tactic(none)]
    pub(crate) fn script<H: Host>(
        &mut self,
        host: &mut H,
        bounds: Bounds,
        text: &str,
        result_use: ResultUse,
    ) -> Result<String, Stop>
        ensures evaluates_to { EvaluatesToText result_use bounds.limits.value_bytes result
            (λ t. Continues H.oracle H.trace bounds
            (rule bounds.limits.value_bytes (plans.Script bounds.remaining text.now self.old.variables))
            (host.old, self.old) result (λ _ s. finish t s) (host.new, self.new)) }
        ensures only_grows { OnlyGrows self.old self.new }
    {
        let inside = bounds.inside()?;
        match self.cache.script_tree(text) {
            Ok(tree) => self.parsed_script(host, inside, &tree, result_use),
            Err(fault) => Err(Stop::from(fault)),
        }
    }

    /// Evaluates a script that a loop evaluates in each turn. The result isn't needed.
    #[cycle(evaluate)]
    #[tactic(none)]
    #[inline(always)]
    fn repeated_script<H: Host>(
        &mut self,
        host: &mut H,
        bounds: Bounds,
        body: &mut LoopBody<'_>,
    ) -> Result<String, Stop>
        requires { HasItsTree body.old }
        ensures evaluates_to { EvaluatesToText Dropped bounds.limits.value_bytes result
            (λ t. Continues H.oracle H.trace bounds
            (rule bounds.limits.value_bytes (plans.Script bounds.remaining body.old.text.now self.old.variables))
            (host.old, self.old) result (λ _ s. finish t s) (host.new, self.new)) }
        ensures only_grows { OnlyGrows self.old self.new }
        ensures kept { IsSameBody body.old body.new }
    {
        let inside = bounds.inside()?;
        match body.tree(&mut self.cache) {
            Ok(tree) => self.parsed_script(host, inside, &tree, ResultUse::Dropped),
            Err(fault) => Err(Stop::from(fault)),
        }
    }

    /// Evaluates a script whose text is parsed. It is under evaluation until it comes to its end.
    #[cycle(evaluate)]
    #[tactic(none)]
    fn parsed_script<H: Host>(
        &mut self,
        host: &mut H,
        bounds: Bounds,
        tree: &Rc<OwnedScript>,
        result_use: ResultUse,
    ) -> Result<String, Stop>
        ensures evaluates_to { EvaluatesToText result_use bounds.limits.value_bytes result
            (λ t. Continues H.oracle H.trace bounds
            (Moves (with_script (bounds_of bounds) (string_bytes tree.now.value.text))
            (rules.script_commands (bounds_of bounds) (owned_view tree.now.value) [] self.old.variables))
            (host.old, self.old) result (λ _ s. finish t s) (host.new, self.new)) }
        ensures only_grows { OnlyGrows self.old self.new }
    {
        self.scripts.begin(bounds.remaining, tree)?;
        let script = SourcedTree {
            source: tree.text.as_str(),
            tree: &tree.script,
        };
        let last = self.script_commands(host, bounds, script, result_use)?;
        self.scripts.end();
        Ok(last)
    }

    /// Evaluates the commands of a script with a text of its own in turn, and notes their offsets; the result is the
    /// last command's.
    #[cycle(evaluate)]
    #[tactic(none)]
    fn script_commands<H: Host>(
        &mut self,
        host: &mut H,
        bounds: Bounds,
        script: SourcedTree<'_, &Script<ByteRange>>,
        result_use: ResultUse,
    ) -> Result<String, Stop>
        ensures evaluates_to { EvaluatesToText result_use bounds.limits.value_bytes result
            (λ t. Continues H.oracle H.trace bounds
            (rules.script_commands (bounds_of bounds)
            (script_view (range_text script.entry.source.now) script.entry.tree.now) [] self.old.variables)
            (host.old, self.old) result (λ _ s. Moves without_innermost (finish t s)) (host.new, self.new)) }
        ensures only_grows { OnlyGrows self.old self.new }
    {
        let mut last = String::new(self.alloc);
        for command in &script.tree.commands {
            self.scripts.move_to(command.offset);
            let command = SourcedTree {
                source: script.source,
                tree: command,
            };
            last = self.command(host, bounds, command, result_use)?;
        }
        Ok(last)
    }

    /// Evaluates the script of a bracket, which was parsed with what it stands in.
    #[cycle(evaluate)]
    #[tactic(none)]
    fn bracket<H: Host>(
        &mut self,
        host: &mut H,
        bounds: Bounds,
        script: SourcedTree<'_, &Script<ByteRange>>,
    ) -> Result<String, Stop>
        ensures evaluates_to { (k : Next) → Continues H.oracle H.trace bounds
            (Runs (plans.Bracket bounds.remaining
            (script_view (range_text script.entry.source.now) script.entry.tree.now) self.old.variables) (on_normal k))
            (host.old, self.old) result (with_text k) (host.new, self.new) }
        ensures only_grows { OnlyGrows self.old self.new }
    {
        self.commands(host, bounds.inside()?, script, ResultUse::Needed)
    }

    /// Evaluates the commands of the script of a bracket in turn; the result is the last command's.
    #[cycle(evaluate)]
    #[tactic(none)]
    fn commands<H: Host>(
        &mut self,
        host: &mut H,
        bounds: Bounds,
        script: SourcedTree<'_, &Script<ByteRange>>,
        result_use: ResultUse,
    ) -> Result<String, Stop>
        ensures evaluates_to { EvaluatesToText result_use bounds.limits.value_bytes result
            (λ t. Continues H.oracle H.trace bounds
            (rules.commands (bounds_of bounds)
            (script_view (range_text script.entry.source.now) script.entry.tree.now) [] self.old.variables)
            (host.old, self.old) result (λ _ s. finish t s) (host.new, self.new)) }
        ensures only_grows { OnlyGrows self.old self.new }
    {
        let mut last = String::new(self.alloc);
        for command in &script.tree.commands {
            let command = SourcedTree {
                source: script.source,
                tree: command,
            };
            last = self.command(host, bounds, command, result_use)?;
        }
        Ok(last)
    }

    /// Evaluates a command, which is counted before its words are substituted.
    ///
    /// Errors: the completion of the command where that isn't `ok`, or a halt.
    #[cycle(evaluate)]
    #[tactic(none)]
    pub fn command<H: Host>(
        &mut self,
        host: &mut H,
        bounds: Bounds,
        command: SourcedTree<'_, &Command<ByteRange>>,
        result_use: ResultUse,
    ) -> Result<String, Stop>
        ensures evaluates_to { EvaluatesToText result_use bounds.limits.value_bytes result
            (λ t. (k : Next) → Continues H.oracle H.trace bounds
            (counted (bounds_of bounds)
            (command_view (range_text command.entry.source.now) command.entry.tree.now).words self.old.variables k)
            (host.old, self.old) result (λ _ s. k t s) (host.new, self.new)) }
        ensures only_grows { OnlyGrows self.old self.new }
    {
        self.count(bounds.limits)?;
        let words = SourcedTree {
            source: command.source,
            tree: command.tree.words.as_slice(),
        };
        if let Some(form) = literal_form(bounds.limits, words) {
            return self.simple(host, bounds, form, result_use);
        }
        let texts = self.words(host, bounds, words)?;
        self.called(host, bounds, &texts, result_use)
    }

    /// The values of the words of a command, from left to right, with the words that `{*}` makes.
    #[cycle(evaluate)]
    #[tactic(none)]
    fn words<H: Host>(
        &mut self,
        host: &mut H,
        bounds: Bounds,
        words: SourcedTree<'_, &[Word<ByteRange>]>,
    ) -> Result<Vec<String>, Stop>
        ensures evaluates_to { (k : List Text → State → plans.Step) → Continues H.oracle H.trace bounds
            (pieces.words (bounds_of bounds)
            (words_of (map (word_view (range_text words.entry.source.now)) words.entry.tree.now)) []
            self.old.variables k)
            (host.old, self.old) result (λ ts s. k (map string_bytes ts.items) s) (host.new, self.new) }
        ensures only_grows { OnlyGrows self.old self.new }
    {
        let mut texts = Vec::new(self.alloc);
        for word in words.tree {
            let content = SourcedTree {
                source: words.source,
                tree: &word.content,
            };
            let text = self.word(host, bounds, content)?;
            push_words(self.alloc, &mut texts, word.expands, text)?;
        }
        Ok(texts)
    }

    /// The value of a word. One that is a piece of the source is made without steps.
    #[cycle(evaluate)]
    #[tactic(none)]
    fn word<H: Host>(
        &mut self,
        host: &mut H,
        bounds: Bounds,
        word: SourcedTree<'_, &WordContent<ByteRange>>,
    ) -> Result<String, Stop>
        ensures evaluates_to { (k : Next) → Continues H.oracle H.trace bounds
            (pieces.parts (bounds_of bounds) (content_view (range_text word.entry.source.now) word.entry.tree.now) []
            self.old.variables k)
            (host.old, self.old) result (with_text k) (host.new, self.new) }
        ensures only_grows { OnlyGrows self.old self.new }
    {
        match word.tree {
            WordContent::Bare(range) => copied(self.alloc, bounds.limits, range.of(word.source)),
            WordContent::Braced(range) => {
                braced_value(self.alloc, bounds.limits, range.of(word.source))
            }
            WordContent::Parts(parts) => {
                let parts = SourcedTree {
                    source: word.source,
                    tree: parts.as_slice(),
                };
                self.joined_parts(host, bounds, parts)
            }
        }
    }

    /// The values of parts, joined. One literal part is copied without steps.
    #[cycle(evaluate)]
    #[tactic(none)]
    fn joined_parts<H: Host>(
        &mut self,
        host: &mut H,
        bounds: Bounds,
        parts: SourcedTree<'_, &[Part<ByteRange>]>,
    ) -> Result<String, Stop>
        ensures evaluates_to { (k : Next) → Continues H.oracle H.trace bounds
            (pieces.parts (bounds_of bounds) (parts_view (range_text parts.entry.source.now) parts.entry.tree.now) []
            self.old.variables k)
            (host.old, self.old) result (with_text k) (host.new, self.new) }
        ensures only_grows { OnlyGrows self.old self.new }
    {
        if let Some(range) = literal_part(parts.tree) {
            return copied(self.alloc, bounds.limits, range.of(parts.source));
        }
        let start = Control::Parts(String::new(self.alloc), parts.tree);
        self.value(host, bounds, parts.source, start)
    }

    /// The value of a word or of an expression of a source text: steps of the substitution, between which brackets are
    /// evaluated.
    #[cycle(evaluate)]
    #[tactic(none)]
    fn value<'a, H: Host>(
        &mut self,
        host: &mut H,
        bounds: Bounds,
        source: &'a str,
        start: Control<'a>,
    ) -> Result<String, Stop>
        ensures evaluates_to { (k : Next) → Continues H.oracle H.trace bounds
            (control_plan source.entry.now (bounds_of bounds) start.entry self.old.variables k)
            (host.old, self.old) result (with_text k) (host.new, self.new) }
        ensures only_grows { OnlyGrows self.old self.new }
    {
        let mut stack = Vec::new(self.alloc);
        let mut control = start;
        loop {
            let context = SubstitutionContext {
                alloc: self.alloc,
                limits: bounds.limits,
                source,
                variables: &self.variables,
            };
            match advance(context, host, &mut stack, control)? {
                Step::Next(next) => control = next,
                Step::Done(value) => return Ok(value),
                Step::Bracket(tree) => {
                    let value = self.bracket(host, bounds, SourcedTree { source, tree })?;
                    control = Control::Value(value);
                }
            }
        }
    }

    /// The value of a text as an expression (expr(n)).
    #[cycle(evaluate)]
    #[tactic(none)]
    fn express<H: Host>(&mut self, host: &mut H, bounds: Bounds, text: &str) -> Result<String, Stop>
        ensures evaluates_to { (k : Next) → Continues H.oracle H.trace bounds
            (express (bounds_of bounds) text.now self.old.variables k)
            (host.old, self.old) result (with_text k) (host.new, self.new) }
        ensures only_grows { OnlyGrows self.old self.new }
    {
        let tree = expression_tree(self.alloc, &mut self.cache, text)?;
        self.expression_value(host, bounds, &tree)
    }

    /// The value of an expression whose text is parsed; a whole number is written in decimal.
    #[cycle(evaluate)]
    #[tactic(none)]
    fn expression_value<H: Host>(
        &mut self,
        host: &mut H,
        bounds: Bounds,
        tree: &OwnedExpr,
    ) -> Result<String, Stop>
        ensures evaluates_to { (k : Next) → Continues H.oracle H.trace bounds
            (expression_plan (bounds_of bounds) (expression.owned_view tree.now) self.old.variables k)
            (host.old, self.old) result (with_text k) (host.new, self.new) }
        ensures only_grows { OnlyGrows self.old self.new }
    {
        let start = Control::Expression(&tree.expression);
        let value = self.value(host, bounds, tree.text.as_str(), start)?;
        let value = normal(self.alloc, value)?;
        sized(bounds.limits, value)
    }

    /// Whether a text holds as a condition.
    #[cycle(evaluate)]
    #[tactic(none)]
    fn decide<H: Host>(&mut self, host: &mut H, bounds: Bounds, text: &str) -> Result<bool, Stop>
        ensures evaluates_to { (k : Bool → State → plans.Step) → Continues H.oracle H.trace bounds
            (decide (bounds_of bounds) text.now self.old.variables k)
            (host.old, self.old) result k (host.new, self.new) }
        ensures only_grows { OnlyGrows self.old self.new }
    {
        let tree = expression_tree(self.alloc, &mut self.cache, text)?;
        self.holds(host, bounds, &tree)
    }

    /// Whether an expression whose text is parsed holds as a condition.
    #[cycle(evaluate)]
    #[tactic(none)]
    #[inline(always)]
    fn holds<H: Host>(
        &mut self,
        host: &mut H,
        bounds: Bounds,
        tree: &OwnedExpr,
    ) -> Result<bool, Stop>
        ensures evaluates_to { (k : Bool → State → plans.Step) → Continues H.oracle H.trace bounds
            (condition_plan (bounds_of bounds) (expression.owned_view tree.now) self.old.variables k)
            (host.old, self.old) result k (host.new, self.new) }
        ensures only_grows { OnlyGrows self.old self.new }
    {
        if let Some(holds) = self.comparison(bounds.limits, tree)? {
            return Ok(holds);
        }
        let value = self.expression_value(host, bounds, tree)?;
        Ok(truth(self.alloc, value.as_str())?)
    }

    /// A turn of a loop, which is counted as its body begins; whether the loop continues.
    #[cycle(evaluate)]
    #[tactic(none)]
    #[inline(always)]
    fn turn<H: Host>(
        &mut self,
        host: &mut H,
        bounds: Bounds,
        body: &mut LoopBody<'_>,
    ) -> Result<bool, Stop>
        requires { HasItsTree body.old }
        ensures evaluates_to { (again : State → plans.Step) → Continues H.oracle H.trace bounds
            (turn (bounds_of bounds) body.old.text.now self.old.variables again)
            (host.old, self.old) result (loop_continuation again) (host.new, self.new) }
        ensures only_grows { OnlyGrows self.old self.new }
        ensures kept { IsSameBody body.old body.new }
        ensures counted { IfOk result (λ more.
            (self.old.used < bounds.limits.commands) × (self.old.used < self.new.used)) }
    {
        self.count(bounds.limits)?;
        let more = after_turn(self.repeated_script(host, bounds, body));
        self.left(bounds, more)
    }

    /// The condition of a loop and, where it holds, a turn; whether the loop continues.
    #[cycle(evaluate)]
    #[tactic(none)]
    #[inline(always)]
    fn guarded_turn<H: Host>(
        &mut self,
        host: &mut H,
        bounds: Bounds,
        condition: &OwnedExpr,
        body: &mut LoopBody<'_>,
    ) -> Result<bool, Stop>
        requires { HasItsTree body.old }
        ensures evaluates_to { (again : State → plans.Step) → Continues H.oracle H.trace bounds
            (condition_plan (bounds_of bounds) (expression.owned_view condition.now) self.old.variables
            (guarded (bounds_of bounds) body.old.text.now again))
            (host.old, self.old) result (loop_continuation again) (host.new, self.new) }
        ensures only_grows { OnlyGrows self.old self.new }
        ensures kept { IsSameBody body.old body.new }
        ensures counted { IfOk result (λ more. more ≡ true
            → (self.old.used < bounds.limits.commands) × (self.old.used < self.new.used)) }
    {
        if self.holds(host, bounds, condition)? {
            return self.turn(host, bounds, body);
        }
        Ok(false)
    }

    /// while(n).
    #[cycle(evaluate)]
    #[tactic(none)]
    fn while_turns<H: Host>(
        &mut self,
        host: &mut H,
        bounds: Bounds,
        parts: WhileLoop<'_>,
    ) -> Result<String, Stop>
        ensures evaluates_to { (k : Next) → Continues H.oracle H.trace bounds
            (Runs (plans.While bounds.remaining parts.entry.condition.now parts.entry.body.now self.old.variables)
            (on_normal k))
            (host.old, self.old) result (with_text k) (host.new, self.new) }
        ensures only_grows { OnlyGrows self.old self.new }
    {
        let condition = expression_tree(self.alloc, &mut self.cache, parts.condition)?;
        let mut body = LoopBody::new(parts.body);
        loop {
            if !self.guarded_turn(host, bounds, &condition, &mut body)? {
                return Ok(String::new(self.alloc));
            }
        }
    }

    /// for(n): the script that begins it, and its turns.
    #[cycle(evaluate)]
    #[tactic(none)]
    fn for_loop<H: Host>(
        &mut self,
        host: &mut H,
        bounds: Bounds,
        parts: ForLoop<'_>,
    ) -> Result<String, Stop>
        ensures evaluates_to { (k : Next) → Continues H.oracle H.trace bounds
            (rules.form (bounds_of bounds) (forms.For parts.entry.start.now parts.entry.condition.now
            parts.entry.next.now parts.entry.body.now) self.old.variables k)
            (host.old, self.old) result (with_text k) (host.new, self.new) }
        ensures only_grows { OnlyGrows self.old self.new }
    {
        let _ = self.script(host, bounds, parts.start, ResultUse::Dropped)?;
        self.for_turns(host, bounds, parts)
    }

    /// The turns of for(n), with the script `next` between them.
    #[cycle(evaluate)]
    #[tactic(none)]
    fn for_turns<H: Host>(
        &mut self,
        host: &mut H,
        bounds: Bounds,
        parts: ForLoop<'_>,
    ) -> Result<String, Stop>
        ensures evaluates_to { (k : Next) → Continues H.oracle H.trace bounds
            (Runs (plans.For bounds.remaining parts.entry.condition.now parts.entry.next.now parts.entry.body.now
            self.old.variables) (on_normal k))
            (host.old, self.old) result (with_text k) (host.new, self.new) }
        ensures only_grows { OnlyGrows self.old self.new }
    {
        let condition = expression_tree(self.alloc, &mut self.cache, parts.condition)?;
        let mut body = LoopBody::new(parts.body);
        let mut next = LoopBody::new(parts.next);
        loop {
            if !self.guarded_turn(host, bounds, &condition, &mut body)? {
                return Ok(String::new(self.alloc));
            }
            let more = after_next(self.repeated_script(host, bounds, &mut next));
            if !self.left(bounds, more)? {
                return Ok(String::new(self.alloc));
            }
        }
    }

    /// Evaluates the body that if(n) or switch(n) has chosen; without one the result is empty.
    #[cycle(evaluate)]
    #[tactic(none)]
    fn otherwise<H: Host>(
        &mut self,
        host: &mut H,
        bounds: Bounds,
        body: Option<&str>,
        result_use: ResultUse,
    ) -> Result<String, Stop>
        ensures evaluates_to { EvaluatesToText result_use bounds.limits.value_bytes result
            (λ t. (k : Next) → Continues H.oracle H.trace bounds
            (rules.otherwise (bounds_of bounds) (option_map (λ t. t.now) body.entry) self.old.variables
            (sized_next bounds.limits.value_bytes k))
            (host.old, self.old) result (λ _ s. k t s) (host.new, self.new)) }
        ensures only_grows { OnlyGrows self.old self.new }
    {
        match body {
            None => Ok(String::new(self.alloc)),
            Some(body) => self.script(host, bounds, body, result_use),
        }
    }

    /// if(n): evaluates the first body whose condition holds, or else that after `else`.
    #[cycle(evaluate)]
    #[tactic(none)]
    fn branches<H: Host>(
        &mut self,
        host: &mut H,
        bounds: Bounds,
        branches: &[(&str, &str)],
        other: Option<&str>,
        result_use: ResultUse,
    ) -> Result<String, Stop>
        ensures evaluates_to { EvaluatesToText result_use bounds.limits.value_bytes result
            (λ t. (k : Next) → Continues H.oracle H.trace bounds
            (rules.branches (bounds_of bounds) (pair_texts branches.now) (option_map (λ t. t.now) other.entry)
            self.old.variables (sized_next bounds.limits.value_bytes k))
            (host.old, self.old) result (λ _ s. k t s) (host.new, self.new)) }
        ensures only_grows { OnlyGrows self.old self.new }
    {
        for (condition, body) in branches {
            if self.decide(host, bounds, condition)? {
                return self.script(host, bounds, body, result_use);
            }
        }
        self.otherwise(host, bounds, other, result_use)
    }

    /// catch(n). The result of its script is always made, also where no variable takes it.
    #[cycle(evaluate)]
    #[tactic(none)]
    fn catch<H: Host>(
        &mut self,
        host: &mut H,
        bounds: Bounds,
        body: &str,
        name: Option<&str>,
    ) -> Result<String, Stop>
        ensures evaluates_to { (k : Next) → Continues H.oracle H.trace bounds
            (rules.form (bounds_of bounds) (forms.Catch body.now (option_map (λ v. v.now) name.entry))
            self.old.variables k)
            (host.old, self.old) result (with_text k) (host.new, self.new) }
        ensures only_grows { OnlyGrows self.old self.new }
    {
        let outcome = self.script(host, bounds, body, ResultUse::Needed);
        let caught = catch_outcome(self.alloc, outcome);
        let caught = self.left(bounds, caught)?;
        store_caught(self.alloc, &mut self.variables, bounds.limits, name, caught)
    }

    /// expr(n), of which the words make one text.
    #[cycle(evaluate)]
    #[tactic(none)]
    fn express_words<H: Host>(
        &mut self,
        host: &mut H,
        bounds: Bounds,
        words: &[String],
    ) -> Result<String, Stop>
        ensures evaluates_to { (k : Next) → Continues H.oracle H.trace bounds
            (rules.form (bounds_of bounds) (forms.Express (map string_bytes words.now)) self.old.variables k)
            (host.old, self.old) result (with_text k) (host.new, self.new) }
        ensures only_grows { OnlyGrows self.old self.new }
    {
        let text = concatenated(self.alloc, words, bounds.limits.value_bytes)?;
        self.express(host, bounds, text.as_str())
    }

    /// Does a core command that evaluates no script, by its form.
    #[tactic(none)]
    #[inline(always)]
    fn simple<H: Host>(
        &mut self,
        host: &mut H,
        bounds: Bounds,
        form: SimpleForm<'_>,
        result_use: ResultUse,
    ) -> Result<String, Stop>
        ensures evaluates_to { EvaluatesToText result_use bounds.limits.value_bytes result
            (λ t. (k : Next) → Continues H.oracle H.trace bounds
            (rules.form (bounds_of bounds) (simple_view form.entry) self.old.variables
            (sized_next bounds.limits.value_bytes k))
            (host.old, self.old) result (λ _ s. k t s) (host.new, self.new)) }
        ensures only_grows { OnlyGrows self.old self.new }
    {
        simple_command(
            self.alloc,
            &mut self.variables,
            host,
            bounds.limits,
            result_use,
            form,
        )
    }

    /// Does a core command, by its form.
    #[cycle(evaluate)]
    #[tactic(none)]
    fn form<H: Host>(
        &mut self,
        host: &mut H,
        bounds: Bounds,
        form: Form<'_>,
        result_use: ResultUse,
    ) -> Result<String, Stop>
        ensures evaluates_to { EvaluatesToText result_use bounds.limits.value_bytes result
            (λ t. (k : Next) → Continues H.oracle H.trace bounds
            (rules.form (bounds_of bounds) (form_view form.entry) self.old.variables
            (sized_next bounds.limits.value_bytes k))
            (host.old, self.old) result (λ _ s. k t s) (host.new, self.new)) }
        ensures only_grows { OnlyGrows self.old self.new }
    {
        let limits = bounds.limits;
        match form {
            Form::Simple(form) => self.simple(host, bounds, form, result_use),
            Form::Express(words) => within(limits, self.express_words(host, bounds, words)),
            Form::If(branches, other) => {
                self.branches(host, bounds, branches.as_slice(), other, result_use)
            }
            Form::While(parts) => within(limits, self.while_turns(host, bounds, parts)),
            Form::For(parts) => within(limits, self.for_loop(host, bounds, parts)),
            Form::Foreach(lists, body) => {
                within(limits, self.foreach(host, bounds, lists.as_slice(), body))
            }
            Form::Switch(comparison, text, patterns) => {
                let body = chosen(comparison, text, patterns.as_slice());
                self.otherwise(host, bounds, body, result_use)
            }
            Form::Catch(body, name) => within(limits, self.catch(host, bounds, body, name)),
        }
    }

    /// Does the command of these words, of which the first names it: one that takes values alone, a core command, a
    /// procedure, or one that the host does. Without words the result is empty.
    #[cycle(evaluate)]
    #[tactic(none)]
    fn called<H: Host>(
        &mut self,
        host: &mut H,
        bounds: Bounds,
        words: &[String],
        result_use: ResultUse,
    ) -> Result<String, Stop>
        ensures evaluates_to { EvaluatesToText result_use bounds.limits.value_bytes result
            (λ t. (k : Next) → Continues H.oracle H.trace bounds
            (called (bounds_of bounds) (map string_bytes words.now) self.old.variables
            (sized_next bounds.limits.value_bytes k))
            (host.old, self.old) result (λ _ s. k t s) (host.new, self.new)) }
        ensures only_grows { OnlyGrows self.old self.new }
    {
        let Some(command) = CommandWords::of(words) else {
            return Ok(String::new(self.alloc));
        };
        match value_command(self.alloc, words, bounds.limits.value_bytes)? {
            Some(value) => within(bounds.limits, Ok(value)),
            None => self.core_command(host, bounds, command, result_use),
        }
    }

    /// Does a core command, or one of another name.
    #[cycle(evaluate)]
    #[tactic(none)]
    fn core_command<H: Host>(
        &mut self,
        host: &mut H,
        bounds: Bounds,
        command: CommandWords<'_>,
        result_use: ResultUse,
    ) -> Result<String, Stop>
        ensures evaluates_to { EvaluatesToText result_use bounds.limits.value_bytes result
            (λ t. (k : Next) → Continues H.oracle H.trace bounds
            (rules.core_command (bounds_of bounds) (name_of command.entry.words.now)
            (map string_bytes (drop 1 command.entry.words.now)) self.old.variables
            (sized_next bounds.limits.value_bytes k)
            (forms.core_form (name_of command.entry.words.now) (map string_bytes (drop 1 command.entry.words.now))))
            (host.old, self.old) result (λ _ s. k t s) (host.new, self.new)) }
        ensures only_grows { OnlyGrows self.old self.new }
    {
        match core_form(self.alloc, command.name(), command.operands())? {
            Some(form) => self.form(host, bounds, form, result_use),
            None => self.other_command(host, bounds, command, result_use),
        }
    }

    /// Does a command whose name is no core command's: calls the procedure of this name, or hands the words to the
    /// host.
    #[cycle(evaluate)]
    #[tactic(none)]
    fn other_command<H: Host>(
        &mut self,
        host: &mut H,
        bounds: Bounds,
        command: CommandWords<'_>,
        result_use: ResultUse,
    ) -> Result<String, Stop>
        ensures evaluates_to { EvaluatesToText result_use bounds.limits.value_bytes result
            (λ t. (k : Next) → Continues H.oracle H.trace bounds
            (rules.other_command (bounds_of bounds) (name_of command.entry.words.now)
            (map string_bytes (drop 1 command.entry.words.now)) self.old.variables
            (sized_next bounds.limits.value_bytes k)
            (lookup self.old.variables.procedures (name_of command.entry.words.now)))
            (host.old, self.old) result (λ _ s. k t s) (host.new, self.new)) }
        ensures only_grows { OnlyGrows self.old self.new }
    {
        match self.variables.procedure(command.name()) {
            Some(procedure) => {
                let procedure = procedure.clone()?;
                within(bounds.limits, self.call(host, bounds, command, &procedure))
            }
            None => unknown_command(
                self.alloc,
                &self.variables,
                host,
                bounds.limits,
                result_use,
                command,
            ),
        }
    }

    /// Calls a procedure by its command: binds its parameters in a frame of its own, and evaluates its body.
    #[cycle(evaluate)]
    #[tactic(none)]
    fn call<H: Host>(
        &mut self,
        host: &mut H,
        bounds: Bounds,
        command: CommandWords<'_>,
        procedure: &Procedure,
    ) -> Result<String, Stop>
        ensures evaluates_to { (k : Next) → Continues H.oracle H.trace bounds
            (rules.call (bounds_of bounds) (name_of command.entry.words.now) (procedure_view procedure.now)
            (map string_bytes (drop 1 command.entry.words.now)) self.old.variables k)
            (host.old, self.old) result (with_text k) (host.new, self.new) }
        ensures only_grows { OnlyGrows self.old self.new }
    {
        let values = parameter_values(
            self.alloc,
            command.name(),
            &procedure.parameters,
            command.operands(),
        )?;
        let caller = self.variables.enter(self.alloc);
        assign(
            self.alloc,
            &mut self.variables,
            bounds.limits.value_bytes,
            values,
        )?;
        let outcome = self.script(host, bounds, procedure.body.as_str(), ResultUse::Needed);
        self.variables.leave(caller);
        self.left(bounds, after_call(self.alloc, outcome))
    }

    /// foreach(n): reads the lists of names and of items, and evaluates the turns.
    #[cycle(evaluate)]
    #[tactic(none)]
    fn foreach<H: Host>(
        &mut self,
        host: &mut H,
        bounds: Bounds,
        lists: &[(&str, &str)],
        body: &str,
    ) -> Result<String, Stop>
        ensures evaluates_to { (k : Next) → Continues H.oracle H.trace bounds
            (rules.form (bounds_of bounds) (forms.Foreach (pair_texts lists.now) body.now) self.old.variables k)
            (host.old, self.old) result (with_text k) (host.new, self.new) }
        ensures only_grows { OnlyGrows self.old self.new }
    {
        let mut loops = Loops::of(self.alloc, lists)?;
        self.foreach_turns(host, bounds, &mut loops, body)
    }

    /// The turns of foreach(n), until the items of all lists are used.
    #[cycle(evaluate)]
    #[tactic(none)]
    fn foreach_turns<H: Host>(
        &mut self,
        host: &mut H,
        bounds: Bounds,
        loops: &mut Loops,
        body: &str,
    ) -> Result<String, Stop>
        ensures evaluates_to { (k : Next) → Continues H.oracle H.trace bounds
            (Runs (plans.Foreach bounds.remaining loops.old body.now self.old.variables) (on_normal k))
            (host.old, self.old) result (with_text k) (host.new, self.new) }
        ensures only_grows { OnlyGrows self.old self.new }
    {
        let mut script = LoopBody::new(body);
        loop {
            if loops.are_done() {
                return Ok(String::new(self.alloc));
            }
            begin_turn(self.alloc, &mut self.variables, bounds.limits, loops)?;
            if !self.turn(host, bounds, &mut script)? {
                return Ok(String::new(self.alloc));
            }
        }
    }
}
