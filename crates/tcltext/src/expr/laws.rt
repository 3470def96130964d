//! Laws of expressions: functions that do nothing, whose contracts are theorems about the definitions.
ghost use Rattle.std.specs.Prelude.{◌≡◌, ◌≢◌, ◌↔◌, ℕ, Ok, Err};
ghost use Rattle.tcltext.specs.chars.Runs.{Text};
ghost use Rattle.tcltext.specs.declared.chars.fault.Fault.{Fault};
ghost use Rattle.tcltext.specs.declared.chars.fault.TextFault.{TextFault};
ghost use Rattle.tcltext.specs.declared.chars.fault.TextFault.TheVariants.{BadExpression, OutOfMemory};
ghost use Rattle.tcltext.specs.expr.Tree.{Expr};
ghost use Rattle.tcltext.specs.expr.Operands.{Operand};
ghost use Rattle.tcltext.specs.expr.ViablePrefixes.{HasViablePrefixBefore, FollowsViablePrefix};
ghost use Rattle.tcltext.specs.expr.Text.{IsExpression, IsFault, IsWithin, IsTextFault, expr_of};

/// A text is an expression with one tree at most, however deep it nests.
pub fn one_expression()
    ensures { (bs : Text) (h k : ℕ) (e f : Expr Operand) → IsExpression h bs e → IsExpression k bs f → e ≡ f }
{}

/// A text has one fault at most, and then no tree within the limits.
pub fn one_fault()
    ensures one { (bs : Text) (f g : TextFault) → f ≢ OutOfMemory → g ≢ OutOfMemory → IsTextFault bs f
        → IsTextFault bs g → f ≡ g }
    ensures no_tree { (bs : Text) (f : TextFault) (e : Expr Operand) → f ≢ OutOfMemory → IsTextFault bs f
        → IsWithin bs e → ⊥ }
{}

/// `expr_of` gives a tree exactly where the grammar has it within the limits, and a fault exactly where that is the
/// fault of the text; want of memory never.
pub fn expr_of_grammar()
    ensures tree { (bs : Text) (e : Expr Operand) → (expr_of bs ≡ Ok e) ↔ IsWithin bs e }
    ensures fault { (bs : Text) (f : TextFault) → f ≢ OutOfMemory → (expr_of bs ≡ Err f) ↔ IsTextFault bs f }
    ensures no_memory { (bs : Text) → expr_of bs ≢ Err OutOfMemory }
{}

/// Faults are found at the first token that shows them (the correct-prefix property). The tokens before a fault are the
/// beginning of some expression. After them and white space comes what is wrong: an operand, a token that may not
/// follow, or the end of the text; that is the offset of a wrong expression.
pub fn correct_prefix()
    ensures prefix { (d : ℕ) (bs : Text) (f : Fault) → IsFault d bs f → FollowsViablePrefix bs f }
    ensures offset { (bs : Text) (at : ℕ) → IsTextFault bs (BadExpression at) → HasViablePrefixBefore bs at }
{}
