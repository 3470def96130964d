//! Operators between two operands that are literals or scalar variables. Their texts are borrowed from the source or
//! from the variables, so that the comparisons and sums of most loops take no continuation frame and copy no text.
ghost use Rattle.std.specs.Prelude.{◌≡◌, ℕ, Ok, IfSome, IfOk, IfErr};
ghost use Rattle.tcltext.specs.expr.View.{expr_view, operand_view};
ghost use Rattle.tcltext.specs.chars.Numerals.{numeral};
ghost use Rattle.tcltext.specs.declared.chars.number.Numeral.TheVariants.{Whole};
ghost use Rattle.tclvalue.specs.operators.Operators.{binary_value};
ghost use Rattle.tclvalue.specs.operators.Values.{computed_text};
ghost use Rattle.tclvalue.specs.declared.operators.operators.ComputedValue.TheVariants.{Truth};
ghost use Rattle.tclrules.specs.Variables.{State};
ghost use Rattle.tclrules.specs.Plans as plans;
ghost use Rattle.tclrules.specs.Plans.{Job, Next};
ghost use Rattle.tclrules.specs.Simulates.{Simulates, Point};
ghost use Rattle.message.specs.Answers.{Gives};
ghost use Rattle.tcltext.specs.chars.Runs.{Text};
ghost use Rattle.tclvalue.specs.operators.Faults.{reason_of};
ghost use Rattle.tclrules.specs.Words.{read, read_scalar};
ghost use Rattle.tclrules.specs.Expressions.{expr, operand_value};
ghost use Rattle.tclforms.specs.substitution.BorrowedOperands.{operand_text};
ghost use Rattle.tclforms.specs.substitution.Machine.{range_text, bounds};
ghost use Rattle.tclforms.specs.substitution.Stops.{stopped};
ghost use Rattle.tclforms.specs.variables.Locations.{is_global};

use crate::substitution::context::SubstitutionContext;
use crate::substitution::stop::Stop;
use crate::variables::{Content, Scalar, Variables, plain_scalar};
use std::alloc::Global;
use tcltext::expr::{BinaryOperator, Expr, Operand};
use tcltext::script::ByteRange;
use tclvalue::operators::{ComputedValue, ValueFault, compare_numbers, compute, whole_number};

/// An operand whose text is borrowed.
#[derive(Clone, Copy)]
enum BorrowedOperand<'t> {
    /// A number or a truth word of the source.
    Literal(&'t str),
    /// What a scalar variable holds.
    Variable(&'t Content),
}

impl<'t> BorrowedOperand<'t> {
    /// The text of the operand.
    fn text(self) -> &'t str
        ensures { result.now ≡ operand_text self.entry }
    {
        match self {
            BorrowedOperand::Literal(text) => text,
            BorrowedOperand::Variable(content) => content.as_str(),
        }
    }

    /// The whole number that the operand spells; None for any other text.
    fn whole_number(self) -> Option<i64>
        ensures { IfSome result (λ number. numeral (operand_text self.entry) ≡ Whole number) }
    {
        match self {
            BorrowedOperand::Literal(text) => whole_number(text),
            BorrowedOperand::Variable(content) => content.whole_number(),
        }
    }
}

/// What a scalar variable holds; None where it is unset, or is the array `env`.
#[inline(always)]
fn content_of<'v>(variables: &'v Variables, variable: Scalar<'_>) -> Option<&'v Content>
    ensures { IfSome result (λ v. (spelled : Text) (k : Next)
        → read_scalar spelled (is_global variable.entry.scope) variable.entry.name.now variables.entry.now k
        ≡ k v.now variables.entry.now) }
{
    if variable.is_env() {
        return None;
    }
    variables.content(variable)
}

/// What the scalar variable of a name holds; None where the name has an index or a colon, or can't be read.
#[inline(always)]
fn scalar_content<'v>(variables: &'v Variables, name: &str) -> Option<&'v Content>
    ensures { IfSome result (λ v. (k : Next) → read name.now variables.entry.now k ≡ k v.now variables.entry.now) }
{
    content_of(variables, plain_scalar(variables, name)?)
}

/// The operand that is a number, a truth word or a scalar variable; None for all other operands.
#[inline(always)]
fn borrowed_operand<'t>(
    source: &'t str,
    variables: &'t Variables,
    operand: &'t Operand<ByteRange>,
) -> Option<BorrowedOperand<'t>>
    ensures { IfSome result (λ made. (bytes remaining : ℕ) (k : Next) → operand_value (bounds bytes remaining)
        (operand_view (range_text source.entry.now) operand.entry.now) variables.entry.now k
        ≡ k (operand_text made) variables.entry.now) }
{
    match operand {
        Operand::Number(range) | Operand::Word(range) => {
            Some(BorrowedOperand::Literal(range.of(source)))
        }
        Operand::Variable(name) => {
            Some(BorrowedOperand::Variable(scalar_content(variables, name.of(source))?))
        }
        _ => None,
    }
}

/// The expression that is one such operand, whose text is within the limit on the bytes of a value.
#[inline(always)]
fn borrowed<'t>(
    context: SubstitutionContext<'t, 't>,
    expression: &'t Expr<ByteRange>,
) -> Option<BorrowedOperand<'t>>
    ensures { IfSome result (λ made. (remaining : ℕ) (k : Next)
        → expr (bounds context.entry.limits.value_bytes remaining)
        (expr_view (range_text context.entry.source.now) expression.entry.now) context.entry.variables.now k
        ≡ k (operand_text made) context.entry.variables.now) }
{
    let Expr::Operand(operand) = expression else {
        return None;
    };
    let made = borrowed_operand(context.source, context.variables, operand)?;
    if made.text().len() > context.limits.value_bytes {
        return None;
    }
    Some(made)
}

/// Whether an operator that compares holds of two operands that are whole numbers; None for any other operator, and
/// for other operands.
fn compared(
    operator: BinaryOperator,
    left: BorrowedOperand<'_>,
    right: BorrowedOperand<'_>,
) -> Option<bool>
    ensures { IfSome result (λ holds. binary_value operator (operand_text left.entry) (operand_text right.entry)
        ≡ Ok (computed_text (Truth holds))) }
{
    match operator {
        BinaryOperator::Less
        | BinaryOperator::Greater
        | BinaryOperator::LessEqual
        | BinaryOperator::GreaterEqual
        | BinaryOperator::Equal
        | BinaryOperator::NotEqual => {
            compare_numbers(operator, left.whole_number()?, right.whole_number()?)
        }
        _ => None,
    }
}

/// The value of an operator between two such operands. A comparison of whole numbers that are known reads no text.
fn computed(
    alloc: Global,
    operator: BinaryOperator,
    left: BorrowedOperand<'_>,
    right: BorrowedOperand<'_>,
) -> Result<ComputedValue, ValueFault>
    ensures { Gives reason_of computed_text result
        (binary_value operator (operand_text left.entry) (operand_text right.entry)) }
{
    match compared(operator, left, right) {
        Some(holds) => Ok(ComputedValue::Truth(holds)),
        None => compute(alloc, operator, left.text(), right.text()),
    }
}

/// What a binary operator makes of two operands whose texts can be borrowed (literals and scalar variables); None for
/// any other expression, which is evaluated by steps. Errors are those of the operator.
pub fn compute_borrowed(
    context: SubstitutionContext<'_, '_>,
    expression: &Expr<ByteRange>,
) -> Result<Option<ComputedValue>, Stop>
    ensures some { IfOk result (λ made. IfSome made (λ v. (most remaining : ℕ) (r : Job → plans.Step) (k : Next)
        (x : Point)
        → Simulates most r (expr (bounds context.entry.limits.value_bytes remaining)
        (expr_view (range_text context.entry.source.now) expression.now) context.entry.variables.now k) x
        (k (computed_text v) context.entry.variables.now) x)) }
    ensures err { IfErr result (λ stop. (most remaining : ℕ) (r : Job → plans.Step) (k : Next) (x : Point)
        → Simulates most r (expr (bounds context.entry.limits.value_bytes remaining)
        (expr_view (range_text context.entry.source.now) expression.now) context.entry.variables.now k) x
        (stopped stop context.entry.variables.now) x) }
{
    let Expr::Binary(operator, left, right) = expression else {
        return Ok(None);
    };
    let Some(left) = borrowed(context, left) else {
        return Ok(None);
    };
    let Some(right) = borrowed(context, right) else {
        return Ok(None);
    };
    let made = computed(context.alloc, *operator, left, right)?;
    Ok(Some(made))
}
