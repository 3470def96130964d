//! The steps of a substitution. Each takes what is evaluated next and the stack of frames, and answers what is
//! evaluated after it. By its clause a step follows the rules of evaluation, and makes the measure of what is still to
//! be done smaller.
ghost use Rattle.std.specs.Prelude.{◌≡◌, ◌++◌, ◌+◌, ℕ, [], ◌∷◌, reverse, string_bytes, OnOk, OnErr, IfOk, IfErr};
ghost use Rattle.std.specs.Prelude.{encode_utf8};
ghost use Rattle.tcltext.specs.chars.BracedText.{braced_text};
ghost use Rattle.tcltext.specs.script.View.{part_view, parts_view};
ghost use Rattle.tcltext.specs.expr.View.{expr_view, operand_view};
ghost use Rattle.tclvalue.specs.operators.Operators.{truth_text};
ghost use Rattle.tclrules.specs.Simulates.{point};
ghost use Rattle.tclrules.specs.Plans.{sized};
ghost use Rattle.tclrules.specs.Words.{parts, one};
ghost use Rattle.tclrules.specs.Expressions.{expr, operand_value};
ghost use Rattle.tclforms.specs.substitution.Weights.{parts_weight, part_weight, expr_weight, operand_weight};
ghost use Rattle.tclforms.specs.substitution.Machine.{range_text, continuation, stack_continuation, control_plan};
ghost use Rattle.tclforms.specs.substitution.Machine.{frame_weight, frames_weight, control_weight, StepsTo};
ghost use Rattle.tclforms.specs.declared.substitution.frame.WaitingFrame.TheVariants.{And, Or, Choice};
ghost use Rattle.tclforms.specs.declared.substitution.stop.Stop.TheVariants.{Fault};
ghost use Rattle.tclrules.specs.declared.outcome.EvalFault.TheVariants.{OutOfMemory};

use crate::substitution::borrowed_operands::compute_borrowed;
use crate::substitution::context::SubstitutionContext;
use crate::substitution::frame::{Control, Step, WaitingFrame};
use crate::substitution::reading::{read, read_element};
use crate::substitution::stop::Stop;
use std::alloc::Global;
use tclrules::{EvalFault, Host};
use tcltext::chars::push_braced_text;
use tcltext::expr::{Expr, Operand};
use tcltext::script::{ByteRange, Part};
use tclvalue::operators::{binary, truth, unary};

/// The text of a piece of the source.
fn source_text<'a>(source: &'a str, range: ByteRange) -> &'a str
    ensures { result.now ≡ range_text source.now range }
{
    range.of(source)
}

/// Pushes a frame, which waits for the next value.
fn push_frame<'a>(stack: &mut Vec<WaitingFrame<'a>>, frame: WaitingFrame<'a>) -> Result<(), Stop>
    ensures ok { OnOk result (stack.new.items ≡ stack.old.items ++ frame.entry ∷ []) }
    ensures err { IfErr result (λ stop. stop ≡ Fault OutOfMemory) }
{
    stack.push(frame)?;
    Ok(())
}

fn copy(alloc: Global, text: &str) -> Result<String, Stop>
    ensures ok { IfOk result (λ t. string_bytes t ≡ text.now) }
    ensures err { IfErr result (λ stop. stop ≡ Fault OutOfMemory) }
{
    Ok(String::from_str(alloc, text)?)
}

/// The value of a text in braces (Tcl(n), rule 6).
///
/// Errors: `OutOfMemory`.
pub fn braced(alloc: Global, text: &str) -> Result<String, Stop>
    ensures ok { IfOk result (λ t. string_bytes t ≡ braced_text text.now) }
    ensures err { IfErr result (λ stop. stop ≡ Fault OutOfMemory) }
{
    let mut value = String::new(alloc);
    push_braced_text(&mut value, text)?;
    Ok(value)
}

/// The text of one character.
fn character(alloc: Global, character: char) -> Result<String, Stop>
    ensures ok { IfOk result (λ t. string_bytes t ≡ encode_utf8 character) }
    ensures err { IfErr result (λ stop. stop ≡ Fault OutOfMemory) }
{
    let mut value = String::new(alloc);
    value.push(character)?;
    Ok(value)
}

/// A truth value as operators write it, `1` or `0`.
fn truth_text(alloc: Global, holds: bool) -> Result<String, Stop>
    ensures ok { IfOk result (λ t. string_bytes t ≡ truth_text holds) }
    ensures err { IfErr result (λ stop. stop ≡ Fault OutOfMemory) }
{
    if holds {
        copy(alloc, "1")
    } else {
        copy(alloc, "0")
    }
}

/// A text with a piece appended.
fn with_piece(text: String, piece: &str) -> Result<String, Stop>
    ensures ok { IfOk result (λ t. string_bytes t ≡ string_bytes text ++ piece.now) }
    ensures err { IfErr result (λ stop. stop ≡ Fault OutOfMemory) }
{
    let mut text = text;
    text.push_str(piece)?;
    Ok(text)
}

/// Appends the value of a part to the text of a word, which is judged by the limit on values; the rest of the word is
/// next.
#[tactic(none)]
fn append_piece<'a, H: Host>(
    context: SubstitutionContext<'a, '_>,
    host: &mut H,
    stack: &mut Vec<WaitingFrame<'a>>,
    text: String,
    piece: &str,
    rest: &'a [Part<ByteRange>],
) -> Result<Step<'a>, Stop>
    ensures { StepsTo
        (λ b k. sized b.bytes (string_bytes text ++ piece.now)
        (parts b (parts_view (range_text context.entry.source.now) rest.now) (string_bytes text ++ piece.now)
        context.entry.variables.now (stack_continuation context.entry.source.now b (reverse stack.old.items) k)))
        context.entry (λ used scripts. point (H.oracle host.old) (H.trace host.old) used scripts) result
        (reverse stack.new.items)
        (2 + parts_weight (parts_view (range_text context.entry.source.now) rest.now)
        + frames_weight context.entry.source.now (reverse stack.old.items))
        (λ used scripts. point (H.oracle host.new) (H.trace host.new) used scripts) }
{
    let text = with_piece(text, piece)?;
    if text.len() > context.limits.value_bytes {
        return Err(Stop::Fault(EvalFault::ValueTooLong));
    }
    Ok(Step::Next(Control::Parts(text, rest)))
}

/// The step at a part of a word; `text` is the value of the parts before it.
#[tactic(none)]
fn part<'a, H: Host>(
    context: SubstitutionContext<'a, '_>,
    host: &mut H,
    stack: &mut Vec<WaitingFrame<'a>>,
    text: String,
    part: &'a Part<ByteRange>,
    rest: &'a [Part<ByteRange>],
) -> Result<Step<'a>, Stop>
    ensures { StepsTo
        (λ b k. one b (part_view (range_text context.entry.source.now) part.now) context.entry.variables.now
        (λ u s'. sized b.bytes (string_bytes text ++ u)
        (parts b (parts_view (range_text context.entry.source.now) rest.now) (string_bytes text ++ u) s'
        (stack_continuation context.entry.source.now b (reverse stack.old.items) k))))
        context.entry (λ used scripts. point (H.oracle host.old) (H.trace host.old) used scripts) result
        (reverse stack.new.items)
        (1
        + (part_weight (part_view (range_text context.entry.source.now) part.now)
        + parts_weight (parts_view (range_text context.entry.source.now) rest.now))
        + frames_weight context.entry.source.now (reverse stack.old.items))
        (λ used scripts. point (H.oracle host.new) (H.trace host.new) used scripts) }
{
    match part {
        Part::Literal(range) => append_piece(
            context,
            host,
            stack,
            text,
            source_text(context.source, *range),
            rest,
        ),
        Part::Backslash(escaped) => {
            let value = character(context.alloc, *escaped)?;
            append_piece(context, host, stack, text, value.as_str(), rest)
        }
        Part::Variable(name) => {
            let value = read(
                context.alloc,
                context.variables,
                host,
                source_text(context.source, *name),
            )?;
            append_piece(context, host, stack, text, value.as_str(), rest)
        }
        Part::Indexed(name, index) => {
            push_frame(stack, WaitingFrame::Joined(text, rest))?;
            push_frame(
                stack,
                WaitingFrame::Element(source_text(context.source, *name)),
            )?;
            Ok(Step::Next(Control::Parts(String::new(context.alloc), index)))
        }
        Part::Bracket(script) => {
            push_frame(stack, WaitingFrame::Joined(text, rest))?;
            Ok(Step::Bracket(script))
        }
    }
}

#[tactic(none)]
fn operand<'a, H: Host>(
    context: SubstitutionContext<'a, '_>,
    host: &mut H,
    stack: &mut Vec<WaitingFrame<'a>>,
    operand: &'a Operand<ByteRange>,
) -> Result<Step<'a>, Stop>
    ensures { StepsTo
        (λ b k. operand_value b
        (operand_view (range_text context.entry.source.now) operand.now) context.entry.variables.now
        (stack_continuation context.entry.source.now b (reverse stack.old.items) k))
        context.entry (λ used scripts. point (H.oracle host.old) (H.trace host.old) used scripts) result
        (reverse stack.new.items)
        (operand_weight (operand_view (range_text context.entry.source.now) operand.now)
        + frames_weight context.entry.source.now (reverse stack.old.items))
        (λ used scripts. point (H.oracle host.new) (H.trace host.new) used scripts) }
{
    match operand {
        Operand::Number(range) => {
            Ok(Step::Next(Control::Value(copy(
                context.alloc,
                source_text(context.source, *range),
            )?)))
        }
        Operand::Word(range) => {
            Ok(Step::Next(Control::Value(copy(
                context.alloc,
                source_text(context.source, *range),
            )?)))
        }
        Operand::Variable(name) => {
            let value = read(
                context.alloc,
                context.variables,
                host,
                source_text(context.source, *name),
            )?;
            Ok(Step::Next(Control::Value(value)))
        }
        Operand::Indexed(name, index) => {
            push_frame(
                stack,
                WaitingFrame::Element(source_text(context.source, *name)),
            )?;
            Ok(Step::Next(Control::Parts(String::new(context.alloc), index)))
        }
        Operand::Bracket(script) => Ok(Step::Bracket(script)),
        Operand::Quoted(parts) => {
            Ok(Step::Next(Control::Parts(String::new(context.alloc), parts)))
        }
        Operand::Braced(range) => {
            Ok(Step::Next(Control::Value(braced(
                context.alloc,
                source_text(context.source, *range),
            )?)))
        }
    }
}

#[tactic(none)]
fn expression<'a, H: Host>(
    context: SubstitutionContext<'a, '_>,
    host: &mut H,
    stack: &mut Vec<WaitingFrame<'a>>,
    expression: &'a Expr<ByteRange>,
) -> Result<Step<'a>, Stop>
    ensures { StepsTo
        (λ b k. expr b (expr_view (range_text context.entry.source.now) expression.now) context.entry.variables.now
        (stack_continuation context.entry.source.now b (reverse stack.old.items) k))
        context.entry (λ used scripts. point (H.oracle host.old) (H.trace host.old) used scripts) result
        (reverse stack.new.items)
        (expr_weight (expr_view (range_text context.entry.source.now) expression.now)
        + frames_weight context.entry.source.now (reverse stack.old.items))
        (λ used scripts. point (H.oracle host.new) (H.trace host.new) used scripts) }
{
    match expression {
        Expr::Operand(value) => {
            push_frame(stack, WaitingFrame::Operand)?;
            operand(context, host, stack, value)
        }
        Expr::Unary(operator, inner) => {
            push_frame(stack, WaitingFrame::Unary(*operator))?;
            Ok(Step::Next(Control::Expression(inner)))
        }
        Expr::Binary(operator, left, right) => {
            if let Some(value) = compute_borrowed(context, expression)? {
                let text = value.into_text(context.alloc)?;
                return Ok(Step::Next(Control::Value(text)));
            }
            push_frame(stack, WaitingFrame::Left(*operator, right))?;
            Ok(Step::Next(Control::Expression(left)))
        }
        Expr::And(left, right) => {
            push_frame(stack, WaitingFrame::And(right))?;
            Ok(Step::Next(Control::Expression(left)))
        }
        Expr::Or(left, right) => {
            push_frame(stack, WaitingFrame::Or(right))?;
            Ok(Step::Next(Control::Expression(left)))
        }
        Expr::Choice(condition, yes, no) => {
            push_frame(stack, WaitingFrame::Choice(yes, no))?;
            Ok(Step::Next(Control::Expression(condition)))
        }
    }
}

/// The step after the left operand of `&&`.
#[tactic(none)]
fn and<'a, H: Host>(
    context: SubstitutionContext<'a, '_>,
    host: &mut H,
    stack: &mut Vec<WaitingFrame<'a>>,
    value: String,
    right: &'a Expr<ByteRange>,
) -> Result<Step<'a>, Stop>
    ensures { StepsTo
        (λ b k. continuation context.entry.source.now b (And right.entry)
        (stack_continuation context.entry.source.now b (reverse stack.old.items) k) (string_bytes value)
        context.entry.variables.now)
        context.entry (λ used scripts. point (H.oracle host.old) (H.trace host.old) used scripts) result
        (reverse stack.new.items)
        (3 + expr_weight (expr_view (range_text context.entry.source.now) right.now)
        + frames_weight context.entry.source.now (reverse stack.old.items))
        (λ used scripts. point (H.oracle host.new) (H.trace host.new) used scripts) }
{
    if truth(context.alloc, value.as_str())? {
        push_frame(stack, WaitingFrame::Truth)?;
        return Ok(Step::Next(Control::Expression(right)));
    }
    Ok(Step::Next(Control::Value(copy(context.alloc, "0")?)))
}

/// The step after the left operand of `||`.
#[tactic(none)]
fn or<'a, H: Host>(
    context: SubstitutionContext<'a, '_>,
    host: &mut H,
    stack: &mut Vec<WaitingFrame<'a>>,
    value: String,
    right: &'a Expr<ByteRange>,
) -> Result<Step<'a>, Stop>
    ensures { StepsTo
        (λ b k. continuation context.entry.source.now b (Or right.entry)
        (stack_continuation context.entry.source.now b (reverse stack.old.items) k) (string_bytes value)
        context.entry.variables.now)
        context.entry (λ used scripts. point (H.oracle host.old) (H.trace host.old) used scripts) result
        (reverse stack.new.items)
        (3 + expr_weight (expr_view (range_text context.entry.source.now) right.now)
        + frames_weight context.entry.source.now (reverse stack.old.items))
        (λ used scripts. point (H.oracle host.new) (H.trace host.new) used scripts) }
{
    if truth(context.alloc, value.as_str())? {
        return Ok(Step::Next(Control::Value(copy(context.alloc, "1")?)));
    }
    push_frame(stack, WaitingFrame::Truth)?;
    Ok(Step::Next(Control::Expression(right)))
}

/// The step after the condition of `? :`.
#[tactic(none)]
fn choice<'a, H: Host>(
    context: SubstitutionContext<'a, '_>,
    host: &mut H,
    stack: &mut Vec<WaitingFrame<'a>>,
    value: String,
    yes: &'a Expr<ByteRange>,
    no: &'a Expr<ByteRange>,
) -> Result<Step<'a>, Stop>
    ensures { StepsTo
        (λ b k. continuation context.entry.source.now b (Choice yes.entry no.entry)
        (stack_continuation context.entry.source.now b (reverse stack.old.items) k) (string_bytes value)
        context.entry.variables.now)
        context.entry (λ used scripts. point (H.oracle host.old) (H.trace host.old) used scripts) result
        (reverse stack.new.items)
        (1
        + (expr_weight (expr_view (range_text context.entry.source.now) yes.now)
        + expr_weight (expr_view (range_text context.entry.source.now) no.now))
        + frames_weight context.entry.source.now (reverse stack.old.items))
        (λ used scripts. point (H.oracle host.new) (H.trace host.new) used scripts) }
{
    if truth(context.alloc, value.as_str())? {
        return Ok(Step::Next(Control::Expression(yes)));
    }
    Ok(Step::Next(Control::Expression(no)))
}

/// The step of the frame that waited for this value.
#[tactic(none)]
fn resume<'a, H: Host>(
    context: SubstitutionContext<'a, '_>,
    host: &mut H,
    stack: &mut Vec<WaitingFrame<'a>>,
    frame: WaitingFrame<'a>,
    value: String,
) -> Result<Step<'a>, Stop>
    ensures { StepsTo
        (λ b k. continuation context.entry.source.now b frame.entry
        (stack_continuation context.entry.source.now b (reverse stack.old.items) k) (string_bytes value)
        context.entry.variables.now)
        context.entry (λ used scripts. point (H.oracle host.old) (H.trace host.old) used scripts) result
        (reverse stack.new.items)
        (frame_weight context.entry.source.now frame.entry
        + frames_weight context.entry.source.now (reverse stack.old.items))
        (λ used scripts. point (H.oracle host.new) (H.trace host.new) used scripts) }
{
    match frame {
        WaitingFrame::Element(name) => {
            let value = read_element(context.alloc, context.variables, host, name, value.as_str())?;
            Ok(Step::Next(Control::Value(value)))
        }
        WaitingFrame::Joined(text, parts) => append_piece(
            context,
            host,
            stack,
            text,
            value.as_str(),
            parts,
        ),
        WaitingFrame::Operand => {
            if value.len() > context.limits.value_bytes {
                return Err(Stop::Fault(EvalFault::ValueTooLong));
            }
            Ok(Step::Next(Control::Value(value)))
        }
        WaitingFrame::Unary(operator) => {
            Ok(Step::Next(Control::Value(unary(context.alloc, operator, value.as_str())?)))
        }
        WaitingFrame::Left(operator, right) => {
            push_frame(stack, WaitingFrame::Right(operator, value))?;
            Ok(Step::Next(Control::Expression(right)))
        }
        WaitingFrame::Right(operator, left) => {
            let value = binary(context.alloc, operator, left.as_str(), value.as_str())?;
            Ok(Step::Next(Control::Value(value)))
        }
        WaitingFrame::And(right) => and(context, host, stack, value, right),
        WaitingFrame::Or(right) => or(context, host, stack, value, right),
        WaitingFrame::Truth => {
            let holds = truth(context.alloc, value.as_str())?;
            Ok(Step::Next(Control::Value(truth_text(context.alloc, holds)?)))
        }
        WaitingFrame::Choice(yes, no) => choice(context, host, stack, value, yes, no),
    }
}

#[tactic(none)]
fn step<'a, H: Host>(
    context: SubstitutionContext<'a, '_>,
    host: &mut H,
    stack: &mut Vec<WaitingFrame<'a>>,
    control: Control<'a>,
) -> Result<Step<'a>, Stop>
    ensures { StepsTo
        (λ b k. control_plan context.entry.source.now b control.entry context.entry.variables.now
        (stack_continuation context.entry.source.now b (reverse stack.old.items) k))
        context.entry (λ used scripts. point (H.oracle host.old) (H.trace host.old) used scripts) result
        (reverse stack.new.items)
        (control_weight context.entry.source.now control.entry
        + frames_weight context.entry.source.now (reverse stack.old.items))
        (λ used scripts. point (H.oracle host.new) (H.trace host.new) used scripts) }
{
    match control {
        Control::Parts(text, parts) => match parts.split_first() {
            None => Ok(Step::Next(Control::Value(text))),
            Some((first, rest)) => part(context, host, stack, text, first, rest),
        },
        Control::Expression(tree) => expression(context, host, stack, tree),
        Control::Value(value) => match stack.pop() {
            None => Ok(Step::Done(value)),
            Some(frame) => resume(context, host, stack, frame, value),
        },
    }
}

/// Takes steps up to the next bracket, whose script the caller evaluates, or to the value of the whole. After a bracket
/// the caller continues with the result as `Control::Value`, on the same stack.
///
/// Errors: the errors of Tcl of variables and operators; a halt where a value is longer than the limit, a variable or
/// an operand is unsupported, or memory runs out.
#[tactic(none)]
pub fn advance<'a, H: Host>(
    context: SubstitutionContext<'a, '_>,
    host: &mut H,
    stack: &mut Vec<WaitingFrame<'a>>,
    control: Control<'a>,
) -> Result<Step<'a>, Stop>
    ensures { StepsTo
        (λ b k. control_plan context.entry.source.now b control.entry context.entry.variables.now
        (stack_continuation context.entry.source.now b (reverse stack.old.items) k))
        context.entry (λ used scripts. point (H.oracle host.old) (H.trace host.old) used scripts) result
        (reverse stack.new.items)
        (control_weight context.entry.source.now control.entry
        + frames_weight context.entry.source.now (reverse stack.old.items))
        (λ used scripts. point (H.oracle host.new) (H.trace host.new) used scripts) }
{
    let mut control = control;
    loop {
        match step(context, host, stack, control)? {
            Step::Next(next) => control = next,
            step => return Ok(step),
        }
    }
}
