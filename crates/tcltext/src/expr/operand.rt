//! The operands of expressions, read (expr(n), OPERANDS).
ghost use Rattle.std.specs.Prelude.{◌≡◌, ◌≤◌, ◌<◌, ◌∷◌, length, suc};
ghost use Rattle.tcltext.specs.chars.Runs.{Text};
ghost use Rattle.message.specs.Answers.{Gives};
ghost use Rattle.tcltext.specs.chars.Reading.{stopped_by};
ghost use Rattle.tcltext.specs.script.Pieces.{IsSuffixOf};
ghost use Rattle.tcltext.specs.script.Tree.{part_nesting};
ghost use Rattle.tcltext.specs.script.View.{part_view};
ghost use Rattle.tcltext.specs.expr.Operands.{after_number, lower, is_prefix, is_truth_prefix, is_switch_prefix, is_truth};
ghost use Rattle.tcltext.specs.expr.Operands.{operand_of, variable_operand_at, bracket_operand_at, quoted_at};
ghost use Rattle.tcltext.specs.expr.Operands.{braced_text_at, word_at, numeric, operand_at};
ghost use Rattle.tcltext.specs.expr.View.{operand_view};

use crate::chars::{
    Class, Fault, ReadError, after_mark, remaining_with_mark, split_close, split_run,
};
use crate::expr::nesting::{parts_nesting, script_nesting};
use crate::expr::numbers::after_number;
use crate::expr::tree::Operand;
use crate::script::{Part, Source, read_bracket, read_dollar, read_quotes, taken};
use std::alloc::Global;

/// The byte in lower case.
fn lower(b: u8) -> u8
    ensures { result ≡ lower b }
{
    if matches!(b, b'A'..=b'Z') { b + 32 } else { b }
}

/// Whether the word, in lower case, is a prefix of the other.
fn is_prefix(word: &[u8], whole: &[u8]) -> bool
    ensures { result ≡ is_prefix word.now whole.now }
{
    match word {
        [] => true,
        [a, word @ ..] => match whole {
            [] => false,
            [b, whole @ ..] => lower(*a) == *b && is_prefix(word, whole),
        },
    }
}

/// Whether the word is a prefix of `true`, `false`, `yes` or `no`.
fn is_truth_prefix(word: &[u8]) -> bool
    ensures { result ≡ is_truth_prefix word.now }
{
    is_prefix(word, b"true")
        || is_prefix(word, b"false")
        || is_prefix(word, b"yes")
        || is_prefix(word, b"no")
}

/// Whether the word is a prefix of `on` or `off`.
fn is_switch_prefix(word: &[u8]) -> bool
    ensures { result ≡ is_switch_prefix word.now }
{
    is_prefix(word, b"on") || is_prefix(word, b"off")
}

/// Whether a word is a truth word: a prefix of `true`, `false`, `yes` or `no`, or `on`, `of` or `off`, in any case.
#[tactic(auto, unfolding(crate::specs::expr::Operands::is_truth))]
fn is_truth(word: &[u8]) -> bool
    ensures { result ≡ is_truth word.now }
{
    (word.len() >= 1 && is_truth_prefix(word)) || (word.len() >= 2 && is_switch_prefix(word))
}

/// The height of what nests one deeper.
fn one_deeper(height: usize) -> usize
    ensures { height < usize.MAX → result ≡ suc height }
{
    height.saturating_add(1)
}

/// A substitution as an operand, with how deep it nests. A literal dollar is no operand: the expression is wrong at it,
/// with `remaining` bytes remaining.
fn operand_of<P: Drop>(part: Part<P>, remaining: usize) -> Result<(Operand<P>, usize), ReadError>
    ensures { (shown : P → Text) → part_nesting (part_view shown part) ≤ usize.MAX
        → Gives stopped_by (λ x. (operand_view shown x.0, x.1)) result (operand_of remaining (part_view shown part)) }
{
    match part {
        Part::Variable(name) => Ok((Operand::Variable(name), 0)),
        Part::Indexed(name, parts) => {
            let height = one_deeper(parts_nesting(&parts));
            Ok((Operand::Indexed(name, parts), height))
        }
        Part::Bracket(script) => {
            let height = one_deeper(script_nesting(&script));
            Ok((Operand::Bracket(script), height))
        }
        _ => Err(ReadError::Fault(Fault::BadExpression(remaining))),
    }
}

/// A variable, with how deep it nests, and the rest; the text begins with its dollar, and `following` is what follows
/// that.
fn read_variable<'a, S: Source<P>, P: Drop>(
    alloc: Global,
    source: &S,
    text: &'a str,
    following: &'a str,
    depth: usize,
) -> Result<(Operand<P>, usize, &'a str), ReadError>
    requires text { IsSuffixOf (S.text source.now) text.now }
    requires dollar { text.now ≡ 36 ∷ following.now }
    ensures { Gives stopped_by (λ x. ((operand_view (S.shown source.now) x.0, x.1), x.2.now)) result
        (variable_operand_at depth (length text.now) following.now) }
{
    let (part, rest) = read_dollar(alloc, source, text, following, depth)?;
    let (operand, height) = operand_of(part, text.len())?;
    Ok((operand, height, rest))
}

/// A script in brackets, with how deep it nests, and the rest; the text begins with its bracket, and `following`
/// is what follows that.
fn read_script<'a, S: Source<P>, P: Drop>(
    alloc: Global,
    source: &S,
    text: &'a str,
    following: &'a str,
    depth: usize,
) -> Result<(Operand<P>, usize, &'a str), ReadError>
    requires text { IsSuffixOf (S.text source.now) text.now }
    requires bracket { text.now ≡ 91 ∷ following.now }
    ensures { Gives stopped_by (λ x. ((operand_view (S.shown source.now) x.0, x.1), x.2.now)) result
        (bracket_operand_at depth (length text.now) following.now) }
{
    let (part, rest) = read_bracket(alloc, source, following, depth)?;
    let (operand, height) = operand_of(part, text.len())?;
    Ok((operand, height, rest))
}

/// A text in quotes, with how deep it nests, and the rest; `text` follows the opening quote.
fn read_quoted<'a, S: Source<P>, P: Drop>(
    alloc: Global,
    source: &S,
    text: &'a str,
    depth: usize,
) -> Result<(Operand<P>, usize, &'a str), ReadError>
    requires { IsSuffixOf (S.text source.now) text.now }
    ensures { Gives stopped_by (λ x. ((operand_view (S.shown source.now) x.0, x.1), x.2.now)) result
        (quoted_at depth text.now) }
{
    let (parts, rest) = read_quotes(alloc, source, text, depth)?;
    let height = parts_nesting(&parts);
    Ok((Operand::Quoted(parts), height, rest))
}

/// A text in braces, and the rest; `text` follows the opening brace.
fn read_braced<'a, S: Source<P>, P: Drop>(
    source: &S,
    text: &'a str,
) -> Result<(Operand<P>, usize, &'a str), ReadError>
    requires { IsSuffixOf (S.text source.now) text.now }
    ensures { Gives stopped_by (λ x. ((operand_view (S.shown source.now) x.0, x.1), x.2.now)) result
        (braced_text_at text.now) }
{
    match split_close(text) {
        Some((inner, rest)) => Ok((Operand::Braced(source.cut(text, inner)), 0, rest)),
        None => Err(ReadError::Fault(Fault::OpenBrace(remaining_with_mark(text)))),
    }
}

/// A truth word without a parenthesis directly after it, and the rest.
fn read_word<'a, S: Source<P>, P: Drop>(
    source: &S,
    text: &'a str,
) -> Result<(Operand<P>, usize, &'a str), ReadError>
    requires { IsSuffixOf (S.text source.now) text.now }
    ensures { Gives stopped_by (λ x. ((operand_view (S.shown source.now) x.0, x.1), x.2.now)) result
        (word_at text.now) }
{
    let (word, rest) = split_run(text, Class::Name);
    if !is_truth(word.as_bytes()) {
        return Err(ReadError::Fault(Fault::BadExpression(text.len())));
    }
    match after_mark(rest, b'(') {
        None => Ok((Operand::Word(source.cut(text, word)), 0, rest)),
        Some(_) => Err(ReadError::Fault(Fault::BadExpression(text.len()))),
    }
}

/// A number or a truth word, and the rest.
fn read_numeric<'a, S: Source<P>, P: Drop>(
    source: &S,
    text: &'a str,
) -> Result<(Operand<P>, usize, &'a str), ReadError>
    requires { IsSuffixOf (S.text source.now) text.now }
    ensures { Gives stopped_by (λ x. ((operand_view (S.shown source.now) x.0, x.1), x.2.now)) result
        (numeric text.now (after_number text.now)) }
{
    match after_number(text) {
        Some(rest) => Ok((Operand::Number(taken(source, text, rest)), 0, rest)),
        None => read_word(source, text),
    }
}

/// The operand that the text begins with, how deep brackets and the parentheses of indexes nest in it, and the rest.
pub(crate) fn read_operand<'a, S: Source<P>, P: Drop>(
    alloc: Global,
    source: &S,
    text: &'a str,
    depth: usize,
) -> Result<(Operand<P>, usize, &'a str), ReadError>
    requires { IsSuffixOf (S.text source.now) text.now }
    ensures { Gives stopped_by (λ x. ((operand_view (S.shown source.now) x.0, x.1), x.2.now)) result
        (operand_at depth text.now) }
{
    if let Some(following) = after_mark(text, b'$') {
        return read_variable(alloc, source, text, following, depth);
    }
    if let Some(following) = after_mark(text, b'[') {
        return read_script(alloc, source, text, following, depth);
    }
    if let Some(following) = after_mark(text, b'"') {
        return read_quoted(alloc, source, following, depth);
    }
    match after_mark(text, b'{') {
        Some(following) => read_braced(source, following),
        None => read_numeric(source, text),
    }
}
