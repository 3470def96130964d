//! `text VERB TEXT...` answers a call of tcltext: `list TEXT`, `write TEXT...`, `script TEXT`, `expr TEXT`, `glob
//! PATTERN TEXT`, `number TEXT`.
//!
//! `tree KIND TEXT` and `owned KIND TEXT` show a script or an expr as Rust prints it, with slices or with ranges of the
//! text; `owned sources TEXT` the sources of its commands; `fault KIND TEXT` the fault, of a list too, and its text;
//! `range START END TEXT` the range of the text; `count TEXT` how many elements a list has; `memory` the text of want
//! of memory.
//!
//! The answer is `ok` and what was read or written, `fault NUMBER` with the byte offset where there is one, 1 or 0, or
//! the class of a number. Bars part the elements of a list and the words of a command. Of a script the words of each
//! command follow its byte offset, commands are parted by tabs, and a word with a substitution is `\$`. An expression is
//! written with parentheses around each operator and its operands, and `?` for a substitution.
use crate::escapes::{push_made_text, push_texts, shown, text_of, texts_of};
use crate::lines::Line;
use crate::trees::{fault, owned, tree};
use std::alloc::{AllocError, Global};
use tcltext::{
    ByteRange, Command, Expr, Numeral, Operand, Part, Script, TextFault, Word, WordContent,
    glob_match, parse_expr, parse_list, parse_script, push_braced_text, read_number, write_list,
};

/// The byte offset of a fault, where it has one.
fn offset_of(fault: &TextFault) -> Option<usize> {
    match fault {
        TextFault::OpenBrace(at)
        | TextFault::OpenQuote(at)
        | TextFault::OpenBracket(at)
        | TextFault::JoinedToClose(at)
        | TextFault::BadCharacter(at)
        | TextFault::BadExpression(at) => Some(*at),
        TextFault::OutOfMemory | TextFault::TooDeep | TextFault::TooLong => None,
    }
}

/// The number of a fault, and its byte offset.
fn shown_fault(alloc: Global, fault: TextFault) -> Option<String> {
    let number = fault.number();
    match offset_of(&fault) {
        Some(at) => format!(in alloc; "fault {number} {at}").ok(),
        None => format!(in alloc; "fault {number}").ok(),
    }
}

fn shown_list(alloc: Global, elements: &[String]) -> Option<String> {
    let mut line = Line::new(alloc);
    line.push_str("ok ");
    push_texts(&mut line, elements);
    line.finish()
}

/// Adds the text of a part, and says whether it is no substitution.
fn push_part(text: &mut Line, part: &Part<&str>) -> bool {
    match part {
        Part::Literal(literal) => text.push_str(literal),
        Part::Backslash(character) => text.push(*character),
        Part::Variable(_) | Part::Indexed(_, _) | Part::Bracket(_) => return false,
    }
    true
}

/// Adds the text of parts, and says whether they have no substitution.
fn push_parts(text: &mut Line, parts: &[Part<&str>]) -> bool {
    for part in parts {
        if !push_part(text, part) {
            return false;
        }
    }
    true
}

/// Adds the text of what a word is made of, and says whether it has no substitution.
fn push_content(text: &mut Line, content: &WordContent<&str>) -> bool {
    match content {
        WordContent::Bare(literal) => text.push_str(literal),
        WordContent::Braced(inside) => {
            let pushed = push_braced_text(&mut text.text, inside);
            text.note(pushed);
        }
        WordContent::Parts(parts) => return push_parts(text, parts),
    }
    true
}

/// Adds a word, which is `\$` where it has a substitution.
fn push_word(alloc: Global, line: &mut Line, word: &Word<&str>) {
    let mut text = Line::new(alloc);
    if push_content(&mut text, &word.content) && !word.expands {
        push_made_text(line, text.finish().ok_or(AllocError));
    } else {
        line.push_str("\\$");
    }
}

/// Adds a command: its byte offset and its words.
fn push_command(alloc: Global, line: &mut Line, command: &Command<&str>) {
    let offset = command.offset;
    line.push_made(format!(in alloc; "{offset}:"));
    for (i, word) in command.words.iter().enumerate() {
        if i > 0 {
            line.push('|');
        }
        push_word(alloc, line, word);
    }
}

fn shown_script(alloc: Global, script: &Script<&str>) -> Option<String> {
    let mut line = Line::new(alloc);
    line.push_str("ok ");
    for (i, command) in script.commands.iter().enumerate() {
        if i > 0 {
            line.push('\t');
        }
        push_command(alloc, &mut line, command);
    }
    line.finish()
}

/// The text of an operand; `?` where it is a substitution.
fn push_operand(text: &mut Line, operand: &Operand<&str>) {
    match operand {
        Operand::Number(spelled) | Operand::Word(spelled) => text.push_str(spelled),
        Operand::Braced(inside) => {
            text.push('{');
            text.push_str(inside);
            text.push('}');
        }
        Operand::Variable(_) | Operand::Indexed(_, _) | Operand::Bracket(_) | Operand::Quoted(_) =>
            text.push('?'),
    }
}

/// Adds the sign of an operator, between blanks.
fn push_sign(text: &mut Line, sign: &str) {
    text.push(' ');
    text.push_str(sign);
    text.push(' ');
}

/// The sign of an operator between two operands.
fn sign(expression: &Expr<&str>) -> &'static str {
    match expression {
        Expr::Binary(operator, _, _) => operator.symbol(),
        Expr::And(_, _) => "&&",
        _ => "||",
    }
}

/// The text of an expression, with parentheses around each operator and its operands.
fn push_expression(text: &mut Line, expression: &Expr<&str>) {
    match expression {
        Expr::Operand(operand) => return push_operand(text, operand),
        Expr::Unary(operator, operand) => {
            text.push('(');
            text.push_str(operator.symbol());
            push_expression(text, operand);
        }
        Expr::Binary(_, left, right) | Expr::And(left, right) | Expr::Or(left, right) => {
            text.push('(');
            push_expression(text, left);
            push_sign(text, sign(expression));
            push_expression(text, right);
        }
        Expr::Choice(condition, yes, no) => {
            text.push('(');
            push_expression(text, condition);
            push_sign(text, "?");
            push_expression(text, yes);
            push_sign(text, ":");
            push_expression(text, no);
        }
    }
    text.push(')');
}

/// An expression with all its parentheses.
fn shown_expression(alloc: Global, expression: &Expr<&str>) -> Option<String> {
    let mut text = Line::new(alloc);
    push_expression(&mut text, expression);
    shown(alloc, "ok", &text.finish()?)
}

/// The list of the texts of a call.
fn written(alloc: Global, words: &str) -> Option<String> {
    let texts = texts_of(alloc, words)?;
    let mut elements = Vec::new(alloc);
    for text in &texts {
        elements.push(text.as_str()).ok()?;
    }
    shown(alloc, "ok", &write_list(alloc, &elements).ok()?)
}

/// The class of a number, and a whole number itself.
fn shown_number(alloc: Global, number: Numeral) -> Option<String> {
    match number {
        Numeral::Whole(value) => format!(in alloc; "whole {value}").ok(),
        Numeral::TooLarge => String::from_str(alloc, "large").ok(),
        Numeral::Fraction => String::from_str(alloc, "fraction").ok(),
        Numeral::Text => String::from_str(alloc, "text").ok(),
    }
}

/// The range of a text, with the words of a call `START END TEXT`.
fn shown_range(alloc: Global, words: &str) -> Option<String> {
    let (start, rest) = words.split_once(' ')?;
    let (end, written) = rest.split_once(' ')?;
    let range = ByteRange {
        start: start.parse().ok()?,
        end: end.parse().ok()?,
    };
    shown(alloc, "ok", range.of(&text_of(alloc, written)?))
}

/// The answer to a call about trees.
fn tree_answer(alloc: Global, verb: &str, rest: &str) -> Option<String> {
    let (kind, written) = rest.split_once(' ')?;
    let text = text_of(alloc, written)?;
    match verb {
        "tree" => tree(alloc, kind, text.as_str()),
        "owned" => owned(alloc, kind, text),
        "fault" => fault(alloc, kind, text.as_str()),
        _ => None,
    }
}

/// The answer to a call `list TEXT`.
fn list_answer(alloc: Global, text: &str) -> Option<String> {
    match parse_list(alloc, text) {
        Ok(elements) => shown_list(alloc, &elements),
        Err(fault) => shown_fault(alloc, fault),
    }
}

/// The answer to a call `script TEXT`.
fn script_answer(alloc: Global, text: &str) -> Option<String> {
    match parse_script(alloc, text) {
        Ok(script) => shown_script(alloc, &script),
        Err(fault) => shown_fault(alloc, fault),
    }
}

/// The answer to a call `expr TEXT`.
fn expression_answer(alloc: Global, text: &str) -> Option<String> {
    match parse_expr(alloc, text) {
        Ok(expression) => shown_expression(alloc, &expression),
        Err(fault) => shown_fault(alloc, fault),
    }
}

/// How many elements a list has.
fn count_answer(alloc: Global, text: &str) -> Option<String> {
    let count = parse_list(alloc, text).ok()?.len();
    format!(in alloc; "{count}").ok()
}

/// The answer to a call `glob PATTERN TEXT`.
fn glob_answer(alloc: Global, words: &str) -> Option<String> {
    let (pattern, text) = words.split_once(' ')?;
    let matches = glob_match(&text_of(alloc, pattern)?, &text_of(alloc, text)?);
    String::from_str(alloc, if matches { "1" } else { "0" }).ok()
}

/// The answer to a call about one text.
fn text_answer(alloc: Global, verb: &str, text: &str) -> Option<String> {
    match verb {
        "list" => list_answer(alloc, text),
        "script" => script_answer(alloc, text),
        "expr" => expression_answer(alloc, text),
        "number" => shown_number(alloc, read_number(text)),
        "count" => count_answer(alloc, text),
        _ => None,
    }
}

/// The answer to a call; None where the line asks nothing, or memory ran out.
pub(crate) fn answer(alloc: Global, line: &str) -> Option<String> {
    let (verb, rest) = line.split_once(' ').unwrap_or((line, ""));
    match verb {
        "write" => written(alloc, rest),
        "glob" => glob_answer(alloc, rest),
        "range" => shown_range(alloc, rest),
        "memory" => format!(in alloc; "{}", TextFault::OutOfMemory).ok(),
        "tree" | "owned" | "fault" => tree_answer(alloc, verb, rest),
        _ => text_answer(alloc, verb, &text_of(alloc, rest)?),
    }
}
