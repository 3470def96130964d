//! `names KIND` makes each fault of `texts`, `values` or `evaluations`, or each of the `answers` of a host, by its name
//! and what it is about. The answer is `ok` and each name, after the number of a fault.
use crate::lines::Line;
use std::alloc::Global;
use tcleval::{EvalFault, HostAnswer};
use tcltext::TextFault;
use tclvalue::ValueFault;

/// The name of a fault of a text.
fn text_name(fault: &TextFault) -> &'static str {
    match fault {
        TextFault::OutOfMemory => "OutOfMemory",
        TextFault::OpenBrace(_) => "OpenBrace",
        TextFault::OpenQuote(_) => "OpenQuote",
        TextFault::OpenBracket(_) => "OpenBracket",
        TextFault::JoinedToClose(_) => "JoinedToClose",
        TextFault::TooDeep => "TooDeep",
        TextFault::BadCharacter(_) => "BadCharacter",
        TextFault::BadExpression(_) => "BadExpression",
        TextFault::TooLong => "TooLong",
    }
}

/// The name of a fault of a value.
fn value_name(fault: &ValueFault) -> &'static str {
    match fault {
        ValueFault::OutOfMemory => "OutOfMemory",
        ValueFault::Text(_) => "Text",
        ValueFault::TclError(_) => "TclError",
        ValueFault::ValueTooLong => "ValueTooLong",
        ValueFault::NumberTooLarge => "NumberTooLarge",
        ValueFault::FractionOperand => "FractionOperand",
        ValueFault::LeftOut(_) => "LeftOut",
    }
}

/// The name of a fault of an evaluation.
fn evaluation_name(fault: &EvalFault) -> &'static str {
    match fault {
        EvalFault::OutOfMemory => "OutOfMemory",
        EvalFault::Text(_) => "Text",
        EvalFault::TclError(_, _) => "TclError",
        EvalFault::TooManyCommands => "TooManyCommands",
        EvalFault::TooDeep => "TooDeep",
        EvalFault::ValueTooLong => "ValueTooLong",
        EvalFault::NumberTooLarge => "NumberTooLarge",
        EvalFault::FractionOperand => "FractionOperand",
        EvalFault::LeftOut(_) => "LeftOut",
        EvalFault::Stopped => "Stopped",
        EvalFault::Host(_) => "Host",
    }
}

/// The name of an answer of a host.
fn answer_name(answer: &HostAnswer) -> &'static str {
    match answer {
        HostAnswer::Done(_) => "Done",
        HostAnswer::Unknown => "Unknown",
        HostAnswer::LeftOut(_) => "LeftOut",
        HostAnswer::Refused(_) => "Refused",
        HostAnswer::OutOfMemory => "OutOfMemory",
    }
}

/// Adds a number and a name.
fn push_named(alloc: Global, line: &mut Line, number: u16, name: &str) {
    line.push_made(format!(in alloc; " {number} {name}"));
}

/// Adds the faults of texts.
fn push_texts(alloc: Global, line: &mut Line) {
    let faults = [
        TextFault::OutOfMemory,
        TextFault::OpenBrace(0),
        TextFault::OpenQuote(0),
        TextFault::OpenBracket(0),
        TextFault::JoinedToClose(0),
        TextFault::TooDeep,
        TextFault::BadCharacter(0),
        TextFault::BadExpression(0),
        TextFault::TooLong,
    ];
    for fault in &faults {
        push_named(alloc, line, fault.number(), text_name(fault));
    }
}

/// Adds the faults of values.
fn push_values(alloc: Global, line: &mut Line) {
    let faults = [
        ValueFault::OutOfMemory,
        ValueFault::Text(TextFault::TooLong),
        ValueFault::TclError(String::new(alloc)),
        ValueFault::ValueTooLong,
        ValueFault::NumberTooLarge,
        ValueFault::FractionOperand,
        ValueFault::LeftOut(String::new(alloc)),
    ];
    for fault in &faults {
        push_named(alloc, line, fault.number(), value_name(fault));
    }
}

/// Adds the faults of evaluations.
fn push_evaluations(alloc: Global, line: &mut Line) {
    let faults = [
        EvalFault::OutOfMemory,
        EvalFault::Text(TextFault::TooLong),
        EvalFault::TclError(String::new(alloc), 1),
        EvalFault::TooManyCommands,
        EvalFault::TooDeep,
        EvalFault::ValueTooLong,
        EvalFault::NumberTooLarge,
        EvalFault::FractionOperand,
        EvalFault::LeftOut(String::new(alloc)),
        EvalFault::Stopped,
        EvalFault::Host(51),
    ];
    for fault in &faults {
        push_named(alloc, line, fault.number(), evaluation_name(fault));
    }
}

/// Adds the answers of a host.
fn push_answers(alloc: Global, line: &mut Line) {
    let answers = [
        HostAnswer::Done(String::new(alloc)),
        HostAnswer::Unknown,
        HostAnswer::LeftOut(String::new(alloc)),
        HostAnswer::Refused(51),
        HostAnswer::OutOfMemory,
    ];
    for answer in &answers {
        line.push(' ');
        line.push_str(answer_name(answer));
    }
}

/// The answer to a kind; None where there is no such kind, or memory ran out.
pub(crate) fn answer(alloc: Global, kind: &str) -> Option<String> {
    let mut line = Line::new(alloc);
    line.push_str("ok");
    match kind {
        "texts" => push_texts(alloc, &mut line),
        "values" => push_values(alloc, &mut line),
        "evaluations" => push_evaluations(alloc, &mut line),
        "answers" => push_answers(alloc, &mut line),
        _ => return None,
    }
    line.finish()
}
