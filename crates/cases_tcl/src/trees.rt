//! Trees of scripts and expressions as Rust prints them, and the sources of commands.
use crate::lines::Line;
use std::alloc::Global;
use std::fmt::Debug;
use tcltext::{
    Command, Expr, OwnedScript, Script, TextFault, Word, own_expr, own_script, parse_expr,
    parse_list, parse_script,
};

/// Adds what a word is made of, after `*` where its list is expanded.
fn push_word<P: Debug>(alloc: Global, line: &mut Line, word: &Word<P>) {
    let mark = if word.expands { "*" } else { "" };
    let content = &word.content;
    line.push_made(format!(in alloc; " {mark}{content:?}"));
}

/// Adds the words of a command, after its byte offset.
fn push_words<P: Debug>(alloc: Global, line: &mut Line, command: &Command<P>) {
    let offset = command.offset;
    line.push_made(format!(in alloc; " {offset}:"));
    for word in &command.words {
        push_word(alloc, line, word);
    }
}

/// The words of each command, after the command's byte offset, with `*` before one whose list is expanded.
fn shown_words<P: Debug>(alloc: Global, script: &Script<P>) -> Option<String> {
    let mut line = Line::new(alloc);
    line.push_str("ok");
    for command in &script.commands {
        push_words(alloc, &mut line, command);
    }
    line.finish()
}

/// The fault as Rust prints it, and its text.
fn shown_fault(alloc: Global, fault: TextFault) -> Option<String> {
    format!(in alloc; "{fault:?}: {fault}").ok()
}

/// The tree of an expression, as Rust prints it.
fn shown_expression<P: Debug>(alloc: Global, expression: &Expr<P>) -> Option<String> {
    format!(in alloc; "ok {expression:?}").ok()
}

fn script_tree(alloc: Global, text: &str) -> Option<String> {
    match parse_script(alloc, text) {
        Ok(script) => shown_words(alloc, &script),
        Err(fault) => shown_fault(alloc, fault),
    }
}

fn expression_tree(alloc: Global, text: &str) -> Option<String> {
    match parse_expr(alloc, text) {
        Ok(expression) => shown_expression(alloc, &expression),
        Err(fault) => shown_fault(alloc, fault),
    }
}

/// The tree of a script or an expression.
pub(crate) fn tree(alloc: Global, kind: &str, text: &str) -> Option<String> {
    match kind {
        "script" => script_tree(alloc, text),
        "expr" => expression_tree(alloc, text),
        _ => None,
    }
}

/// The source of each command, as a range of the script's own text.
fn shown_sources(alloc: Global, owned: &OwnedScript) -> Option<String> {
    let mut line = Line::new(alloc);
    line.push_str("ok");
    for command in &owned.script.commands {
        let source = command.source.of(owned.text.as_str());
        line.push_made(format!(in alloc; " {source:?}"));
    }
    line.finish()
}

/// The sources of the commands of a script, or its fault.
fn sources(alloc: Global, text: String) -> Option<String> {
    match own_script(alloc, text) {
        Ok(owned) => shown_sources(alloc, &owned),
        Err(fault) => shown_fault(alloc, fault),
    }
}

/// The tree of a script that owns its text, or its fault.
fn owned_script(alloc: Global, text: String) -> Option<String> {
    match own_script(alloc, text) {
        Ok(owned) => shown_words(alloc, &owned.script),
        Err(fault) => shown_fault(alloc, fault),
    }
}

/// The tree of an expression that owns its text, or its fault.
fn owned_expression(alloc: Global, text: String) -> Option<String> {
    match own_expr(alloc, text) {
        Ok(owned) => shown_expression(alloc, &owned.expression),
        Err(fault) => shown_fault(alloc, fault),
    }
}

/// The tree of a script or an expression that owns its text, with ranges of this; or the sources of the commands.
pub(crate) fn owned(alloc: Global, kind: &str, text: String) -> Option<String> {
    match kind {
        "script" => owned_script(alloc, text),
        "expr" => owned_expression(alloc, text),
        "sources" => sources(alloc, text),
        _ => None,
    }
}

/// The fault of a script, an expression or a list, or `none`.
pub(crate) fn fault(alloc: Global, kind: &str, text: &str) -> Option<String> {
    let found = match kind {
        "script" => parse_script(alloc, text).err(),
        "expr" => parse_expr(alloc, text).err(),
        "list" => parse_list(alloc, text).err(),
        _ => return None,
    };
    match found {
        Some(fault) => shown_fault(alloc, fault),
        None => String::from_str(alloc, "none").ok(),
    }
}
