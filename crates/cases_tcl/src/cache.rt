//! `cached TEXT...: SCRIPT` evaluates a script over an empty cache of trees, and then looks texts up in it: a script as
//! `s=TEXT`, an expression as `e=TEXT`. The answer is `cached` and the index of each text in its list, `-` for a text
//! that isn't cached.
use crate::escapes::text_of;
use crate::lines::Line;
use crate::recorder::Recorder;
use crate::scripts::{LIMITS, recorder};
use std::alloc::Global;
use tcleval::cache::Kept;
use tcleval::evaluate_with;

/// Whether a script is evaluated, and not refused.
fn is_evaluated(alloc: Global, cache: &mut Kept, script: &str, mut host: Recorder) -> bool {
    let variables = Vec::new(alloc);
    evaluate_with(alloc, cache, script, variables, &mut host, LIMITS).is_ok()
}

/// The index of a text in the cache; None where it can't be parsed.
fn index(cache: &mut Kept, kind: &str, text: &str) -> Option<Option<usize>> {
    match kind {
        "s" => cache.script(text).ok(),
        "e" => cache.expr(text).ok(),
        _ => None,
    }
}

/// Adds the index of the text of a word, or `-`.
fn push_index(alloc: Global, line: &mut Line, cache: &mut Kept, word: &str) -> Option<()> {
    let (kind, written) = word.split_once('=')?;
    match index(cache, kind, &text_of(alloc, written)?)? {
        Some(index) => line.push_made(format!(in alloc; " {index}")),
        None => line.push_str(" -"),
    }
    Some(())
}

/// Adds the index of each text; None where one of the words isn't a text.
fn push_indexes(alloc: Global, line: &mut Line, cache: &mut Kept, words: &str) -> Option<()> {
    for word in words.split(' ') {
        push_index(alloc, line, cache, word)?;
    }
    Some(())
}

/// Adds the indexes of texts in the cache after the evaluation of a script; None where that is refused.
fn push_cached(
    alloc: Global,
    line: &mut Line,
    words: &str,
    script: &str,
    host: Recorder,
) -> Option<()> {
    let mut cache = Kept::new(alloc);
    if is_evaluated(alloc, &mut cache, script, host) {
        push_indexes(alloc, line, &mut cache, words)
    } else {
        None
    }
}

/// The indexes of texts in the cache after the evaluation of a script; None where that is refused.
fn cached(alloc: Global, words: &str, script: &str, host: Recorder) -> Option<String> {
    let mut line = Line::new(alloc);
    line.push_str("cached");
    push_cached(alloc, &mut line, words, script, host)?;
    line.finish()
}

/// The answer to `cached`: the indexes of texts in the cache after an evaluation.
pub(crate) fn answer(alloc: Global, rest: &str) -> Option<String> {
    let (words, script) = rest.split_once(": ")?;
    let script = text_of(alloc, script)?;
    cached(alloc, words, &script, recorder(alloc).ok()?)
}
