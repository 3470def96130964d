//! The words of switch(n).
ghost use Rattle.std.specs.Prelude.{◌≡◌, [], ◌∷◌, map, string_bytes, false};
ghost use Rattle.std.specs.Option.{option_map};
ghost use Rattle.message.specs.Answers.{Gives};
ghost use Rattle.tclvalue.specs.operators.Faults.{reason_of};
ghost use Rattle.tclrules.specs.Forms.{is_option, options, glob_option, by_glob, paired, patterns_in, bodiless};
ghost use Rattle.tclrules.specs.Forms.{with_patterns, switch_with, even_pairs, switch_form};
ghost use Rattle.tclforms.specs.Views.{texts_of, in_pairs, is_glob, pattern_texts, form_view};

use crate::form::{Comparison, Form, Patterns};
use crate::messages::{bad_option, no_body};
use std::alloc::Global;
use tclvalue::operators::{ValueFault, elements, not_a_list, unsupported, wrong_words};

/// Whether a word is an option: it begins with `-`, and more than one word follows it.
fn is_option(word: &str, following: &[String]) -> bool
    ensures { result ≡ is_option word.now (map string_bytes following.now) }
{
    word.as_bytes().first() == Some(&b'-') && following.len() > 1
}

/// The options of a switch, and the words after them.
#[derive(Clone, Copy)]
struct SplitOptions<'a> {
    options: &'a [String],
    rest: &'a [String],
}

/// The options that words begin with, and the words after them; `--` ends the options.
fn split_options(words: &[String]) -> SplitOptions<'_>
    ensures { (texts_of result.options.now, texts_of result.rest.now) ≡ options (map string_bytes words.entry.now) }
{
    let mut rest = words;
    while let [word, following @ ..] = rest {
        if !is_option(word, following) {
            break;
        }
        if word.as_str() == "--" {
            return SplitOptions {
                options: &words[..words.len() - rest.len()],
                rest: following,
            };
        }
        rest = following;
    }
    SplitOptions {
        options: &words[..words.len() - rest.len()],
        rest,
    }
}

/// How patterns are compared by an option.
fn option_comparison(alloc: Global, option: &str) -> Result<Comparison, ValueFault>
    ensures { Gives reason_of is_glob result (glob_option option.now) }
{
    match option {
        "-exact" => Ok(Comparison::Exact),
        "-glob" => Ok(Comparison::Glob),
        "-regexp" => Err(unsupported(alloc, option)),
        _ => Err(bad_option(alloc, option)),
    }
}

/// How patterns are compared: the last option decides, and without one they are compared exactly.
fn comparison(alloc: Global, options: &[String]) -> Result<Comparison, ValueFault>
    ensures { Gives reason_of is_glob result (by_glob false (map string_bytes options.now)) }
{
    let mut comparison = Comparison::Exact;
    for option in options {
        comparison = option_comparison(alloc, option)?;
    }
    Ok(comparison)
}

/// The last pattern, where its body is `-`, which would be that of the next.
fn bodiless(patterns: &[String]) -> Option<&str>
    ensures { option_map (λ p. p.now) result ≡ bodiless (in_pairs (map string_bytes patterns.entry.now)) }
{
    let mut rest = patterns;
    while let [pattern, body, after @ ..] = rest {
        if after.len() < 2 {
            return last_pattern(pattern, body);
        }
        rest = after;
    }
    None
}

/// The pattern, where its body is `-`.
fn last_pattern<'a>(pattern: &'a str, body: &str) -> Option<&'a str>
    ensures { option_map (λ p. p.now) result ≡ bodiless ((pattern.entry.now, body.now) ∷ []) }
{
    if body == "-" { Some(pattern) } else { None }
}

/// The form with these patterns, unless the last body is `-`.
fn with_patterns<'a>(
    alloc: Global,
    comparison: Comparison,
    text: &'a str,
    patterns: Patterns<'a>,
) -> Result<Form<'a>, ValueFault>
    ensures { Gives reason_of form_view result
        (with_patterns (is_glob comparison) text.entry.now (in_pairs (pattern_texts patterns.entry))) }
{
    match bodiless(patterns.as_slice()) {
        Some(pattern) => Err(no_body(alloc, pattern)),
        None => Ok(Form::Switch(comparison, text, patterns)),
    }
}

/// The form with patterns and bodies that are words of the command.
#[tactic(auto, using(crate::proofs::SwitchLemmas::words_even, crate::proofs::SwitchLemmas::words_odd))]
fn of_words<'a>(
    alloc: Global,
    options: &[String],
    text: &'a str,
    patterns: &'a [String],
) -> Result<Form<'a>, ValueFault>
    ensures { Gives reason_of form_view result
        (even_pairs text.entry.now (map string_bytes options.now) (paired (map string_bytes patterns.entry.now))) }
{
    if patterns.len() % 2 == 1 {
        return Err(wrong_words(alloc, "switch"));
    }
    let comparison = comparison(alloc, options)?;
    with_patterns(alloc, comparison, text, Patterns::Words(patterns))
}

/// The form with patterns and bodies that are the elements of one list.
#[tactic(auto, using(crate::proofs::SwitchLemmas::words_even, crate::proofs::SwitchLemmas::words_odd))]
fn of_list<'a>(
    alloc: Global,
    options: &[String],
    text: &'a str,
    list: &str,
) -> Result<Form<'a>, ValueFault>
    ensures { Gives reason_of form_view result
        (switch_with text.entry.now (map string_bytes options.now) (patterns_in list.now)) }
{
    let comparison = comparison(alloc, options)?;
    let patterns = elements(alloc, list)?;
    if patterns.len() % 2 == 1 {
        return Err(not_a_list(alloc));
    }
    with_patterns(alloc, comparison, text, Patterns::Elements(patterns))
}

/// `switch ?options? text pattern body ?pattern body?...`, or with the patterns and bodies in one list.
pub(crate) fn switch_form(alloc: Global, words: &[String]) -> Result<Form<'_>, ValueFault>
    ensures { Gives reason_of form_view result (switch_form (map string_bytes words.entry.now)) }
{
    let split = split_options(words);
    match split.rest {
        [text, list] => of_list(alloc, split.options, text, list),
        [text, patterns @ ..] if patterns.len() > 1 => {
            of_words(alloc, split.options, text, patterns)
        }
        _ => Err(wrong_words(alloc, "switch")),
    }
}
