//! How deep brackets and the parentheses of indexes nest in an operand.
ghost use Rattle.std.specs.Prelude.{◌≡◌, ◌≤◌};
ghost use Rattle.tcltext.specs.chars.Runs.{Text};
ghost use Rattle.tcltext.specs.script.Tree.{nesting, words_nesting, parts_nesting, part_nesting};
ghost use Rattle.tcltext.specs.script.View.{script_view, content_view, part_view, parts_view};
ghost use Rattle.tcltext.specs.expr.View.{words_view};

use crate::script::{Command, Part, Script, Word, WordContent};

/// How deep brackets and the parentheses of indexes nest in a script; `usize::MAX` where that is no `usize`.
#[cycle(nesting)]
pub(crate) fn script_nesting<P: Drop>(script: &Script<P>) -> usize
    ensures { (shown : P → Text) → nesting (script_view shown script.now) ≤ usize.MAX
        → result ≡ nesting (script_view shown script.now) }
{
    let mut height = 0;
    for command in &script.commands {
        height = height.max(words_nesting(&command.words));
    }
    height
}

/// How deep they nest in words.
#[cycle(nesting)]
fn words_nesting<P: Drop>(words: &Vec<Word<P>>) -> usize
    ensures { (shown : P → Text) → words_nesting (words_view shown words.now.items) ≤ usize.MAX
        → result ≡ words_nesting (words_view shown words.now.items) }
{
    let mut height = 0;
    for word in words {
        height = height.max(content_nesting(&word.content));
    }
    height
}

/// How deep they nest in what a word is made of.
#[cycle(nesting)]
fn content_nesting<P: Drop>(content: &WordContent<P>) -> usize
    ensures { (shown : P → Text) → parts_nesting (content_view shown content.now) ≤ usize.MAX
        → result ≡ parts_nesting (content_view shown content.now) }
{
    match content {
        WordContent::Parts(parts) => parts_nesting(parts),
        WordContent::Bare(_) | WordContent::Braced(_) => 0,
    }
}

/// How deep they nest in parts.
#[cycle(nesting)]
pub(crate) fn parts_nesting<P: Drop>(parts: &Vec<Part<P>>) -> usize
    ensures { (shown : P → Text) → parts_nesting (parts_view shown parts.now.items) ≤ usize.MAX
        → result ≡ parts_nesting (parts_view shown parts.now.items) }
{
    let mut height = 0;
    for part in parts {
        height = height.max(part_nesting(part));
    }
    height
}

/// How deep they nest in a part, with its own bracket or index.
#[cycle(nesting)]
fn part_nesting<P: Drop>(part: &Part<P>) -> usize
    ensures { (shown : P → Text) → part_nesting (part_view shown part.now) ≤ usize.MAX
        → result ≡ part_nesting (part_view shown part.now) }
{
    match part {
        Part::Indexed(_, parts) => parts_nesting(parts).saturating_add(1),
        Part::Bracket(script) => script_nesting(script).saturating_add(1),
        _ => 0,
    }
}
