//! The words and commands of a script, read from left to right (Tcl(n), rules 1 to 9).
ghost use Rattle.std.specs.Prelude.{◌≡◌, ◌∷◌, ◌<◌, Ok, IfSome, option_map};
ghost use Rattle.tcltext.specs.chars.Bytes.{dollar, backslash};
ghost use Rattle.message.specs.Answers.{Gives};
ghost use Rattle.tcltext.specs.chars.Reading.{stopped_by};
ghost use Rattle.tcltext.specs.script.Pieces.{IsSuffixOf, IsPrefixOf};
ghost use Rattle.tcltext.specs.script.Tree as tree;
ghost use Rattle.tcltext.specs.script.Tree.{part, literal, no_parts};
ghost use Rattle.tcltext.specs.script.Ends.{is_nested, bare};
ghost use Rattle.tcltext.specs.script.Reading.{Inner, after_closing, require_word_end, after_expansion, inner_at};
ghost use Rattle.tcltext.specs.script.Reading.{script_with, command_at, word_at, unexpanded_word_at, braced_word_at};
ghost use Rattle.tcltext.specs.script.Reading.{quoted_word_at, quotes_at, parts_with, part_at, literal_at, dollar_at};
ghost use Rattle.tcltext.specs.script.Reading.{braced_name_at, index_at, bracket_at, backslash_at, scalar_variable};
ghost use Rattle.tcltext.specs.script.Reading.{whole_script};
ghost use Rattle.tcltext.specs.script.View.{script_view, command_view, word_view, content_view, part_view, parts_view};

use crate::chars::{
    Class, Fault, ReadError, after_mark, read_backslash, remaining_with_mark, split_close,
    split_run,
};
use crate::script::context::{
    Context, Nesting, bare, command_ends, parts_end, script_ends, split_literal, word_ends,
};
use crate::script::piece::{Source, taken};
use crate::script::runs::{skip_blanks, skip_gap, split_name};
use crate::script::tree::{Command, Part, Script, Word, WordContent};
use std::alloc::Global;

/// The rest after the closing mark, or the fault where that is missing.
fn after_closing(text: &str, mark: u8, fault: Fault) -> Result<&str, ReadError>
    requires { mark < 128 }
    ensures { Gives stopped_by (λ rest. rest.now) result (after_closing mark fault text.now) }
{
    match after_mark(text, mark) {
        Some(rest) => Ok(rest),
        None => Err(ReadError::Fault(fault)),
    }
}

/// The text after a closing brace or quote, where the word ends there; else the fault that something is joined to it.
fn require_word_end(text: &str, nesting: Nesting) -> Result<&str, ReadError>
    ensures { Gives stopped_by (λ rest. rest.now) result (require_word_end (is_nested nesting) text.now) }
{
    if word_ends(text, nesting) {
        Ok(text)
    } else {
        Err(ReadError::Fault(Fault::JoinedToClose(text.len())))
    }
}

/// The rest after the mark `{*}`, unless a word ends there: then it is a word in braces.
#[tactic(auto, unfolding(crate::specs::script::Reading::after_expansion))]
fn after_expansion(text: &str, nesting: Nesting) -> Option<&str>
    ensures { option_map (λ rest. rest.now) result ≡ after_expansion (is_nested nesting) text.now }
{
    let rest = after_mark(after_mark(after_mark(text, b'{')?, b'*')?, b'}')?;
    if word_ends(rest, nesting) {
        None
    } else {
        Some(rest)
    }
}

/// The run of literal bytes that the text begins with, as a part, and the rest.
fn read_literal<'a, S: Source<P>, P: Drop>(
    source: &S,
    text: &'a str,
    context: Context,
) -> (Part<P>, &'a str)
    requires { IsSuffixOf (S.text source.now) text.now }
    ensures { literal_at context text.now ≡ Ok (part_view (S.shown source.now) result.0, result.1.now) }
{
    let (run, rest) = split_literal(text, context);
    (Part::Literal(source.cut(text, run)), rest)
}

/// The run of literal bytes that is a whole word, and the rest; None where no word begins with the text or it has other
/// parts.
fn literal_word(text: &str, nesting: Nesting) -> Option<(&str, &str)>
    ensures prefix { IfSome result (λ x. IsPrefixOf text.now x.0.now) }
    ensures parts { IfSome result (λ x. (inner : Inner) → parts_with (bare (is_nested nesting)) inner text.now
        ≡ Ok (part (literal x.0.now) no_parts, x.1.now)) }
{
    let (run, rest) = split_literal(text, bare(nesting));
    if run.is_empty() || !word_ends(rest, nesting) {
        return None;
    }
    Some((run, rest))
}

/// The part of a dollar and a name without an index; without a name the dollar is literal.
fn scalar_variable<'a, S: Source<P>, P: Drop>(
    source: &S,
    text: &'a str,
    following: &'a str,
    name: &'a str,
) -> Part<P>
    requires text { IsSuffixOf (S.text source.now) text.now }
    requires dollar { text.now ≡ dollar ∷ following.now }
    requires name { IsPrefixOf following.now name.now }
    ensures { part_view (S.shown source.now) result ≡ scalar_variable name.now }
{
    if name.is_empty() {
        Part::Literal(taken(source, text, following))
    } else {
        Part::Variable(source.cut(following, name))
    }
}

/// The part of a backslash, with which the text begins, and the rest; at the end of the text a backslash is literal.
#[tactic(auto, unfolding(crate::specs::script::Reading::backslash_at))]
fn read_escape<'a, S: Source<P>, P: Drop>(
    source: &S,
    text: &'a str,
    following: &'a str,
) -> Result<(Part<P>, &'a str), ReadError>
    requires text { IsSuffixOf (S.text source.now) text.now }
    requires mark { text.now ≡ backslash ∷ following.now }
    ensures { Gives stopped_by (λ x. (part_view (S.shown source.now) x.0, x.1.now)) result
        (backslash_at following.now) }
{
    match read_backslash(following) {
        Some((c, rest)) => Ok((Part::Backslash(c), rest)),
        None => {
            if following.is_empty() {
                Ok((Part::Literal(taken(source, text, following)), following))
            } else {
                Err(ReadError::Fault(Fault::BadCharacter(text.len())))
            }
        }
    }
}

/// The variable whose name is in braces, and the rest; `text` follows the opening brace.
#[tactic(auto, unfolding(crate::specs::script::Reading::braced_name_at))]
fn read_braced_name<'a, S: Source<P>, P: Drop>(
    source: &S,
    text: &'a str,
) -> Result<(Part<P>, &'a str), ReadError>
    requires { IsSuffixOf (S.text source.now) text.now }
    ensures { Gives stopped_by (λ x. (part_view (S.shown source.now) x.0, x.1.now)) result (braced_name_at text.now) }
{
    let (name, after) = split_run(text, Class::InBracedName);
    let rest = after_closing(after, b'}', Fault::OpenBrace(remaining_with_mark(text)))?;
    Ok((Part::Variable(source.cut(text, name)), rest))
}

/// The content of a word in braces, and the rest; `text` follows the opening brace.
#[tactic(auto, unfolding(crate::specs::script::Reading::braced_word_at))]
fn read_braced<'a, S: Source<P>, P: Drop>(
    source: &S,
    text: &'a str,
    nesting: Nesting,
) -> Result<(WordContent<P>, &'a str), ReadError>
    requires { IsSuffixOf (S.text source.now) text.now }
    ensures { Gives stopped_by (λ x. (content_view (S.shown source.now) x.0, x.1.now)) result
        (braced_word_at (is_nested nesting) text.now) }
{
    let Some((inner, after)) = split_close(text) else {
        return Err(ReadError::Fault(Fault::OpenBrace(remaining_with_mark(text))));
    };
    let rest = require_word_end(after, nesting)?;
    Ok((WordContent::Braced(source.cut(text, inner)), rest))
}

/// The tree of a whole source, in which `depth` brackets and indexes may nest.
#[tactic(auto, unfolding(crate::specs::script::Reading::whole_script))]
pub(crate) fn read_source<S: Source<P>, P: Drop>(
    alloc: Global,
    source: &S,
    depth: usize,
) -> Result<Script<P>, ReadError>
    ensures { Gives stopped_by (script_view (S.shown source.now)) result (whole_script depth (S.text source.now)) }
{
    let (script, _) = read_script(alloc, source, source.as_str(), depth, Nesting::Top)?;
    Ok(script)
}

/// A script, and the rest of the text: nothing, or in brackets the closing bracket and what follows it.
#[cycle(read)]
fn read_script<'a, S: Source<P>, P: Drop>(
    alloc: Global,
    source: &S,
    text: &'a str,
    depth: usize,
    nesting: Nesting,
) -> Result<(Script<P>, &'a str), ReadError>
    requires { IsSuffixOf (S.text source.now) text.now }
    ensures { Gives stopped_by (λ x. (script_view (S.shown source.now) x.0, x.1.now)) result
        (script_with (is_nested nesting) (inner_at depth) text.now) }
{
    let mut commands = Vec::new(alloc);
    let mut rest = text;
    loop {
        let start = skip_gap(rest);
        if script_ends(start, nesting) {
            return Ok((Script { commands }, start));
        }
        let offset = text.len() - start.len();
        let (command, after) = read_command(alloc, source, start, offset, depth, nesting)?;
        commands.push(command)?;
        rest = after;
    }
}

/// The command that the text begins with, and the rest; `offset` is the offset of its first word in its script.
#[cycle(read)]
fn read_command<'a, S: Source<P>, P: Drop>(
    alloc: Global,
    source: &S,
    text: &'a str,
    offset: usize,
    depth: usize,
    nesting: Nesting,
) -> Result<(Command<P>, &'a str), ReadError>
    requires { IsSuffixOf (S.text source.now) text.now }
    ensures { Gives stopped_by (λ x. (command_view (S.shown source.now) x.0, x.1.now)) result
        (command_at offset (is_nested nesting) (inner_at depth) text.now) }
{
    let (first, following) = read_word(alloc, source, text, depth, nesting)?;
    let first_text = taken(source, text, following);
    // Few commands have more words than four.
    let mut words = Vec::with_capacity(alloc, 4)?;
    words.push(first)?;
    let mut rest = following;
    loop {
        let start = skip_blanks(rest);
        if command_ends(start, nesting) {
            return Ok((
                Command {
                    offset,
                    source: first_text,
                    words,
                },
                start,
            ));
        }
        let (word, after) = read_word(alloc, source, start, depth, nesting)?;
        words.push(word)?;
        rest = after;
    }
}

/// The word that the text begins with, and the rest.
#[inline(always)]
#[cycle(read)]
#[tactic(auto, unfolding(crate::specs::script::Reading::word_at))]
fn read_word<'a, S: Source<P>, P: Drop>(
    alloc: Global,
    source: &S,
    text: &'a str,
    depth: usize,
    nesting: Nesting,
) -> Result<(Word<P>, &'a str), ReadError>
    requires { IsSuffixOf (S.text source.now) text.now }
    ensures { Gives stopped_by (λ x. (word_view (S.shown source.now) x.0, x.1.now)) result
        (word_at (is_nested nesting) (inner_at depth) text.now) }
{
    match after_expansion(text, nesting) {
        Some(following) => {
            let (content, rest) = read_unexpanded_word(alloc, source, following, depth, nesting)?;
            Ok((
                Word {
                    expands: true,
                    content,
                },
                rest,
            ))
        }
        None => {
            let (content, rest) = read_unexpanded_word(alloc, source, text, depth, nesting)?;
            Ok((
                Word {
                    expands: false,
                    content,
                },
                rest,
            ))
        }
    }
}

/// The content of a word in braces, in quotes or in neither, and the rest. A run of literal text has no parts.
#[inline(always)]
#[cycle(read)]
#[tactic(auto, unfolding(crate::specs::script::Reading::unexpanded_word_at, crate::specs::script::Reading::quoted_word_at, crate::specs::script::Reading::quotes_at))]
fn read_unexpanded_word<'a, S: Source<P>, P: Drop>(
    alloc: Global,
    source: &S,
    text: &'a str,
    depth: usize,
    nesting: Nesting,
) -> Result<(WordContent<P>, &'a str), ReadError>
    requires { IsSuffixOf (S.text source.now) text.now }
    ensures { Gives stopped_by (λ x. (content_view (S.shown source.now) x.0, x.1.now)) result
        (unexpanded_word_at (is_nested nesting) (inner_at depth) text.now) }
{
    if let Some(following) = after_mark(text, b'{') {
        return read_braced(source, following, nesting);
    }
    if let Some(following) = after_mark(text, b'"') {
        let (parts, after) = read_quotes(alloc, source, following, depth)?;
        return Ok((WordContent::Parts(parts), require_word_end(after, nesting)?));
    }
    if let Some((run, rest)) = literal_word(text, nesting) {
        return Ok((WordContent::Bare(source.cut(text, run)), rest));
    }
    let (parts, rest) = read_parts(alloc, source, text, depth, bare(nesting))?;
    Ok((WordContent::Parts(parts), rest))
}

/// The parts of a text in quotes, and the rest after the closing quote (Tcl(n), rule 4); `text` follows the opening
/// quote, and `depth` brackets and indexes may nest in it.
///
/// The fault is `OpenQuote` at the opening quote, or the first that is met inside.
#[cycle(read)]
#[tactic(auto, unfolding(crate::specs::script::Reading::quotes_at))]
pub fn read_quotes<'a, S: Source<P>, P: Drop>(
    alloc: Global,
    source: &S,
    text: &'a str,
    depth: usize,
) -> Result<(Vec<Part<P>>, &'a str), ReadError>
    requires { IsSuffixOf (S.text source.now) text.now }
    ensures { Gives stopped_by (λ x. (parts_view (S.shown source.now) x.0.items, x.1.now)) result
        (quotes_at (inner_at depth) text.now) }
{
    let (parts, close) = read_parts(alloc, source, text, depth, Context::InQuotes)?;
    let rest = after_closing(close, b'"', Fault::OpenQuote(remaining_with_mark(text)))?;
    Ok((parts, rest))
}

/// The parts up to where they end in that context, and the rest.
#[cycle(read)]
fn read_parts<'a, S: Source<P>, P: Drop>(
    alloc: Global,
    source: &S,
    text: &'a str,
    depth: usize,
    context: Context,
) -> Result<(Vec<Part<P>>, &'a str), ReadError>
    requires { IsSuffixOf (S.text source.now) text.now }
    ensures { Gives stopped_by (λ x. (parts_view (S.shown source.now) x.0.items, x.1.now)) result
        (parts_with context (inner_at depth) text.now) }
{
    // Few words have more parts than two.
    let mut parts = Vec::with_capacity(alloc, 2)?;
    let mut rest = text;
    loop {
        if parts_end(rest, context) {
            return Ok((parts, rest));
        }
        let (part, after) = read_part(alloc, source, rest, depth, context)?;
        parts.push(part)?;
        rest = after;
    }
}

/// The part that the text begins with, and the rest; the caller knows that the parts do not end here.
#[cycle(read)]
#[tactic(auto, unfolding(crate::specs::script::Reading::part_at))]
fn read_part<'a, S: Source<P>, P: Drop>(
    alloc: Global,
    source: &S,
    text: &'a str,
    depth: usize,
    context: Context,
) -> Result<(Part<P>, &'a str), ReadError>
    requires { IsSuffixOf (S.text source.now) text.now }
    ensures { Gives stopped_by (λ x. (part_view (S.shown source.now) x.0, x.1.now)) result
        (part_at context (inner_at depth) text.now) }
{
    if let Some(following) = after_mark(text, b'$') {
        return read_dollar(alloc, source, text, following, depth);
    }
    if let Some(following) = after_mark(text, b'[') {
        return read_bracket(alloc, source, following, depth);
    }
    match after_mark(text, b'\\') {
        Some(following) => read_escape(source, text, following),
        None => Ok(read_literal(source, text, context)),
    }
}

/// The variable that the text begins with, and the rest (Tcl(n), rule 8): `$name`, `$name(index)` or `${name}`,
/// of which `following` is what follows the dollar. Before anything else the dollar is literal. At most `depth`
/// brackets and indexes may nest.
///
/// The fault is `OpenBrace` at the brace of a name, `BadCharacter` at the parenthesis of an index, or the first
/// that is met inside.
#[cycle(read)]
#[tactic(auto, unfolding(crate::specs::script::Reading::dollar_at))]
pub fn read_dollar<'a, S: Source<P>, P: Drop>(
    alloc: Global,
    source: &S,
    text: &'a str,
    following: &'a str,
    depth: usize,
) -> Result<(Part<P>, &'a str), ReadError>
    requires text { IsSuffixOf (S.text source.now) text.now }
    requires dollar { text.now ≡ dollar ∷ following.now }
    ensures { Gives stopped_by (λ x. (part_view (S.shown source.now) x.0, x.1.now)) result
        (dollar_at (inner_at depth) following.now) }
{
    if let Some(inner) = after_mark(following, b'{') {
        return read_braced_name(source, inner);
    }
    let (name, after) = split_name(following);
    match after_mark(after, b'(') {
        Some(index) => {
            let (parts, rest) = read_index(alloc, source, index, depth)?;
            Ok((indexed(source, following, name, parts), rest))
        }
        None => Ok((scalar_variable(source, text, following, name), after)),
    }
}

/// The part of an array element, whose name the text begins with.
fn indexed<'a, S: Source<P>, P: Drop>(
    source: &S,
    text: &'a str,
    name: &'a str,
    parts: Vec<Part<P>>,
) -> Part<P>
    requires text { IsSuffixOf (S.text source.now) text.now }
    requires name { IsPrefixOf text.now name.now }
    ensures { part_view (S.shown source.now) result ≡ tree.indexed name.now
        (parts_view (S.shown source.now) parts.items) }
{
    Part::Indexed(source.cut(text, name), parts)
}

/// The parts of an index, and the rest; `text` follows the opening parenthesis.
#[cycle(read)]
#[tactic(auto, unfolding(crate::specs::script::Reading::index_at, crate::specs::script::Reading::inner_at))]
fn read_index<'a, S: Source<P>, P: Drop>(
    alloc: Global,
    source: &S,
    text: &'a str,
    depth: usize,
) -> Result<(Vec<Part<P>>, &'a str), ReadError>
    requires { IsSuffixOf (S.text source.now) text.now }
    ensures { Gives stopped_by (λ x. (parts_view (S.shown source.now) x.0.items, x.1.now)) result
        (index_at (inner_at depth) text.now) }
{
    if depth == 0 {
        return Err(ReadError::Fault(Fault::TooDeep));
    }
    let (parts, close) = read_parts(alloc, source, text, depth - 1, Context::InIndex)?;
    let rest = after_closing(close, b')', Fault::BadCharacter(remaining_with_mark(text)))?;
    Ok((parts, rest))
}

/// The script in brackets, as a part, and the rest (Tcl(n), rule 7); `text` follows the opening bracket. At most
/// `depth` brackets and indexes may nest, this one included.
///
/// The fault is `TooDeep` where none may nest, `OpenBracket` at the opening bracket, or the first that is met inside.
#[cycle(read)]
#[tactic(auto, unfolding(crate::specs::script::Reading::bracket_at, crate::specs::script::Reading::inner_at))]
pub fn read_bracket<'a, S: Source<P>, P: Drop>(
    alloc: Global,
    source: &S,
    text: &'a str,
    depth: usize,
) -> Result<(Part<P>, &'a str), ReadError>
    requires { IsSuffixOf (S.text source.now) text.now }
    ensures { Gives stopped_by (λ x. (part_view (S.shown source.now) x.0, x.1.now)) result
        (bracket_at (inner_at depth) text.now) }
{
    if depth == 0 {
        return Err(ReadError::Fault(Fault::TooDeep));
    }
    let (script, close) = read_script(alloc, source, text, depth - 1, Nesting::InBrackets)?;
    let rest = after_closing(close, b']', Fault::OpenBracket(remaining_with_mark(text)))?;
    Ok((Part::Bracket(script), rest))
}
