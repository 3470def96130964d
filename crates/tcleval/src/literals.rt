//! Commands whose words are all literal, and few: `break`, `continue`, `incr` and `set`. Their forms borrow from the
//! source, so that the commands of most loops copy no words.
ghost use Rattle.std.specs.Prelude.{◌≡◌, ◌∷◌, [], ℕ, List, None, Some, Ok, IfSome, map};
ghost use Rattle.tcltext.specs.chars.Runs.{Text};
ghost use Rattle.tcltext.specs.script.Tree.{words_of};
ghost use Rattle.tcltext.specs.script.View.{word_view};
ghost use Rattle.tclvalue.specs.Commands.{command_value};
ghost use Rattle.tclrules.specs.Variables.{State};
ghost use Rattle.tclrules.specs.Plans as plans;
ghost use Rattle.tclrules.specs.Plans.{Next};
ghost use Rattle.tclrules.specs.Words as pieces;
ghost use Rattle.tclrules.specs.Rules as rules;
ghost use Rattle.tclrules.specs.Forms.{core_form};
ghost use Rattle.tclforms.specs.Views.{simple_view};
ghost use Rattle.tclforms.specs.substitution.Machine.{range_text, bounds};

use crate::sourced::SourcedTree;
use crate::words::literal;
use tclforms::SimpleForm;
use tclrules::Limits;
use tcltext::script::{ByteRange, Word};

/// The text of a word that is one literal part within the limit on values; None for any other word.
fn literal_text<'t>(limits: Limits, source: &'t str, word: &Word<ByteRange>) -> Option<&'t str>
    ensures { IfSome result (λ t. (remaining : ℕ) (s : State) (k : List Text → State → plans.Step)
        → pieces.one_word (bounds limits.value_bytes remaining) (word_view (range_text source.entry.now) word.now) s k
        ≡ k (t.now ∷ []) s) }
{
    if word.expands {
        return None;
    }
    let text = literal(&word.content)?.of(source);
    if text.len() > limits.value_bytes {
        return None;
    }
    Some(text)
}

/// The form of such a command that is its name alone.
#[tactic(auto, unfolding(tclrules::specs::Forms::core_form))]
fn form_alone(name: &str) -> Option<SimpleForm<'_>>
    ensures { IfSome result (λ form. (limit : ℕ) → (core_form name.entry.now [] ≡ Some (Ok (simple_view form)))
        × (command_value (name.entry.now ∷ []) limit ≡ Ok None)) }
{
    match name {
        "break" => Some(SimpleForm::Break),
        "continue" => Some(SimpleForm::Continue),
        _ => None,
    }
}

/// The form of such a command with one word after its name.
#[tactic(auto, unfolding(tclrules::specs::Forms::core_form))]
fn form_of_one<'t>(name: &str, word: &'t str) -> Option<SimpleForm<'t>>
    ensures { IfSome result (λ form. (limit : ℕ)
        → (core_form name.now (word.entry.now ∷ []) ≡ Some (Ok (simple_view form)))
        × (command_value (name.now ∷ word.entry.now ∷ []) limit ≡ Ok None)) }
{
    match name {
        "incr" => Some(SimpleForm::Increase(word, &[])),
        "set" => Some(SimpleForm::Get(word)),
        _ => None,
    }
}

/// The form of such a command with two words after its name.
#[tactic(auto, unfolding(tclrules::specs::Forms::core_form))]
fn form_of_two<'t>(name: &str, first: &'t str, second: &'t str) -> Option<SimpleForm<'t>>
    ensures { IfSome result (λ form. (limit : ℕ)
        → (core_form name.now (first.entry.now ∷ second.entry.now ∷ []) ≡ Some (Ok (simple_view form)))
        × (command_value (name.now ∷ first.entry.now ∷ second.entry.now ∷ []) limit ≡ Ok None)) }
{
    match name {
        "set" => Some(SimpleForm::Set(first, second)),
        _ => None,
    }
}

/// The form of such a command; None for any other command, whose words are substituted.
pub(crate) fn literal_form<'t>(
    limits: Limits,
    words: SourcedTree<'t, &'t [Word<ByteRange>]>,
) -> Option<SimpleForm<'t>>
    ensures { IfSome result (λ form. (remaining : ℕ) (s : State) (k : Next)
        → pieces.words (bounds limits.value_bytes remaining)
        (words_of (map (word_view (range_text words.entry.source.now)) words.entry.tree.now)) [] s
        (λ texts s1. rules.called (bounds limits.value_bytes remaining) texts s1 k)
        ≡ rules.form (bounds limits.value_bytes remaining) (simple_view form) s k) }
{
    let source = words.source;
    match words.tree {
        [name] => form_alone(literal_text(limits, source, name)?),
        [name, word] => form_of_one(
            literal_text(limits, source, name)?,
            literal_text(limits, source, word)?,
        ),
        [name, first, second] => form_of_two(
            literal_text(limits, source, name)?,
            literal_text(limits, source, first)?,
            literal_text(limits, source, second)?,
        ),
        _ => None,
    }
}
