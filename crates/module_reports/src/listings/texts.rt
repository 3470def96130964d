//! Which names texts fit, by the options of a report.
ghost use Rattle.std.specs.Prelude.{◌≡◌, map, string_bytes};
ghost use Rattle.std.specs.List.{list_any};
ghost use Rattle.module_reports.specs.listings.Texts as spec;

use crate::listings::options::Options;

/// Whether two bytes are the same letter.
fn is_same_letter(any_case: bool, left: u8, right: u8) -> bool
    ensures { result ≡ spec.is_same_letter any_case left right }
{
    if any_case {
        left.to_ascii_lowercase() == right.to_ascii_lowercase()
    } else {
        left == right
    }
}

/// Whether a text stands at the front of a name.
fn stands_in_front(any_case: bool, name: &[u8], text: &[u8]) -> bool
    ensures { result ≡ spec.stands_in_front any_case name.now text.now }
{
    let [wanted, text @ ..] = text else {
        return true;
    };
    let [letter, name @ ..] = name else {
        return false;
    };
    is_same_letter(any_case, *letter, *wanted) && stands_in_front(any_case, name, text)
}

/// Whether a text stands anywhere in a name.
fn stands_within(any_case: bool, name: &[u8], text: &[u8]) -> bool
    ensures { result ≡ spec.stands_within any_case name.now text.now }
{
    if stands_in_front(any_case, name, text) {
        return true;
    }
    let [_, name @ ..] = name else {
        return false;
    };
    stands_within(any_case, name, text)
}

/// Whether a text fits a name.
fn fits(options: Options, name: &str, text: &str) -> bool
    ensures { result ≡ spec.fits options name.now text.now }
{
    if options.within {
        stands_within(options.any_case, name.as_bytes(), text.as_bytes())
    } else {
        stands_in_front(options.any_case, name.as_bytes(), text.as_bytes())
    }
}

/// Whether one of the texts fits a name.
fn one_fits(options: Options, texts: &[String], name: &str) -> bool
    ensures { result ≡ list_any (spec.fits options name.now) (map string_bytes texts.now) }
{
    texts.iter().any(|text| fits(options, name, text.as_str()))
}

/// Whether one of the texts fits a name, or there are none.
#[tactic(auto, using(crate::proofs::listings::ListLemmas::meant_or))]
pub(crate) fn is_meant(options: Options, texts: &[String], name: &str) -> bool
    ensures { result ≡ spec.is_meant options (map string_bytes texts.now) name.now }
{
    texts.is_empty() || one_fits(options, texts, name)
}

/// Whether the texts mean what they mean to a search: they are beginnings, letter by letter.
pub(crate) fn are_beginnings(options: Options) -> bool
    ensures { result ≡ spec.are_beginnings options }
{
    !options.within && !options.any_case
}
