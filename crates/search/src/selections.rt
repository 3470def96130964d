//! The names of a listing for which texts are given (module(1), avail).
ghost use Rattle.std.specs.Prelude.{◌≡◌, ◌++◌, ◌∷◌, [], map, nat_eq, string_bytes};
ghost use Rattle.std.specs.List.{list_any, starts_with};
ghost use Rattle.modulename.specs.ModuleName.{slash};
ghost use Rattle.search.specs.Selections.{is_selected, is_sought};
ghost use Rattle.search.specs.BelowFolder.{is_sought_name};

use modulename::is_module_name;

/// Whether a name begins with one of the texts.
fn begins_with_one(name: &str, texts: &[String]) -> bool
    ensures { result ≡ list_any (λ t. starts_with nat_eq name.now t) (map string_bytes texts.now) }
{
    texts
        .iter()
        .any(|text| name.as_bytes().starts_with(text.as_bytes()))
}

/// Whether a name is selected: it begins with one of the texts, or there are none.
#[tactic(auto, using(crate::proofs::SelectionLemmas::selected))]
pub(crate) fn is_selected(texts: &[String], name: &str) -> bool
    ensures { result ≡ is_selected (map string_bytes texts.now) name.now }
{
    texts.is_empty() || begins_with_one(name, texts)
}

/// Whether a text begins with a name and a `/`.
fn leads_below(name: &str, text: &str) -> bool
    ensures { result ≡ starts_with nat_eq text.now (name.now ++ slash ∷ []) }
{
    match text.as_bytes().strip_prefix(name.as_bytes()) {
        Some([]) => false,
        Some([next, ..]) => *next == b'/',
        None => false,
    }
}

/// Whether one of the texts begins with a name and a `/`.
fn one_leads_below(name: &str, texts: &[String]) -> bool
    ensures { result ≡ list_any (λ t. starts_with nat_eq t (name.now ++ slash ∷ [])) (map string_bytes texts.now) }
{
    texts.iter().any(|text| leads_below(name, text))
}

/// Whether a name is sought: it is selected, or one of the texts begins with it and a `/`.
fn is_sought(texts: &[String], name: &str) -> bool
    ensures { result ≡ is_sought (map string_bytes texts.now) name.now }
{
    is_selected(texts, name) || one_leads_below(name, texts)
}

/// Whether a name is sought, and well spelled.
pub(crate) fn is_sought_name(texts: &[String], name: &str) -> bool
    ensures { result ≡ is_sought_name (map string_bytes texts.now) name.now }
{
    is_sought(texts, name) && is_module_name(name)
}
