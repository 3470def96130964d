//! The answers to `module-info` and `is-loaded` (modulefile(5)).
ghost use Rattle.std.specs.Prelude.{◌≡◌, ◌||◌, ◌&&◌, true, bytes_eq, codes, map, string_bytes};
ghost use Rattle.std.specs.List.{list_any};
ghost use Rattle.envvars.specs.Texts.{Text};
ghost use Rattle.modulename.specs.ModuleName.{means};
ghost use Rattle.modulefile.specs.Answers.{any_loaded, is_second_word, mode_word, truth};
ghost use Rattle.modulefile.specs.RecordViews.{mode_view};

use modulefile::Mode;
use modulename::means;

/// The text that answers a question: `1` for yes and `0` for no.
pub(crate) fn truth(is_true: bool) -> &'static str
    ensures { result.now ≡ truth is_true }
{
    if is_true { "1" } else { "0" }
}

/// The word of a mode, as `module-info mode` has it.
pub(crate) fn mode_word(mode: Mode) -> &'static str
    ensures { result.now ≡ mode_word (mode_view mode) }
{
    match mode {
        Mode::Load => "load",
        Mode::Unload => "unload",
        Mode::Display => "display",
        Mode::Whatis => "whatis",
    }
}

/// Whether a word is another one for the mode: unloading is `remove` as well.
fn is_second_word(mode: Mode, word: &str) -> bool
    ensures { result ≡ is_second_word (mode_view mode) word.now }
{
    match mode {
        Mode::Unload => word == "remove",
        Mode::Load | Mode::Display | Mode::Whatis => false,
    }
}

/// Whether a word is one for the mode. Both halves of a switch are `switch` as well.
pub(crate) fn is_mode(mode: Mode, in_switch: bool, word: &str) -> bool
    ensures { result ≡ (bytes_eq word.now (mode_word (mode_view mode)) || is_second_word (mode_view mode) word.now
        || (in_switch && bytes_eq word.now (codes "switch"))) }
{
    word == mode_word(mode) || is_second_word(mode, word) || (in_switch && word == "switch")
}

/// Whether the name means a loaded module.
fn is_meant(name: &str, loaded: &[String]) -> bool
    ensures { result ≡ list_any (means name.now) (map string_bytes loaded.now) }
{
    loaded.iter().any(|module| means(name, module.as_str()))
}

/// Whether one of the names means a loaded module.
fn is_any_meant(names: &[String], loaded: &[String]) -> bool
    ensures { result
        ≡ list_any (λ name. list_any (means name) (map string_bytes loaded.now)) (map string_bytes names.now) }
{
    names.iter().any(|name| is_meant(name.as_str(), loaded))
}

/// Whether any module is loaded.
fn is_any(loaded: &[String]) -> bool
    ensures { result ≡ list_any (λ (text : Text). true) (map string_bytes loaded.now) }
{
    matches!(loaded, [_, ..])
}

/// Whether one of the names means a loaded module, or without a name whether any is loaded.
pub(crate) fn any_loaded(names: &[String], loaded: &[String]) -> bool
    ensures { result ≡ any_loaded (map string_bytes names.now) (map string_bytes loaded.now) }
{
    match names {
        [] => is_any(loaded),
        _ => is_any_meant(names, loaded),
    }
}
