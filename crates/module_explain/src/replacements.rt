//! What is said of words that are refused for themselves.
ghost use Rattle.std.specs.Prelude.{◌≡◌};
ghost use Rattle.std.specs.Option.{option_map};
ghost use Rattle.module_explain.specs.Replacements as spec;

/// A sentence for a command that loads other modules, or changes what isn't a variable.
#[tactic(auto, unfolding(crate::specs::Replacements::loading, crate::specs::Replacements::of_shells, crate::specs::Replacements::of_searches))]
fn instead_of_change(name: &str) -> Option<&'static str>
    ensures { option_map (λ t. t.now) result ≡ spec.instead_of_change name.now }
{
    match name {
        "module" | "depends-on" | "prereq-all" | "prereq-any" => {
            Some("A modulefile loads no other: it says \"prereq NAME\".")
        }
        "set-alias"
        | "unset-alias"
        | "set-function"
        | "unset-function"
        | "complete"
        | "uncomplete" => Some(
            "A modulefile changes variables alone: no alias, function or completion.",
        ),
        "module-alias" | "module-virtual" | "module-hide" | "module-forbid" | "module-tag" => {
            Some("It would change which module a name means.")
        }
        _ => None,
    }
}

/// A sentence for a command that writes, or reads what isn't a variable, and for the variables of arrays.
#[tactic(auto, unfolding(crate::specs::Replacements::reading, crate::specs::Replacements::of_arrays))]
fn instead_of_reading(name: &str) -> Option<&'static str>
    ensures { option_map (λ t. t.now) result ≡ spec.instead_of_reading name.now }
{
    match name {
        "puts" => Some(
            "A message goes to stderr (\"puts stderr TEXT\"), and setenv sets variables.",
        ),
        "exec" | "system" | "uname" | "source-sh" | "open" | "source" => {
            Some(
                "No program is run and no other file read: the site sets a variable, which getenv reads.",
            )
        }
        "array" | "env" => Some(
            "A variable of the environment is set by setenv, and read by getenv.",
        ),
        _ => None,
    }
}

/// A sentence for what is left out by this name, if there is one.
pub(crate) fn instead_of(name: &str) -> Option<&'static str>
    ensures { option_map (λ t. t.now) result ≡ spec.instead_of name.now }
{
    match instead_of_change(name) {
        Some(sentence) => Some(sentence),
        None => instead_of_reading(name),
    }
}

/// How a subcommand that only the function has is used, if it is one whose words can be refused.
fn usage_of_function(subcommand: &str) -> Option<&'static str>
    ensures { option_map (λ t. t.now) result ≡ spec.of_function subcommand.now }
{
    match subcommand {
        "keyword" => Some("usage: module keyword TEXT"),
        "reload" => Some("usage: module reload"),
        "forget" => Some("usage: module forget [--settings-stay] NAME..."),
        "is-avail" => Some("usage: module is-avail NAME..."),
        "use" => Some("usage: module use [-a] DIR..."),
        "unuse" => Some("usage: module unuse DIR..."),
        "save" => Some("usage: module save [COLLECTION]"),
        "restore" => Some("usage: module restore [COLLECTION]"),
        "savelist" => Some("usage: module savelist"),
        "saveshow" => Some("usage: module saveshow [COLLECTION]"),
        "saverm" => Some("usage: module saverm COLLECTION"),
        _ => None,
    }
}

/// How a subcommand is used, if it is one whose words can be refused.
pub(crate) fn usage_of(subcommand: &str) -> Option<&'static str>
    ensures { option_map (λ t. t.now) result ≡ spec.usage_of subcommand.now }
{
    match subcommand {
        "load" | "add" => Some("usage: module load NAME..."),
        "unload" | "rm" => Some("usage: module unload NAME..."),
        "switch" | "swap" => Some("usage: module switch [OLD] NEW"),
        "purge" => Some("usage: module purge"),
        "list" => Some("usage: module list [-t] [TEXT...]"),
        "show" | "display" => Some("usage: module show NAME..."),
        "whatis" => Some("usage: module whatis [NAME...]"),
        _ => usage_of_function(subcommand),
    }
}
