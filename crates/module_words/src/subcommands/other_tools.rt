//! What is said of subcommands and options that only Environment Modules or Lmod have.
ghost use Rattle.std.specs.Prelude.{◌≡◌, find, map};
ghost use Rattle.std.specs.Option.{option_map, option_copied};
ghost use Rattle.module_words.specs.subcommands.Elsewhere as spec;
ghost use Rattle.module_words.specs.subcommands.OtherOptions as options;
ghost use Rattle.module_words.specs.subcommands.OtherOptions.{other_options};
ghost use Rattle.module_words.specs.subcommands.Views.{other_view};

/// A sentence for a subcommand that says something about modules.
fn instead_of_report(word: &str) -> Option<&'static str>
    ensures { option_map (λ t. t.now) result ≡ spec.instead_of_report word.now }
{
    match word {
        "spider" => Some(
            "Here: \"module keyword TEXT\" for names and descriptions, \"module avail -C TEXT\" for names.",
        ),
        "overview" | "aliases" => Some("Here: \"module avail\"."),
        "path" | "paths" => Some("Here: \"module show NAME\"."),
        "describe" => Some("Here: \"module saveshow\"."),
        "info-loaded" => Some("Here: \"module is-loaded NAME\"."),
        _ => None,
    }
}

/// A sentence for a subcommand that changes what is loaded, now or at the next login.
#[tactic(auto, unfolding(crate::specs::subcommands::Elsewhere::of_login))]
fn instead_of_change(word: &str) -> Option<&'static str>
    ensures { option_map (λ t. t.now) result ≡ spec.instead_of_change word.now }
{
    match word {
        "try-load" => Some("Here: \"module is-avail NAME && module load NAME\"."),
        "update" => Some("Here: \"module reload\"."),
        "reset" => Some("Here: \"module restore\", or a new login."),
        "clear" => Some("Here: \"module purge\"."),
        "initadd" | "initprepend" | "initlist" | "initrm" | "initswitch" | "initclear" => {
            Some("Here: \"module save\", and \"module restore\" in a start-up file.")
        }
        _ => None,
    }
}

/// A sentence for a subcommand that works on modulefiles or on the tool itself.
#[tactic(auto, unfolding(crate::specs::subcommands::Elsewhere::of_files))]
fn instead_of_work(word: &str) -> Option<&'static str>
    ensures { option_map (λ t. t.now) result ≡ spec.instead_of_work word.now }
{
    match word {
        "lint" | "test" => Some("Here: the programs modcheck and modaudit."),
        "sh-to-mod"
        | "mod-to-sh"
        | "source"
        | "edit"
        | "config"
        | "state"
        | "cachebuild"
        | "cacheclear" => Some("This isn't done here."),
        _ => None,
    }
}

/// What is said of a word that means no subcommand: what does here what it does elsewhere, or where the subcommands are
/// listed.
pub fn elsewhere(word: &str) -> &'static str
    ensures { result.now ≡ spec.elsewhere word.now }
{
    if let Some(sentence) = instead_of_report(word) {
        return sentence;
    }
    if let Some(sentence) = instead_of_change(word) {
        return sentence;
    }
    if let Some(sentence) = instead_of_work(word) {
        return sentence;
    }
    "\"module help\" lists the subcommands."
}

/// An option that a subcommand doesn't have here, and what is said of it.
#[derive(Clone, Copy)]
pub struct OtherOption {
    /// The option.
    pub name: &'static str,
    /// What is said of it.
    pub sentence: &'static str,
}

/// Makes a list of options with what is said of them.
macro_rules! others {
    ($($name:literal => $sentence:literal,)*) => { [$(OtherOption { name: $name, sentence: $sentence }),*] };
}

const OTHERS: [OtherOption; 43] = others! {
    "--force" => "Nothing is forced here: \"module forget NAME\" is for a module whose file is gone.",
    "-f" => "Nothing is forced here: \"module forget NAME\" is for a module whose file is gone.",
    "--silent" => "Here: MODULECMD_EXPLAIN=no in the environment leaves out what explains a refusal.",
    "-s" => "Here: MODULECMD_EXPLAIN=no in the environment leaves out what explains a refusal.",
    "--quiet" => "Here: MODULECMD_EXPLAIN=no in the environment leaves out what explains a refusal.",
    "-q" => "Here: MODULECMD_EXPLAIN=no in the environment leaves out what explains a refusal.",
    "--verbose" => "Here: \"module show NAME\" says what a module does.",
    "-v" => "Here: \"module show NAME\" says what a module does.",
    "--debug" => "Here: \"module show NAME\" says what a module does.",
    "-D" => "Here: \"module show NAME\" says what a module does.",
    "--trace" => "Here: \"module show NAME\" says what a module does.",
    "-T" => "Here: \"module show NAME\" says what a module does.",
    "--long" => "This isn't done here: \"module -t avail\" and \"module -t list\" have one name a line.",
    "-l" => "This isn't done here: \"module -t avail\" and \"module -t list\" have one name a line.",
    "--json" => "This isn't done here: \"module -t avail\" and \"module -t list\" have one name a line.",
    "-j" => "This isn't done here: \"module -t avail\" and \"module -t list\" have one name a line.",
    "--output" => "This isn't done here: \"module -t avail\" and \"module -t list\" have one name a line.",
    "-o" => "This isn't done here: \"module -t avail\" and \"module -t list\" have one name a line.",
    "--all" => "This isn't done here: no module is hidden.",
    "-a" => "Here it is an option of \"module use\", and no module is hidden.",
    "--show_hidden" => "This isn't done here: no module is hidden.",
    "--regexp" => "Here: \"module avail -C TEXT\" for names that have the text.",
    "-r" => "Here: \"module avail -C TEXT\" for names that have the text.",
    "--starts-with" => "Here: \"module avail TEXT\".",
    "-S" => "Here: \"module avail TEXT\".",
    "--pager" => "Here: PAGER=cat in the environment pages nothing.",
    "--no-pager" => "Here: PAGER=cat in the environment pages nothing.",
    "--width" => "This isn't done here: columns fill the terminal.",
    "-w" => "This isn't done here: columns fill the terminal.",
    "--auto" => "Here: \"module load --auto NAME\" and \"module unload --auto NAME\".",
    "--no-auto" => "Here: MODULES_AUTO_HANDLING=0 in the environment.",
    "--contains" => "Here it is an option of \"module avail\".",
    "-C" => "Here it is an option of \"module avail\".",
    "--icase" => "Here it is an option of \"module avail\".",
    "-i" => "Here it is an option of \"module avail\".",
    "--default" => "Here it is an option of \"module avail\".",
    "-d" => "Here it is an option of \"module avail\".",
    "--latest" => "Here it is an option of \"module avail\".",
    "-L" => "Here it is an option of \"module avail\".",
    "--terse" => "Here it is an option of \"module avail\" and \"module list\".",
    "-t" => "Here it is an option of \"module avail\" and \"module list\".",
    "--help" => "Here: \"module help\", and \"module help NAME\" for a module.",
    "-h" => "Here: \"module help\", and \"module help NAME\" for a module.",
};

/// The options that other tools have, or other subcommands.
#[tactic(auto, unfolding(crate::specs::subcommands::OtherOptions::other_options))]
fn other_rows() -> &'static [OtherOption]
    ensures { map other_view result.now ≡ other_options }
{
    &OTHERS
}

/// The row of an option.
fn other_named(word: &str) -> Option<&'static OtherOption>
    ensures { option_map other_view (option_copied result) ≡ find (options.is_other_name word.now) other_options }
{
    other_rows().iter().find(|row| word == row.name)
}

/// What is said of an option that a subcommand doesn't have: what does here what it does elsewhere, that this isn't done,
/// or where the options are listed.
pub fn option_elsewhere(word: &str) -> &'static str
    ensures { result.now ≡ options.option_elsewhere word.now }
{
    match other_named(word) {
        Some(row) => row.sentence,
        None => "\"module help\" lists the options.",
    }
}
