//! The version that a default file names, by the result of its evaluation (modulefile(5)).
ghost use Rattle.std.specs.Prelude.{◌≡◌, ◌++◌, ◌∷◌, [], map, option_map, string_bytes};
ghost use Rattle.modulename.specs.ModuleName.{slash};
ghost use Rattle.search.specs.DefaultVersions.{after_prefix, version_in, default_by, last_default};
ghost use Rattle.search.specs.Ended.{ended_view};
ghost use Rattle.search.specs.DefaultFileKinds.{file_name, says};

use crate::default_files::DefaultFileEnding;
use crate::paths::has;

/// The two default files of a folder.
#[derive(Clone, Copy)]
pub enum DefaultFile {
    /// `.modulerc`, which names a version by the command `module-version`.
    Modulerc,
    /// `.version`, which names a version by the global variable `ModulesVersion`.
    Version,
}

impl DefaultFile {
    /// The name of the file in its folder.
    pub fn file_name(self) -> &'static str
        ensures { result.now ≡ file_name self }
    {
        match self {
            DefaultFile::Modulerc => ".modulerc",
            DefaultFile::Version => ".version",
        }
    }

    /// The version in the folder of a name that the file names, by the result of its evaluation, if it names one.
    pub fn version_named<'a>(self, name: &str, ended: &'a DefaultFileEnding) -> Option<&'a str>
        ensures { option_map (λ v. v.now) result ≡ says self name.now (ended_view ended.entry.now) }
    {
        match self {
            DefaultFile::Modulerc => last_default(name, &ended.commands),
            DefaultFile::Version => ended.version.as_deref(),
        }
    }
}

/// The rest of a text after this prefix; `None` where the text doesn't begin with it.
fn after_prefix<'a>(prefix: &str, text: &'a str) -> Option<&'a str>
    ensures { option_map (λ v. v.now) result ≡ after_prefix prefix.now text.entry.now }
{
    text.strip_prefix(prefix)
}

/// The rest of a text after `name/`; `None` where it doesn't begin so.
fn below_name<'a>(name: &str, spelled: &'a str) -> Option<&'a str>
    ensures { option_map (λ v. v.now) result ≡ after_prefix (name.now ++ slash ∷ []) spelled.entry.now }
{
    after_prefix("/", after_prefix(name, spelled)?)
}

/// The version V in the folder of a name that is spelled `name/V`, `/V` or `./V`.
fn version_in<'a>(name: &str, spelled: &'a str) -> Option<&'a str>
    ensures { option_map (λ v. v.now) result ≡ version_in name.now spelled.entry.now }
{
    if let Some(version) = below_name(name, spelled) {
        return Some(version);
    }
    if let Some(version) = after_prefix("/", spelled) {
        return Some(version);
    }
    after_prefix("./", spelled)
}

/// The version that one `module-version` command makes the default of the folder of a name, if it makes one. Other
/// symbolic versions than `default` have no effect.
fn default_by<'a>(name: &str, words: &'a [String]) -> Option<&'a str>
    ensures { option_map (λ v. v.now) result ≡ default_by name.now (map string_bytes words.entry.now) }
{
    let [_command, spelled, rest @ ..] = words else {
        return None;
    };
    if !has(rest, "default") {
        return None;
    }
    version_in(name, spelled)
}

/// The version that `module-version` commands make the default of the folder of a name: the last that makes one counts.
fn last_default<'a>(name: &str, commands: &'a [Vec<String>]) -> Option<&'a str>
    ensures { option_map (λ v. v.now) result
        ≡ last_default name.now (map (λ words. map string_bytes words.items) commands.entry.now) }
{
    let mut last = None;
    for words in commands {
        if let Some(version) = default_by(name, words) {
            last = Some(version);
        }
    }
    last
}
