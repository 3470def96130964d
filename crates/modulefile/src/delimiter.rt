//! The delimiters of path variables (modulefile(5), the option `--delim`).
ghost use Rattle.std.specs.Prelude.{◌≡◌, ◌≤◌, if◌then◌else◌, Some, None};
ghost use Rattle.std.specs.Option.{option_map};
ghost use Rattle.envstate.specs.paths.PathTexts.{is_delimiter};

/// The character between the elements of a path variable, one from the space to the tilde of ASCII.
#[derive(Clone, Copy, Debug)]
pub struct Delimiter {
    pub character: char,
    ghost from_space: { 32 ≤ character },
    ghost to_tilde: { character ≤ 126 },
}

impl Delimiter {
    /// The colon, the delimiter of a command without the option.
    pub const COLON: Delimiter = Delimiter { character: ':' };

    /// The delimiter of this character, if it may be one.
    pub fn new(character: char) -> Option<Delimiter>
        ensures { option_map (λ delim. delim.character) result
            ≡ if is_delimiter character then Some character else None }
    {
        if ' ' <= character && character <= '~' {
            Some(Delimiter { character })
        } else {
            None
        }
    }
}
