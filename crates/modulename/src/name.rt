//! How the name of a module is spelled, and which modules a name means (modulefile(5), module(1)).
ghost use Rattle.std.specs.Prelude.{◌≡◌, ◌∷◌, ◌<◌, ℕ, List, false, MatchOption, IfSome};
ghost use Rattle.modulename.specs.ModuleName.{is_white_space, is_forbidden, is_module_name, means};
ghost use Rattle.modulename.specs.Spelled.{goes_on};

/// The most parts that a name has.
pub const MAX_PARTS: usize = 4;

/// Whether the byte is white space of ASCII.
fn is_white_space(b: u8) -> bool
    ensures { result ≡ is_white_space b }
{
    b == b' ' || (9 <= b && b <= 13)
}

/// Whether no name holds the byte: NUL, white space, or one of `: & | \ @`.
fn is_forbidden(b: u8) -> bool
    ensures { result ≡ is_forbidden b }
{
    b == 0 || is_white_space(b) || b == b':' || b == b'&' || b == b'|' || b == b'\\' || b == b'@'
}

/// How far a name is spelled.
#[derive(Clone, Copy)]
pub(crate) struct Spelling {
    /// Whether a part begins next.
    begins: bool,
    /// How many parts are allowed from the one on that is being spelled.
    parts: usize,
}

impl Spelling {
    /// How far a name is spelled with this byte, or `None` where no name goes on so.
    fn with(self, b: u8) -> Option<Spelling>
        requires { 0 < self.parts }
        ensures next { MatchOption result ((rest : List ℕ) → goes_on self.begins self.parts (b ∷ rest) ≡ false)
            (λ next. (rest : List ℕ) → goes_on self.begins self.parts (b ∷ rest)
            ≡ goes_on next.begins next.parts rest) }
        ensures parts { IfSome result (λ next. 0 < next.parts) }
    {
        if b == b'/' {
            if self.begins || self.parts == 1 {
                return None;
            }
            return Some(Spelling {
                begins: true,
                parts: self.parts - 1,
            });
        }
        if is_forbidden(b) || (self.begins && b == b'.') {
            return None;
        }
        Some(Spelling {
            begins: false,
            parts: self.parts,
        })
    }
}

/// Whether the text is spelled as the name of a module: one to four parts joined by `/`, none of them empty or
/// beginning with a point, and no NUL, no white space and none of `: & | \ @` in it.
pub fn is_module_name(name: &str) -> bool
    ensures { result ≡ is_module_name name.now }
{
    let mut spelling = Spelling {
        begins: true,
        parts: MAX_PARTS,
    };
    for b in name.as_bytes() {
        let Some(next) = spelling.with(*b) else {
            return false;
        };
        spelling = next;
    }
    !spelling.begins
}

/// Whether the name means this module: it is the whole name of the module, or its first parts.
pub fn means(name: &str, full_name: &str) -> bool
    ensures { result ≡ means name.now full_name.now }
{
    match full_name.as_bytes().strip_prefix(name.as_bytes()) {
        Some([]) => true,
        Some([next, ..]) => *next == b'/',
        None => false,
    }
}
