//! What a core command asks for: its form.
ghost use Rattle.std.specs.Prelude.{◌≡◌, map, string_bytes};

/// The form of a core command with its operands. Scripts and expressions in it are texts, which are parsed when they
/// are evaluated.
#[derive(Drop)]
pub enum Form<'a> {
    /// A command that evaluates no script.
    Simple(SimpleForm<'a>),
    /// `expr a...`
    Express(&'a [String]),
    /// `if`: conditions with their bodies, and the last body.
    If(Vec<(&'a str, &'a str)>, Option<&'a str>),
    /// `while c b`
    While(WhileLoop<'a>),
    /// `for s c n b`
    For(ForLoop<'a>),
    /// `foreach`: names with their lists, and the body.
    Foreach(Vec<(&'a str, &'a str)>, &'a str),
    /// `switch`: how patterns are compared, the text, and the patterns with their bodies.
    Switch(Comparison, &'a str, Patterns<'a>),
    /// `catch s v`
    Catch(&'a str, Option<&'a str>),
}

/// The texts of while(n).
#[derive(Clone, Copy)]
pub struct WhileLoop<'a> {
    /// The condition, an expression.
    pub condition: &'a str,
    /// The script of a turn.
    pub body: &'a str,
}

/// The texts of for(n).
#[derive(Clone, Copy)]
pub struct ForLoop<'a> {
    /// The script before the first turn.
    pub start: &'a str,
    /// The condition, an expression.
    pub condition: &'a str,
    /// The script between two turns.
    pub next: &'a str,
    /// The script of a turn.
    pub body: &'a str,
}

/// How switch(n) compares its text with a pattern.
#[derive(Clone, Copy)]
pub enum Comparison {
    /// As they are (`-exact`).
    Exact,
    /// By the rules of glob patterns (`-glob`).
    Glob,
}

/// What unset(n) makes of a variable that isn't set.
#[derive(Clone, Copy)]
pub enum WhenMissing {
    /// Nothing (`-nocomplain`).
    Ignored,
    /// An error.
    IsError,
}

/// The form of a core command that evaluates no script.
#[derive(Clone, Copy)]
pub enum SimpleForm<'a> {
    /// `set v`
    Get(&'a str),
    /// `set v x`
    Set(&'a str, &'a str),
    /// `unset v...`, with or without `-nocomplain`.
    Unset(WhenMissing, &'a [String]),
    /// `append v x...`
    Append(&'a str, &'a [String]),
    /// `lappend v x...`
    ListAppend(&'a str, &'a [String]),
    /// `incr v n...`; the number of words is judged after the variable.
    Increase(&'a str, &'a [String]),
    /// `proc n args b`
    Define(&'a str, &'a str, &'a str),
    /// `return x`
    Return(&'a str),
    /// `break`
    Break,
    /// `continue`
    Continue,
    /// `exit`
    Exit,
    /// `error m`
    Error(&'a str),
    /// `info exists v`
    Exists(&'a str),
    /// `global v...`
    Global(&'a [String]),
    /// `puts`, with all its words, which the host is given.
    Put(&'a [String]),
}

/// The patterns and bodies of a switch, by turns.
#[derive(Drop)]
pub enum Patterns<'a> {
    /// Words of the command.
    Words(&'a [String]),
    /// The elements of the one list.
    Elements(Vec<String>),
}

impl Patterns<'_> {
    ghost use Rattle.tclforms.specs.Views.{pattern_texts};

    /// The patterns and bodies by turns, wherever they are held.
    pub fn as_slice(&self) -> &[String]
        ensures { map string_bytes result.now ≡ pattern_texts self.entry.now }
    {
        match self {
            Patterns::Words(words) => words,
            Patterns::Elements(elements) => elements.as_slice(),
        }
    }
}
