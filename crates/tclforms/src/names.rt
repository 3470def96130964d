//! The names of commands that are reserved: no procedure may have them.
ghost use Rattle.std.specs.Prelude.{◌≡◌, map};
ghost use Rattle.tclrules.specs.Names.{is_among, is_reserved, core_commands, unsupported_commands};

use tclvalue::is_value_command;

/// Commands of Tcl that are unsupported.
const UNSUPPORTED: [&str; 57] = [
    "after",
    "apply",
    "array",
    "binary",
    "cd",
    "chan",
    "clock",
    "close",
    "dict",
    "encoding",
    "eof",
    "eval",
    "exec",
    "fconfigure",
    "file",
    "fileevent",
    "flush",
    "format",
    "gets",
    "glob",
    "interp",
    "lassign",
    "linsert",
    "load",
    "lrepeat",
    "lreplace",
    "lreverse",
    "lsearch",
    "lset",
    "lsort",
    "namespace",
    "open",
    "package",
    "pid",
    "pwd",
    "read",
    "regexp",
    "regsub",
    "rename",
    "scan",
    "seek",
    "socket",
    "source",
    "subst",
    "tailcall",
    "tell",
    "throw",
    "time",
    "trace",
    "try",
    "unknown",
    "unload",
    "update",
    "uplevel",
    "upvar",
    "variable",
    "vwait",
];

/// The core commands but those of values, which tclvalue computes.
const CORE: [&str; 21] = [
    "set", "unset", "append", "lappend", "incr", "expr", "if", "while", "for", "foreach", "switch",
    "proc", "return", "break", "continue", "exit", "error", "catch", "info", "global", "puts",
];

/// Whether a name is one of these.
pub fn is_in(names: &[&str], name: &str) -> bool
    ensures { result ≡ is_among (map (λ n. n.now) names.now) name.now }
{
    names.iter().any(|known| name == *known)
}

/// Whether Tcl has a command of this name that is unsupported.
#[tactic(auto, unfolding(tclrules::specs::Names::unsupported_commands))]
pub fn is_unsupported(name: &str) -> bool
    ensures { result ≡ is_among unsupported_commands name.now }
{
    is_in(&UNSUPPORTED, name)
}

/// Whether a core command has this name that is none of values.
#[tactic(auto, unfolding(tclrules::specs::Names::core_commands))]
fn is_core(name: &str) -> bool
    ensures { result ≡ is_among core_commands name.now }
{
    is_in(&CORE, name)
}

/// Whether no procedure may have this name: that of any command of Tcl, supported or not, or one that the host reserves.
pub fn is_reserved(of_host: &[&str], name: &str) -> bool
    ensures { result ≡ is_reserved (map (λ n. n.now) of_host.now) name.now }
{
    is_core(name) || is_value_command(name) || is_unsupported(name) || is_in(of_host, name)
}
