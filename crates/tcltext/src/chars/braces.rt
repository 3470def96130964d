//! The brace that closes an open one (Tcl(n), rule 6).
ghost use Rattle.std.specs.Prelude.{◌≡◌, ◌<◌, false, option_map};
ghost use Rattle.tcltext.specs.chars.Braces.{brace_step, braced_at};

/// What one byte inside braces does: whether the next byte is escaped, and how many braces are then open inside. None
/// where the byte closes the outer brace.
fn brace_step(escaped: bool, depth: usize, b: u8) -> Option<(bool, usize)>
    requires { depth < usize.MAX }
    ensures { result ≡ brace_step escaped depth b }
{
    if escaped {
        return Some((false, depth));
    }
    match b {
        b'\\' => Some((true, depth)),
        b'{' => Some((false, depth + 1)),
        b'}' => {
            if depth == 0 {
                None
            } else {
                Some((false, depth - 1))
            }
        }
        _ => Some((false, depth)),
    }
}

/// The text before the brace that closes, and the text after it, of a text that follows an opening brace. None where no
/// brace closes it. Takes no memory.
pub fn split_close(text: &str) -> Option<(&str, &str)>
    ensures { option_map (λ p. (p.0.now, p.1.now)) result ≡ braced_at false 0 text.now }
{
    let bytes = text.as_bytes();
    let mut escaped = false;
    let mut depth = 0usize;
    for (i, b) in bytes.iter().enumerate() {
        match brace_step(escaped, depth, *b) {
            None => {
                let (inner, rest) = text.split_at(i);
                return Some((inner, rest.split_at(1).1));
            }
            Some((next, open)) => {
                escaped = next;
                depth = open;
            }
        }
    }
    None
}
