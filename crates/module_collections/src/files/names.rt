//! The names of collections.
ghost use Rattle.std.specs.Prelude.{◌≡◌, not};
ghost use Rattle.std.specs.List.{list_any};
ghost use Rattle.module_collections.specs.files.Names as spec;

/// Whether no name has this byte: a slash, or a control character of ASCII.
fn is_barred(byte: u8) -> bool
    ensures { result ≡ spec.is_barred byte }
{
    byte == b'/' || byte < 32 || byte == 127
}

/// Whether no name begins with this byte.
fn is_barred_first(byte: u8) -> bool
    ensures { result ≡ spec.is_barred_first byte }
{
    byte == b'.' || byte == b'-'
}

/// Whether a byte of the text is one that no name has.
fn has_barred(text: &[u8]) -> bool
    ensures { result ≡ list_any spec.is_barred text.now }
{
    text.iter().any(|byte| is_barred(*byte))
}

/// Whether a collection can have this name: it isn't empty, has no slash and no control character, and doesn't begin
/// with a point or a hyphen.
pub fn is_collection_name(name: &str) -> bool
    ensures { result ≡ spec.is_collection_name name.now }
{
    match name.as_bytes() {
        [] => false,
        [first, ..] => !is_barred_first(*first) && !has_barred(name.as_bytes()),
    }
}
