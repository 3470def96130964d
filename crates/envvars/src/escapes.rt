//! Fields that may hold colons: a colon or a backslash that is part of a field has a backslash before it. Stacks and
//! the counters of path variables are written so.
ghost use Rattle.std.specs.Prelude.{◌≡◌, ◌++◌, [], ◌∷◌, encode_utf8, string_bytes, true, false, IfOk, OnOk};
ghost use Rattle.std.specs.List.{list_any};
ghost use Rattle.envvars.specs.Texts.{Text, texts_in};
ghost use Rattle.envvars.specs.Escapes.{is_special, escaped, unescaped_fields};

use std::alloc::{AllocError, Global};
use std::mem;

/// A text that is being read, character by character.
#[derive(Drop)]
struct FieldReader {
    /// The fields that are complete.
    fields: Vec<String>,
    /// The field that is being read.
    field: String,
    /// Whether the last character was a backslash that escapes the next one.
    escapes: bool,
}

/// Whether a field has this character with a backslash before it.
fn is_special(c: char) -> bool
    ensures { result ≡ is_special c }
{
    c == '\\' || c == ':'
}

impl FieldReader {
    ghost use Rattle.envvars.specs.EscapeReading.{fields_with_rest};

    /// Reads the character after a backslash.
    fn read_escaped(&mut self, c: char) -> Result<(), AllocError>
        requires { self.old.escapes ≡ true }
        ensures { OnOk result ((rest : Text) → fields_with_rest self.new rest ≡ fields_with_rest self.old
            (encode_utf8 c ++ rest)) }
    {
        self.escapes = false;
        if is_special(c) {
            return self.field.push(c);
        }
        self.field.push('\\')?;
        self.field.push(c)
    }

    /// Completes the field that is being read.
    fn end_field(&mut self, alloc: Global) -> Result<(), AllocError>
        requires { self.old.escapes ≡ false }
        ensures { OnOk result ((rest : Text) → fields_with_rest self.new rest ≡ fields_with_rest self.old (58 ∷ rest)) }
    {
        let field = mem::replace(&mut self.field, String::new(alloc));
        self.fields.push(field)?;
        Ok(())
    }

    /// Reads the next character.
    fn read(&mut self, alloc: Global, c: char) -> Result<(), AllocError>
        ensures { OnOk result ((rest : Text) → fields_with_rest self.new rest ≡ fields_with_rest self.old
            (encode_utf8 c ++ rest)) }
    {
        if self.escapes {
            return self.read_escaped(c);
        }
        if c == ':' {
            return self.end_field(alloc);
        }
        if c == '\\' {
            self.escapes = true;
            return Ok(());
        }
        self.field.push(c)
    }

    /// The fields of a text that has been read to its end.
    fn finish(self) -> Result<Vec<String>, AllocError>
        ensures { IfOk result (λ v. texts_in v ≡ fields_with_rest self []) }
    {
        let FieldReader {
            mut fields,
            mut field,
            escapes,
        } = self;
        if escapes {
            field.push('\\')?;
        }
        fields.push(field)?;
        Ok(fields)
    }
}

/// The fields of a text, without their escapes. They are separated by the colons that no backslash escapes; a backslash
/// before another character, or at the end, stands for itself. The empty text has one empty field.
pub fn unescaped_fields(alloc: Global, text: &str) -> Result<Vec<String>, AllocError>
    ensures { IfOk result (λ v. texts_in v ≡ unescaped_fields text.now) }
{
    let mut reading = FieldReader {
        fields: Vec::new(alloc),
        field: String::new(alloc),
        escapes: false,
    };
    for c in text.chars() {
        reading.read(alloc, c)?;
    }
    reading.finish()
}

/// Appends a character, with a backslash before it where it needs one.
fn push_char(text: &mut String, c: char) -> Result<(), AllocError>
    ensures { OnOk result (string_bytes text.new ≡ string_bytes text.old ++ escaped (encode_utf8 c)) }
{
    if !is_special(c) {
        return text.push(c);
    }
    text.push('\\')?;
    text.push(c)
}

/// Whether a character of the text needs an escape. Most texts have none, and are then appended as they are.
fn has_special(text: &str) -> bool
    ensures { result ≡ list_any is_special text.now }
{
    text.as_bytes().iter().any(|b| *b == b'\\' || *b == b':')
}

/// Appends a field, or a part of one, with its escapes.
pub fn push_escaped(text: &mut String, part: &str) -> Result<(), AllocError>
    ensures { OnOk result (string_bytes text.new ≡ string_bytes text.old ++ escaped part.now) }
{
    if !has_special(part) {
        return text.push_str(part);
    }
    for c in part.chars() {
        push_char(text, c)?;
    }
    Ok(())
}
