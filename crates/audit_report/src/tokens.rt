//! Parts of the document, written a token at a time: texts, and uses of variables.
ghost use Rattle.std.specs.Prelude.{◌≡◌, [], ◌∷◌, ◌++◌, codes, flat_map, OnOk, IfOk, string_bytes};
ghost use Rattle.json.specs.Token.{key, string};
ghost use Rattle.json.specs.Tree.{json_tokens};
ghost use Rattle.audit_report.specs.Documents as spec;
ghost use Rattle.audit_report.specs.Tokens.{AddsTokens, field_tokens, fields_tokens};

use audit_certificate::{UsedVariable, VariableUse};
use json::Writer;
use modulefile::Delimiter;
use std::alloc::{AllocError, Global};

/// Writes a member that is a text.
pub(crate) fn write_text(writer: &mut Writer, name: &str, text: &str) -> Result<(), AllocError>
    ensures { OnOk result (AddsTokens writer.old writer.new (key name.now ∷ string text.now ∷ [])) }
{
    writer.key(name)?;
    writer.string(text)
}

/// Writes the texts as an array.
fn write_texts(writer: &mut Writer, texts: &[String]) -> Result<(), AllocError>
    ensures { OnOk result (AddsTokens writer.old writer.new
        (flat_map (λ text. json_tokens (spec.text_value text)) texts.now)) }
{
    for text in texts {
        writer.string(text.as_str())?;
    }
    Ok(())
}

/// Writes a member that is an array of texts.
pub(crate) fn write_text_array(
    writer: &mut Writer,
    name: &str,
    texts: &[String],
) -> Result<(), AllocError>
    ensures { OnOk result (AddsTokens writer.old writer.new (field_tokens (spec.texts_field name.now texts.now))) }
{
    writer.key(name)?;
    writer.begin_array()?;
    write_texts(writer, texts)?;
    writer.end_array()
}

/// Writes the delimiter of a path as a member.
fn write_delimiter(alloc: Global, writer: &mut Writer, delim: Delimiter) -> Result<(), AllocError>
    ensures { OnOk result (AddsTokens writer.old writer.new
        (key (codes "delimiter") ∷ string (delim.character ∷ []) ∷ [])) }
{
    let mut text = String::new(alloc);
    text.push(delim.character)?;
    write_text(writer, "delimiter", text.as_str())
}

/// Writes a use as a path with this delimiter, as members.
pub(crate) fn write_path_fields(
    alloc: Global,
    writer: &mut Writer,
    delim: Delimiter,
) -> Result<(), AllocError>
    ensures { OnOk result (AddsTokens writer.old writer.new (fields_tokens (spec.path_fields delim))) }
{
    write_text(writer, "use", "path")?;
    write_delimiter(alloc, writer, delim)
}

/// Writes a use of a variable as members.
fn write_use_fields(
    alloc: Global,
    writer: &mut Writer,
    used: &VariableUse,
) -> Result<(), AllocError>
    ensures { OnOk result (AddsTokens writer.old writer.new (fields_tokens (spec.use_fields used.now))) }
{
    match used {
        VariableUse::Fixed(None) => write_text(writer, "use", "set"),
        VariableUse::Fixed(Some(value)) => {
            write_text(writer, "use", "unset")?;
            write_text(writer, "value", value.as_str())
        }
        VariableUse::Absent => write_text(writer, "use", "unset"),
        VariableUse::Pathed(delim) => write_path_fields(alloc, writer, *delim),
        VariableUse::Stacked => write_text(writer, "use", "stack"),
        VariableUse::Read => write_text(writer, "use", "read"),
    }
}

/// Writes a use of a variable as an object.
pub(crate) fn write_use(
    alloc: Global,
    writer: &mut Writer,
    used: &VariableUse,
) -> Result<(), AllocError>
    ensures { OnOk result (AddsTokens writer.old writer.new (json_tokens (spec.use_value used.now))) }
{
    writer.begin_object()?;
    write_use_fields(alloc, writer, used)?;
    writer.end_object()
}

/// Writes a variable with its use as an object.
fn write_used(alloc: Global, writer: &mut Writer, used: &UsedVariable) -> Result<(), AllocError>
    ensures { OnOk result (AddsTokens writer.old writer.new (json_tokens (spec.used_value used.now))) }
{
    writer.begin_object()?;
    write_text(writer, "variable", used.variable.as_str())?;
    write_use_fields(alloc, writer, &used.used)?;
    writer.end_object()
}

/// Writes variables with their uses, one after another.
pub(crate) fn write_all_used(
    alloc: Global,
    writer: &mut Writer,
    certificate: &[UsedVariable],
) -> Result<(), AllocError>
    ensures { OnOk result (AddsTokens writer.old writer.new
        (flat_map (λ p. json_tokens (spec.used_value p)) certificate.now)) }
{
    for used in certificate {
        write_used(alloc, writer, used)?;
    }
    Ok(())
}
