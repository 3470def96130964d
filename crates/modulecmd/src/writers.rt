//! Writes bytes and error lines until a write fails, and without memory.
ghost use Rattle.std.specs.Prelude.{OnOk, OnErr, string_bytes};
ghost use Rattle.std.specs.List.{flat_map};
ghost use Rattle.std.specs.Io.KnownBytes.{Appends};
ghost use Rattle.message.specs.Messages.{around};
ghost use Rattle.modulecmd.specs.Lines.{error_line};
ghost use Rattle.modulecmd.specs.Writing.{AppendsPart};

use std::io::Write;

/// A write failed.
#[derive(Clone, Copy, Debug, PartialEq, Eq)]
pub struct WriteFault;

/// Writes the bytes until a write fails: one that answers 0, or any error, an interrupted one too. Then the first part
/// of the bytes is written, not all of them.
pub fn write_bytes<W: Write>(to: &mut W, bytes: &[u8]) -> Result<(), WriteFault>
    ensures whole { OnOk result (Appends (W.contents to.old) (W.contents to.new) bytes.now) }
    ensures cut { OnErr result (AppendsPart (W.contents to.old) (W.contents to.new) bytes.now) }
{
    let mut done = 0;
    while done < bytes.len() {
        match to.write(&bytes[done..]) {
            Ok(0) => return Err(WriteFault),
            Ok(n) => done += n,
            Err(_) => return Err(WriteFault),
        }
    }
    Ok(())
}

/// Writes the parts one after another, without memory, until a write fails. Then the first part of them is written, not
/// all.
fn write_parts<W: Write>(to: &mut W, parts: &[&str]) -> Result<(), WriteFault>
    ensures whole { OnOk result (Appends (W.contents to.old) (W.contents to.new)
        (flat_map (λ part. part.now) parts.now)) }
    ensures cut { OnErr result (AppendsPart (W.contents to.old) (W.contents to.new)
        (flat_map (λ part. part.now) parts.now)) }
{
    for part in parts {
        write_bytes(to, part.as_bytes())?;
    }
    Ok(())
}

/// Writes the texts one after another, as `write_parts` does.
pub(crate) fn write_texts<W: Write>(to: &mut W, texts: &[String]) -> Result<(), WriteFault>
    ensures whole { OnOk result (Appends (W.contents to.old) (W.contents to.new)
        (flat_map (λ text. string_bytes text) texts.now)) }
    ensures cut { OnErr result (AppendsPart (W.contents to.old) (W.contents to.new)
        (flat_map (λ text. string_bytes text) texts.now)) }
{
    for text in texts {
        write_bytes(to, text.as_str().as_bytes())?;
    }
    Ok(())
}

/// Writes an error line of these parts, as a message has them: `ERROR: `, the five texts one after another, and a newline.
/// It is tried once: a write that fails ends it. Then the first part of the line is written, not all.
pub fn write_line<'a, E: Write>(
    before: &'a str,
    left: &'a str,
    subject: &'a str,
    right: &'a str,
    after: &'a str,
    err: &mut E,
) -> Result<(), WriteFault>
    ensures whole { OnOk result (Appends (E.contents err.old) (E.contents err.new)
        (error_line (around before.now (around left.now subject.now right.now) after.now))) }
    ensures cut { OnErr result (AppendsPart (E.contents err.old) (E.contents err.new)
        (error_line (around before.now (around left.now subject.now right.now) after.now))) }
{
    write_parts(err, &["ERROR: ", before, left, subject, right, after, "\n"])
}
