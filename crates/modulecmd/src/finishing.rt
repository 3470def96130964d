//! Writes an answer, or the line that says why there is none.
ghost use Rattle.std.specs.Prelude.{◌⊎◌, ◌++◌, [], OnOk, OnErr, string_bytes};
ghost use Rattle.std.specs.List.{flat_map};
ghost use Rattle.std.specs.Io.KnownBytes.{Keeps, Appends};
ghost use Rattle.modulecmd.specs.Output.{FinishesWriting, WritesFault};
ghost use Rattle.modulecmd.specs.Writing.{AppendsPart};

use crate::command_exit::Exit;
use crate::command_fault::{CommandFault, write_refusal};
use crate::writers::{WriteFault, write_bytes, write_texts};
use std::io::Write;

/// Writes the line that says why a command is refused.
pub(crate) fn report_fault<E: Write>(fault: &CommandFault, err: &mut E) -> Exit
    ensures { WritesFault result (E.contents err.old) (E.contents err.new) [] fault.now }
{
    match write_refusal(fault, err) {
        Ok(()) => Exit::Reported,
        Err(WriteFault) => Exit::CutShort,
    }
}

/// Writes the messages and the report, and then the text, until a write fails; then not all is written.
fn write_answer<W: Write, E: Write>(
    messages: &[String],
    report: &str,
    text: &str,
    out: &mut W,
    err: &mut E,
) -> Result<(), WriteFault>
    ensures whole { let words = flat_map (λ m. string_bytes m) messages.now ++ report.now in
        OnOk result (Appends (W.contents out.old) (W.contents out.new) text.now
        × Appends (E.contents err.old) (E.contents err.new) words) }
    ensures cut { let words = flat_map (λ m. string_bytes m) messages.now ++ report.now in OnErr result (
        (Keeps (W.contents out.old) (W.contents out.new)
        × AppendsPart (E.contents err.old) (E.contents err.new) words)
        ⊎ (AppendsPart (W.contents out.old) (W.contents out.new) text.now
        × Appends (E.contents err.old) (E.contents err.new) words)) }
{
    write_texts(err, messages)?;
    write_bytes(err, report.as_bytes())?;
    write_bytes(out, text.as_bytes())
}

/// Writes an answer: messages and a report to standard error, and then a text to standard output. After a failed write
/// the line that says so is tried once.
pub(crate) fn finish<W: Write, E: Write>(
    messages: &[String],
    report: &str,
    text: &str,
    out: &mut W,
    err: &mut E,
) -> Exit
    ensures { FinishesWriting result (flat_map (λ m. string_bytes m) messages.now ++ report.now) text.now
        (W.contents out.old) (W.contents out.new) (E.contents err.old) (E.contents err.new) }
{
    if write_answer(messages, report, text, out, err).is_ok() {
        return Exit::Success;
    }
    report_fault(&CommandFault::WriteFailed, err)
}
