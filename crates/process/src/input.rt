//! Reading the whole text of an input, up to a limit.
ghost use Rattle.std.specs.Prelude.{◌≡◌, ◌≤◌, ◌+◌, length, Some, IfOk, IfErr, string_bytes};
ghost use Rattle.std.specs.Io.KnownBytes.{Consumes, IsAtEnd};
ghost use Rattle.message.specs.Refusals.{numbered_text};
ghost use Rattle.process.specs.Faults.{refusal_of};
ghost use Rattle.process.specs.Inputs.{input_limit, FailsAfterReading, IsTextOf, ReadsAll};
ghost use Rattle.process.specs.declared.input.InputFault.TheVariants.{OutOfMemory};

use message::{NumberedMessage, RefusalKind};
use std::alloc::{AllocError, Global};
use std::error::Error;
use std::fmt;
use std::fmt::Display;
use std::io::Read;

/// The most bytes that an input may have.
const INPUT_LIMIT: usize = 1_048_576;

/// How many bytes one read asks for.
const READ_LENGTH: usize = 4096;

/// Why the arguments or an input have no text.
#[derive(Clone, Copy, Debug, PartialEq, Eq)]
pub enum InputFault {
    /// An allocation was refused.
    OutOfMemory,
    /// A read failed, or was interrupted.
    ReadFailed,
    /// An input has more than 1,048,576 bytes, or it or an argument isn't UTF-8.
    BadInput,
}

impl InputFault {
    /// The number of the error as a refusal, and its text.
    pub fn numbered(&self) -> NumberedMessage<'static>
        ensures { numbered_text result ≡ refusal_of self.now }
    {
        match self {
            InputFault::OutOfMemory => RefusalKind::MemoryForRequest.plain(),
            InputFault::ReadFailed => RefusalKind::Device.plain(),
            InputFault::BadInput => RefusalKind::BadArguments.plain(),
        }
    }

    /// The number of the error as a refusal: 31 for want of memory, 43 for a read that failed, else 56.
    pub fn number(&self) -> u16
        ensures { result ≡ (refusal_of self.now).number }
    {
        self.numbered().number
    }
}

impl fmt::Display for InputFault {
    ghost output = { λ fault. Some (refusal_of fault).text };

    fn fmt<W: fmt::Write>(&self, f: &mut fmt::Formatter<W>) -> fmt::Result {
        self.numbered().message.fmt(f)
    }
}

impl Error for InputFault {}

impl From<AllocError> for InputFault {
    ghost from_gives = { λ _ e. e ≡ OutOfMemory };

    fn from(_e: AllocError) -> InputFault {
        InputFault::OutOfMemory
    }
}

/// The bytes of a reader, up to its end or to one byte more than an input may have.
fn read_bytes<R: Read>(alloc: Global, input: &mut R) -> Result<Vec<u8>, InputFault>
    ensures taken { IfOk result (λ bytes. Consumes (R.remaining input.old) (R.remaining input.new) bytes.items) }
    ensures within { IfOk result (λ bytes. length bytes.items ≤ input_limit + 1) }
    ensures all { IfOk result (λ bytes. length bytes.items ≤ input_limit → IsAtEnd (R.remaining input.new)) }
    ensures failed { IfErr result (λ fault. FailsAfterReading fault (R.remaining input.old) (R.remaining input.new)) }
{
    let mut bytes = Vec::new(alloc);
    let mut piece = [0; READ_LENGTH];
    while bytes.len() <= INPUT_LIMIT {
        let room = (INPUT_LIMIT + 1 - bytes.len()).min(READ_LENGTH);
        match input.read(&mut piece[..room]) {
            Ok(0) => return Ok(bytes),
            Ok(n) => bytes.extend_from_slice(&piece[..n])?,
            Err(_) => return Err(InputFault::ReadFailed),
        }
    }
    Ok(bytes)
}

/// The text of an input, of which these bytes were read: all, or one more than it may have.
fn text_of_bytes(bytes: Vec<u8>) -> Result<String, InputFault>
    ensures { IsTextOf bytes.items result }
{
    if bytes.len() > INPUT_LIMIT {
        return Err(InputFault::BadInput);
    }
    match String::from_utf8(bytes) {
        Ok(text) => Ok(text),
        Err(_) => Err(InputFault::BadInput),
    }
}

/// The whole text of an input. At most one byte more is read than an input may have.
///
/// The errors: `OutOfMemory`; `ReadFailed` where a read failed or was interrupted; `BadInput` where the input has more
/// than 1,048,576 bytes or isn't UTF-8.
pub fn read_input<R: Read>(alloc: Global, input: &mut R) -> Result<String, InputFault>
    ensures given { IfOk result (λ text.
        ReadsAll (R.remaining input.old) (R.remaining input.new) (string_bytes text)) }
    ensures within { IfOk result (λ text. length (string_bytes text) ≤ input_limit) }
    ensures failed { IfErr result (λ fault. FailsAfterReading fault (R.remaining input.old) (R.remaining input.new)) }
{
    let bytes = read_bytes(alloc, input)?;
    text_of_bytes(bytes)
}
