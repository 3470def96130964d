//! A command of values by its words.
ghost use Rattle.std.specs.Prelude.{map, string_bytes};
ghost use Rattle.std.specs.Option.{option_map};
ghost use Rattle.message.specs.Answers.{Gives};
ghost use Rattle.tclvalue.specs.operators.Faults.{reason_of};
ghost use Rattle.tclvalue.specs.Commands.{command_value};

use crate::list_commands::value_of;
use crate::names::command_named;
use crate::operators::ValueFault;
use std::alloc::Global;

/// The answer of `list`, `llength`, `lindex`, `lrange`, `split`, `join`, `concat` or `string` to its words, of which
/// the first names it; None for another first word, and for no word. Characters are Unicode code points. An index is a
/// whole number counted from 0, `end` or `end-N`.
///
/// Errors: `LeftOut` for a subcommand of `string`, and for an option, that is unsupported. Then `TclError` for a wrong
/// number of words. Then the fault of the leftmost faulty word: `TclError` for what is no list, no index or no count,
/// `Text` for a list that is too long, `NumberTooLarge`, `FractionOperand`. Then `ValueTooLong` for an answer of more
/// bytes than the limit. `OutOfMemory` comes where memory runs out.
pub fn value_command(
    alloc: Global,
    words: &[String],
    value_bytes: usize,
) -> Result<Option<String>, ValueFault>
    ensures { Gives reason_of (option_map string_bytes) result
        (command_value (map string_bytes words.now) value_bytes) }
{
    let [name, rest @ ..] = words else {
        return Ok(None);
    };
    match command_named(name) {
        Some(command) => value_of(alloc, command, rest, value_bytes).map(Some),
        None => Ok(None),
    }
}
