//! What is said behind the refusal of words that mean nothing.
ghost use Rattle.std.specs.Prelude.{◌≡◌};
ghost use Rattle.std.specs.Option.{option_map};
ghost use Rattle.module_words.specs.function.Advice as spec;
ghost use Rattle.module_words.specs.function.Faults.{reason_of};

use crate::function::FunctionFault;
use crate::subcommands::{WordFault, elsewhere, option_elsewhere};

/// A sentence for a word that means no subcommand, or no option: what does here what it does elsewhere, or where the
/// subcommands and the options are listed. Other refusals have none.
pub fn advice_on(fault: &FunctionFault<'_>) -> Option<&'static str>
    ensures { option_map (λ t. t.now) result ≡ spec.advice_on (reason_of fault.now) }
{
    match fault {
        FunctionFault::Word(WordFault::Unknown(word)) => Some(elsewhere(word)),
        FunctionFault::Word(WordFault::NoOption(word)) => Some(option_elsewhere(word)),
        _ => None,
    }
}
