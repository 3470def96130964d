//! Theorems of the commands of values.
ghost use Rattle.tclvalue.specs.Globs.{DecidesMatch};

/// `string match` answers 1 exactly where the text matches the pattern.
pub fn string_match()
    ensures { DecidesMatch }
{}
