//! Laws of texts for shells: what a shell that runs them has then. Each is a function that does nothing: its contract
//! is the law, about the definitions alone.
ghost use Rattle.shelltext.specs.Reading.{OneReading, OneEffect, DifferenceMakes};
ghost use Rattle.shelltext.specs.Sequences.{OneEffectTogether, DifferencesMake};

/// A text says at most one list of changes.
pub fn one_reading()
    ensures { OneReading }
{}

/// A text turns an environment into one environment.
pub fn one_effect()
    ensures { OneEffect }
{}

/// A text that says the difference of two environments turns the first into the second.
pub fn difference_makes()
    ensures { DifferenceMakes }
{
    envvars::laws::changes();
}

/// Texts that are run one after the other turn an environment into one environment.
pub fn one_effect_together()
    ensures { OneEffectTogether }
{
    one_effect();
}

/// Where each text says the difference between the environment before it and the next one, shells that run the texts
/// one after the other have the last environment in the end.
pub fn differences_make()
    ensures { DifferencesMake }
{
    difference_makes();
}
