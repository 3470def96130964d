//! Worked examples of words, as a function that does nothing.
ghost use Rattle.std.specs.Prelude.{◌≡◌, Ok, Err, codes};
ghost use Rattle.module_words.specs.subcommands.Meanings.{meaning, near, no_option, several, unknown};
ghost use Rattle.module_words.specs.declared.subcommands.table.Subcommand.TheVariants as subcommands;

/// What some words mean, or why they mean nothing.
pub fn words_mean()
    ensures beginning { meaning (codes "av") ≡ Ok subcommands.Avail }
    ensures both_names { meaning (codes "sw") ≡ Ok subcommands.Switch }
    ensures whole { meaning (codes "save") ≡ Ok subcommands.Save }
    ensures shared { meaning (codes "sa") ≡ Err (several (codes "sa")) }
    ensures exchanged { meaning (codes "laod") ≡ Err (near (codes "load")) }
    ensures left_out { meaning (codes "avil") ≡ Err (near (codes "avail")) }
    ensures another { meaning (codes "purga") ≡ Err (near (codes "purge")) }
    ensures option { meaning (codes "--force") ≡ Err (no_option (codes "--force")) }
    ensures nothing { meaning (codes "spider") ≡ Err (unknown (codes "spider")) }
{}
