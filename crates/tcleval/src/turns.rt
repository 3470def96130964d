//! The beginning of a turn of foreach(n), which gives its variables their items.
ghost use Rattle.std.specs.Prelude.{◌≡◌, ℕ, OnOk};
ghost use Rattle.tclrules.specs.Simulates.{Simulates, Point};
ghost use Rattle.tclrules.specs.Variables.{State};
ghost use Rattle.tclrules.specs.Plans as plans;
ghost use Rattle.tclrules.specs.Plans.{Job};
ghost use Rattle.tclrules.specs.Rules.{assign, turn_pairs, shortened};
ghost use Rattle.tclforms.specs.substitution.Machine.{bounds};
ghost use Rattle.tclforms.specs.substitution.Stops.{after};

use std::alloc::Global;
use tclcommands::assign;
use tclforms::Loops;
use tclforms::substitution::Stop;
use tclforms::variables::Variables;
use tclrules::Limits;

/// Gives the variables of a turn the next items of their lists; a list that is used up gives empty texts.
fn assign_items(
    alloc: Global,
    variables: &mut Variables,
    limits: Limits,
    loops: &Loops,
) -> Result<(), Stop>
    ensures { (most remaining : ℕ) (r : Job → plans.Step) (k : State → plans.Step) (x : Point) → Simulates most r
        (assign (bounds limits.value_bytes remaining) (turn_pairs loops.now) variables.old k) x
        (after result (λ _ s. k s) variables.new) x }
{
    let pairs = loops.turn_pairs(alloc)?;
    assign(alloc, variables, limits.value_bytes, pairs)
}

/// Gives the variables of a turn the next items of their lists, and steps past these items.
///
/// Errors: as of `tclcommands::assign`; then the items remain.
pub(crate) fn begin_turn(
    alloc: Global,
    variables: &mut Variables,
    limits: Limits,
    loops: &mut Loops,
) -> Result<(), Stop>
    ensures evaluates_to { (most remaining : ℕ) (r : Job → plans.Step) (k : State → plans.Step) (x : Point)
        → Simulates most r
        (assign (bounds limits.value_bytes remaining) (turn_pairs loops.old) variables.old k) x
        (after result (λ _ s. k s) variables.new) x }
    ensures rest { OnOk result (loops.new ≡ shortened loops.old) }
{
    assign_items(alloc, variables, limits, loops)?;
    loops.shorten();
    Ok(())
}
