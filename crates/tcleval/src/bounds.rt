//! How far an evaluation may go on inside of a script.
ghost use Rattle.std.specs.Prelude.{◌≡◌, ◌<◌, ◌-◌, MatchResult};
ghost use Rattle.tclforms.specs.declared.substitution.stop.Stop.TheVariants.{Fault};
ghost use Rattle.tclrules.specs.declared.outcome.EvalFault.TheVariants.{TooDeep};

use tclforms::substitution::Stop;
use tclrules::{EvalFault, Limits};

/// How far an evaluation may go on: the limits of the whole, and how many scripts may still begin inside this one.
#[derive(Clone, Copy)]
pub struct Bounds {
    /// The limits of the whole evaluation.
    pub limits: Limits,
    /// How many scripts may still begin inside this one.
    pub remaining: u32,
}

impl Bounds {
    /// The bounds inside of a script that begins here.
    ///
    /// Errors: the halt `TooDeep`, where no script may begin.
    pub fn inside(self) -> Result<Bounds, Stop>
        ensures { MatchResult result
            (λ inside. (0 < self.remaining) × (inside ≡ record self { remaining = self.remaining - 1 }))
            (λ stop. (self.remaining ≡ 0) × (stop ≡ Fault TooDeep)) }
    {
        if self.remaining == 0 {
            return Err(Stop::Fault(EvalFault::TooDeep));
        }
        Ok(Bounds {
            limits: self.limits,
            remaining: self.remaining - 1,
        })
    }
}
