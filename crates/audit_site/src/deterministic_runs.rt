//! Which evaluations are those of deterministic modules: each of their questions has a stable answer, and after what
//! they leave the start can be back.
ghost use Rattle.std.specs.Prelude.{◌≡◌};
ghost use Rattle.audit_site.specs.DeterministicRuns.{is_deterministic_file, is_deterministic_outcome};

use crate::walk::{EvaluatedFile, Evaluation};
use audit_laws::determinism::all_can_return;

/// Whether a file whose evaluations show this is that of a deterministic module.
fn is_deterministic(file: &EvaluatedFile) -> bool
    ensures { result ≡ is_deterministic_file file.now }
{
    file.unkept.is_none() && all_can_return(file.records.as_slice())
}

/// What the evaluations of a deterministic module show; `None` where the module isn't deterministic.
pub(crate) fn deterministic_file(evaluation: &Evaluation) -> Option<&EvaluatedFile>
    ensures { is_deterministic_outcome evaluation.entry.now.outcome result }
{
    match &evaluation.outcome {
        Ok(file) => {
            if is_deterministic(file) {
                Some(file)
            } else {
                None
            }
        }
        Err(_) => None,
    }
}
