//! What default files name as their versions, by their evaluation as Tcl.
ghost use Rattle.std.specs.Prelude.{◌≡◌, ◌∷◌, [], codes, IfOk, option_map, string_bytes};
ghost use Rattle.tclrules.specs.Promise.{texts_of, is_out_of_memory};
ghost use Rattle.tclrules.specs.Variables.{lookup};

use crate::host::DefaultHost;
use search::{DefaultFileEnding, DefaultFiles};
use std::alloc::{AllocError, Global};
use tcleval::evaluate;
use tclrules::{EvalFault, Limits};

/// Evaluates default files within these limits. Each file has the whole of them.
#[derive(Clone, Copy)]
pub struct EvaluatedDefaultFiles {
    pub limits: Limits,
}

/// The global variables of a default file at its beginning: `ModulesCurrentModulefile` is its path.
fn globals_at(alloc: Global, path: &str) -> Result<Vec<(String, String)>, AllocError>
    ensures { IfOk result (λ globals.
        texts_of globals.items ≡ (codes "ModulesCurrentModulefile", path.now) ∷ []) }
{
    let mut globals = Vec::new(alloc);
    globals.push((
        String::from_str(alloc, "ModulesCurrentModulefile")?,
        String::from_str(alloc, path)?,
    ))?;
    Ok(globals)
}

/// The value of a global variable, copied; none where it is unset.
fn value_of(
    alloc: Global,
    globals: &[(String, String)],
    name: &str,
) -> Result<Option<String>, AllocError>
    ensures { IfOk result (λ value. option_map string_bytes value ≡ lookup (texts_of globals.now) name.now) }
{
    for (key, value) in globals {
        if name == key.as_str() {
            return Ok(Some(String::from_str(alloc, value.as_str())?));
        }
    }
    Ok(None)
}

/// Whether memory ran out. Any other fault is the file's own, and it names nothing then.
fn is_out_of_memory(fault: &EvalFault) -> bool
    ensures { result ≡ is_out_of_memory fault.now }
{
    match fault {
        EvalFault::OutOfMemory => true,
        _ => false,
    }
}

impl DefaultFiles for EvaluatedDefaultFiles {
    ghost use Rattle.lookup.specs.DefaultFileResults.{HasResult};
    ghost use Rattle.lookup.specs.OneResult.{one_result};

    ghost results = { λ e. HasResult e.limits };

    ghost one = { λ e. one_result e.limits };

    fn evaluate(
        &self,
        alloc: Global,
        path: &str,
        text: &str,
    ) -> Result<Option<DefaultFileEnding>, AllocError> {
        let mut host = DefaultHost {
            alloc,
            commands: Vec::new(alloc),
            asked: Vec::new(alloc),
            refused: None,
        };
        let globals = globals_at(alloc, path)?;
        match evaluate(alloc, text, globals, &mut host, self.limits) {
            Ok(evaluation) => {
                let version = value_of(alloc, &evaluation.globals, "ModulesVersion")?;
                Ok(Some(DefaultFileEnding {
                    commands: host.commands,
                    version,
                }))
            }
            Err(fault) => {
                if is_out_of_memory(&fault) {
                    return Err(AllocError);
                }
                Ok(None)
            }
        }
    }
}
