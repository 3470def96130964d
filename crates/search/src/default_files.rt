//! The trait of evaluators of default files, and the result of such an evaluation.
ghost use Rattle.std.specs.Prelude.{◌≡◌, Option, IfOk, option_map};
ghost use Rattle.modulename.specs.ModuleName.{Text};
ghost use Rattle.search.specs.DefaultVersions.{DefaultFileResult};

use std::alloc::{AllocError, Global};

/// The result of the evaluation of a default file.
#[derive(Debug, Drop)]
pub struct DefaultFileEnding {
    /// Its `module-version` commands in the order in which they were evaluated, each as its words.
    pub commands: Vec<Vec<String>>,
    /// The value of its global variable `ModulesVersion` at its end, or `None` where it is unset.
    pub version: Option<String>,
}

/// An evaluator of default files (`.modulerc` and `.version`), with its limits.
pub trait DefaultFiles {
    ghost use Rattle.search.specs.Ended.{ended_view};

    /// By the evaluator, the path and the text of a default file: the result of its evaluation, `None` where that has a
    /// fault.
    ghost results: { Self → Text → Text → Option DefaultFileResult → Type 0 };

    /// Evaluates the text of the default file at the path; `None` where the evaluation has a fault.
    ///
    /// Errors: `AllocError` alone.
    fn evaluate(
        &self,
        alloc: Global,
        path: &str,
        text: &str,
    ) -> Result<Option<DefaultFileEnding>, AllocError>
        ensures { IfOk result (λ ended. results self.now path.now text.now (option_map ended_view ended)) };

    /// An evaluation has one result.
    ghost one: { (files : Self) (path text : Text) (o p : Option DefaultFileResult)
        → results files path text o → results files path text p → o ≡ p };
}
