//! Laws of default files. Each function does nothing: its contract is the law.
ghost use Rattle.std.specs.Prelude.{◌≡◌, Option};
ghost use Rattle.modulename.specs.ModuleName.{Text};
ghost use Rattle.tclrules.specs.declared.limits.Limits.{Limits};
ghost use Rattle.search.specs.DefaultFiles.{DefaultFileResult};
ghost use Rattle.lookup.specs.DefaultFileResults.{HasResult};

/// A default file has one result at most.
pub fn one_result()
    ensures { (limits : Limits) (path text : Text) (o p : Option DefaultFileResult)
        → HasResult limits path text o → HasResult limits path text p → o ≡ p }
{}

/// Each default file has a result, which is none where it has a fault.
pub fn some_result()
    ensures { (limits : Limits) (path text : Text) → (o : Option DefaultFileResult) × HasResult limits path text o }
{
    tclrules::some_outcome();
}
