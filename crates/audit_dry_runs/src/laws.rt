//! The laws of dry runs: a function that does nothing, whose contract is the laws.
ghost use Rattle.audit_dry_runs.specs.Laws.{OneDryRun, SomeDryRun, UnloadsTheModule};

/// Where no device failed, a module has one dry run, and what is unloaded in it is the module that was loaded.
pub fn dry_runs()
    ensures one { OneDryRun }
    ensures some { SomeDryRun }
    ensures unloads { UnloadsTheModule }
{
    envvars::laws::changes();
    requests::outcomes();
    requests::some_outcome();
    envstate::loaded_list::laws::loaded_edits();
}
