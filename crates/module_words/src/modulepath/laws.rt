//! The laws of MODULEPATH as a list, as functions that do nothing.
ghost use Rattle.module_words.specs.modulepath.Laws.{UnusedIsReadAgain, UsedIsReadAgain};

/// What `use` and `unuse` make of MODULEPATH is read again as the same list.
pub fn paths_read_again()
    ensures used { UsedIsReadAgain }
    ensures unused { UnusedIsReadAgain }
{}
