//! Worked examples of what an unload leaves live, and of what refuses it, computed from the definitions.
ghost use Rattle.std.specs.Prelude.{◌≡◌, [], ◌∷◌, codes, Some, None};
ghost use Rattle.reversal.specs.Live.{entries_over};
ghost use Rattle.requests.specs.Reasons.{still_needed_by};
ghost use Rattle.requests.specs.Conditions.{end_objection};
ghost use Rattle.audit_laws.specs.returns.Unloads.{without_all, without_named};
ghost use Rattle.audit_laws.specs.returns.Examples.{gcc, gcc_9, gcc_10, mpi};

/// An unload takes the last loaded module that the name means. So names of live modules may leave one of these live, if
/// one of the names means another live module too (`other`).
pub fn names()
    ensures own { without_all (codes "gcc/9" ∷ []) (mpi ∷ gcc_9 ∷ []) ≡ mpi ∷ [] }
    ensures last { without_all (codes "gcc" ∷ []) (gcc_10 ∷ mpi ∷ gcc_9 ∷ []) ≡ mpi ∷ gcc_9 ∷ [] }
    ensures none { without_all (codes "cmake" ∷ []) (mpi ∷ gcc_9 ∷ []) ≡ mpi ∷ gcc_9 ∷ [] }
    ensures other { without_all (codes "gcc" ∷ codes "gcc/9" ∷ []) (gcc_9 ∷ gcc ∷ []) ≡ gcc ∷ [] }
    ensures other_named { without_named (codes "gcc" ∷ codes "gcc/9" ∷ []) (gcc_9 ∷ gcc ∷ []) ≡ [] }
{}

/// A module that stays loaded refuses the unload of the last module that it needs. It refuses none if another module
/// meets its need, if the need wasn't met before, or if it is unloaded too.
pub fn needs()
    ensures lost { end_objection (entries_over [] (mpi ∷ gcc_9 ∷ [])) (entries_over [] (mpi ∷ []))
        ≡ Some (still_needed_by (codes "mpi/1")) }
    ensures another { end_objection (entries_over [] (mpi ∷ gcc_10 ∷ gcc_9 ∷ [])) (entries_over [] (mpi ∷ gcc_10 ∷ []))
        ≡ None }
    ensures unmet { end_objection (entries_over [] (mpi ∷ [])) (entries_over [] (mpi ∷ [])) ≡ None }
    ensures both { end_objection (entries_over [] (mpi ∷ gcc_9 ∷ [])) (entries_over [] []) ≡ None }
{}
