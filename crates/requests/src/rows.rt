//! Worked examples of requests, conditions and reports, proved by computation. More stand in `tests/core/requests.txt`,
//! and of whole commands in `tests/core/commands.txt`.
ghost use Rattle.std.specs.Prelude.{◌≡◌, [], ◌∷◌, codes, Some, None, Ok, Err};
ghost use Rattle.modulefile.specs.Records.{Conflict};
ghost use Rattle.requests.specs.Reasons.{bad_arguments, unknown_subcommand, conflict_with, still_needed_by};
ghost use Rattle.requests.specs.Requests.{request_of, load, switch};
ghost use Rattle.requests.specs.Conditions.{load_objection, end_objection};
ghost use Rattle.requests.specs.Reports.{loaded_text, avail_text};
ghost use Rattle.search.specs.Listed.{selected_of};
ghost use Rattle.requests.specs.Rows.{k1, n1, gcc9, mpi1, versions};

/// Which request the words of a command line make, or why none.
pub fn request_rows()
    ensures load { request_of (codes "add" ∷ codes "x" ∷ codes "y" ∷ []) ≡ Ok (load (codes "x" ∷ codes "y" ∷ [])) }
    ensures switch_one { request_of (codes "swap" ∷ codes "gcc/10" ∷ []) ≡ Ok (switch None (codes "gcc/10")) }
    ensures switch_two { request_of (codes "switch" ∷ codes "a" ∷ codes "b" ∷ [])
        ≡ Ok (switch (Some (codes "a")) (codes "b")) }
    ensures purge { request_of (codes "purge" ∷ codes "x" ∷ []) ≡ Err bad_arguments }
    ensures unknown { request_of (codes "use" ∷ []) ≡ Err (unknown_subcommand (codes "use")) }
{}

/// When conflicts and prereqs forbid a load, and when they forbid that a command ends.
pub fn condition_rows()
    ensures own { load_objection (codes "n/1") (Conflict (codes "k" ∷ []) ∷ []) (k1 ∷ [])
        ≡ Some (conflict_with (codes "k/1")) }
    ensures recorded { load_objection (codes "k/1") [] (n1 ∷ []) ≡ Some (conflict_with (codes "n/1")) }
    ensures lost { end_objection (gcc9 ∷ mpi1 ∷ []) (mpi1 ∷ []) ≡ Some (still_needed_by (codes "mpi/1")) }
    ensures never_met { end_objection (mpi1 ∷ []) (mpi1 ∷ []) ≡ None }
{}

/// The bytes of the reports of `list` and `avail`.
pub fn report_rows()
    ensures list { loaded_text (codes "foo/1.0" ∷ []) ≡ codes "Currently Loaded Modulefiles:\nfoo/1.0\n" }
    ensures avail { avail_text ((codes "/m", []) ∷ (codes "/n", versions) ∷ [])
        ≡ codes "/n:\nver/1.9(default)\nver/1.10\nver/1.10-rc\n" }
    ensures selected { avail_text (selected_of (codes "ver/1.1" ∷ []) (codes "/n", versions) ∷ [])
        ≡ codes "/n:\nver/1.10\nver/1.10-rc\n" }
{}
