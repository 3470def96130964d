//! Laws of sites. Each function does nothing: its contract is the law.
ghost use Rattle.audit_laws.specs.site.Laws.{StepsAreAdmitted, SessionsAreAdmitted, NamesListed, DirectoriesFound};
ghost use Rattle.audit_laws.specs.site.Laws.{ModulesFound, DeterministicModulesFound, DeterministicRecordsAreAll, EachStands};
ghost use Rattle.audit_laws.specs.site.Laws.{OneStanding, CertifiedStand, CertifiedReadFreely, SiteSessionsReturn, AuditsHold};
ghost use Rattle.audit_laws.specs.site.Laws.{SiteCommandsReturn, ChangesAgree, ChangesLeaveReads};
ghost use Rattle.audit_laws.specs.site.Extended.{DeterministicModulesStay};

/// Nothing that was loaded at the moment of an accepted load forbade it: neither a conflict that the loaded list records,
/// nor a conflict of the module itself, nor a prereq. So it is for requests, and for sessions.
pub fn admissions()
    ensures steps { StepsAreAdmitted }
    ensures sessions { SessionsAreAdmitted }
{}

/// A walk over a site that has gone through each directory that it found has all directories of the site, and the
/// modules that `avail` lists in them are those of the site. The deterministic ones among them are those whose
/// evaluations say so.
pub fn walks()
    ensures names { NamesListed }
    ensures directories { DirectoriesFound }
    ensures modules { ModulesFound }
    ensures deterministic { DeterministicModulesFound }
{
    modulefile::files();
}

/// Every accepted evaluation of the file of a deterministic module, for loading or unloading, where what it reads has
/// the values of the environment at hand, leaves records that undo what its own do; and for loading, with its
/// conflicts.
pub fn deterministic_records()
    ensures { DeterministicRecordsAreAll }
{
    crate::determinism::laws::deterministic();
    crate::determinism::laws::undone();
}

/// Beside all deterministic modules of a site each of its modules stands in one of the six ways, and beside whatever
/// candidates in no other. It stands as certified exactly where it is one of the certified candidates. What a certified
/// module reads is used by no records of a certified one that isn't mutually exclusive with it (`free`).
pub fn standings()
    ensures each { EachStands }
    ensures one { OneStanding }
    ensures certified { CertifiedStand }
    ensures free { CertifiedReadFreely }
{
    modulefile::files();
    audit_certificate::laws::certified();
}

/// From a start whose loaded list is in order, in a session over a site whose accepted loads are of certified modules
/// with whose uses the start agrees and whose reads have in it the values of the environment at hand, and which unloads
/// none that is loaded at the start: each environment is in order, and is the start with the live modules layered on
/// it; where none is live it is the start, and the maps are equal. There is no premise about records: conflicts that
/// are judged at each load keep modules that exclude each other from being loaded together. Of modules that aren't
/// certified nothing is asked. So it is for the certified ones of any candidates that are deterministic modules of the
/// site, however these were chosen.
pub fn sessions_return()
    ensures certificate { SiteSessionsReturn }
    ensures audits { AuditsHold }
{
    admissions();
    deterministic_records();
    modulefile::files();
    requests::sessions();
    audit_certificate::laws::certified();
    audit_certificate::laws::conflicts();
    audit_certificate::laws::steps();
}

/// One command, which knows no history, keeps the environment in order and the certified modules layered on the start.
pub fn command_returns()
    ensures { SiteCommandsReturn }
{
    admissions();
    deterministic_records();
    modulefile::files();
    requests::outcomes();
    audit_certificate::laws::certified();
    audit_certificate::laws::conflicts();
    audit_certificate::laws::steps();
}

/// A change by hand keeps the agreement of the start with what a deterministic module uses, where each way in which the
/// module uses the variable allows the change, and it parts a path as live modules do. It keeps the values of what the
/// module reads, where it is a change of another variable.
pub fn changes_agree()
    ensures uses { ChangesAgree }
    ensures reads { ChangesLeaveReads }
{
    requests::hand_changes::laws::one_change();
    modulefile::files();
}

/// What is deterministic in a site stays so where more can be read, or where files were added: if each of its files has
/// the same bytes there, and its directories have all their entries.
pub fn extended_sites()
    ensures { DeterministicModulesStay }
{}
