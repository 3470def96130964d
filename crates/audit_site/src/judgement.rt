//! All modules of a site together: each judged by itself, the answers about clashes, and the certificate.
ghost use Rattle.std.specs.Prelude.{◌≡◌, ◌++◌, map, string_bytes, IfOk, OnOk};
ghost use Rattle.std.specs.Vec.Iter.{into_iter_items};
ghost use Rattle.modulefile.specs.RecordViews.{record_view};
ghost use Rattle.audit_laws.specs.site.Sites as sites;
ghost use Rattle.audit_certificate.specs.CandidateViews.{candidate_view};
ghost use Rattle.audit_certificate.specs.UseViews.{used_view};
ghost use Rattle.audit_site.specs.Findings as findings;
ghost use Rattle.audit_site.specs.Findings.{own_standing, steps_of, rejected_by, AddsJudged, AreJudged, AreStandings};
ghost use Rattle.audit_site.specs.Findings.{answers_left, beside_left, other_reasons_with, IsModuleWith, AreModulesWith};
ghost use Rattle.audit_site.specs.Findings.{candidate_with, first_answer, later_answers};

use crate::auditing::AuditedModule;
use crate::excluded::is_excluded;
use crate::standing::{AuditStanding, ModuleFinding, judge, push_standing};
use crate::walk::Evaluation;
use audit_certificate::{Candidate, Clash, FoundClashes, UsedVariable, clashes};
use message::texts::copies;
use modulefile::Record;
use std::alloc::{AllocError, Global};
use std::vec::IntoIter;

/// How a module stands by what it shows by itself.
#[derive(Drop)]
pub(crate) enum OwnStanding {
    /// It stands so, and for no other reason.
    Decided(AuditStanding),
    /// It stands so, and for these other reasons; and besides it may clash.
    Besides(AuditStanding, Vec<AuditStanding>),
    /// It is deterministic and consistent and not excluded, so that the other modules decide.
    Open,
}

/// A module that is judged by itself.
#[derive(Drop)]
pub(crate) struct JudgedModule {
    name: String,
    path: String,
    /// The variables that its evaluations read, each once.
    reads: Vec<String>,
    /// How it stands.
    standing: OwnStanding,
}

/// The modules of a site, each judged by itself.
#[derive(Drop)]
pub(crate) struct JudgedSite {
    /// All of them, in their order.
    pub(crate) judged: Vec<JudgedModule>,
    /// The deterministic ones that are consistent and aren't excluded, with what they read, in the same order.
    pub(crate) consistent: Vec<Candidate>,
    /// Those that stand by themselves and may clash besides, with their first records and what they read, in the same
    /// order.
    pub(crate) aside: Vec<Candidate>,
}

/// The module with these records, and with what it reads.
fn candidate_of(
    alloc: Global,
    name: &str,
    path: &str,
    records: Vec<Record>,
    reads: &[String],
) -> Result<Candidate, AllocError>
    ensures { IfOk result (λ found. candidate_view found ≡ candidate_with (record { name = name.now; path = path.now })
        (map record_view records.items) (map string_bytes reads.now)) }
{
    Ok(Candidate {
        name: String::from_str(alloc, name)?,
        path: String::from_str(alloc, path)?,
        records,
        reads: copies(alloc, reads)?,
    })
}

/// How a module stands by what it shows by itself. Where other modules decide it joins those that are deterministic and
/// consistent, unless it is excluded; where it may clash besides it joins those that stand by themselves.
fn sort_out(
    alloc: Global,
    name: &str,
    path: &str,
    reads: &[String],
    finding: ModuleFinding,
    without: &[String],
    consistent: &mut Vec<Candidate>,
    aside: &mut Vec<Candidate>,
) -> Result<OwnStanding, AllocError>
    ensures standing { IfOk result (λ standing.
        standing ≡ own_standing (sites.is_excluded (map string_bytes without.now) name.now) finding) }
    ensures steps { OnOk result (map candidate_view consistent.new.items ≡ map candidate_view consistent.old.items
        ++ steps_of (map string_bytes without.now) (record { name = name.now; path = path.now })
        (map string_bytes reads.now) finding) }
    ensures others { OnOk result (map candidate_view aside.new.items ≡ map candidate_view aside.old.items
        ++ rejected_by (record { name = name.now; path = path.now }) (map string_bytes reads.now) finding) }
{
    match finding {
        ModuleFinding::Refused(refusal) => Ok(OwnStanding::Decided(AuditStanding::Refused(
            refusal,
        ))),
        ModuleFinding::Stands(first, other_reasons, records) => {
            aside.push(candidate_of(alloc, name, path, records, reads)?)?;
            Ok(OwnStanding::Besides(first, other_reasons))
        }
        ModuleFinding::Consistent(records) => {
            if is_excluded(without, name) {
                return Ok(OwnStanding::Decided(AuditStanding::Excluded));
            }
            consistent.push(candidate_of(alloc, name, path, records, reads)?)?;
            Ok(OwnStanding::Open)
        }
    }
}

/// The next of some answers; `None` where it is that or none is left.
fn next_answer(answers: &mut IntoIter<Option<Clash>>) -> Option<Clash>
    ensures answer { result ≡ first_answer (into_iter_items answers.old) }
    ensures left { into_iter_items answers.new ≡ later_answers (into_iter_items answers.old) }
{
    match answers.next() {
        Some(answer) => answer,
        None => None,
    }
}

/// Judges one module more by itself, where the modules that these names mean are excluded.
fn judge_next(
    alloc: Global,
    evaluation: Evaluation,
    without: &[String],
    judgement: &mut JudgedSite,
) -> Result<(), AllocError>
    ensures { OnOk result (AddsJudged (map string_bytes without.now) evaluation judgement.old judgement.new) }
{
    let Evaluation {
        name,
        path,
        outcome,
        reads,
    } = evaluation;
    let finding = judge(alloc, outcome)?;
    let standing = sort_out(
        alloc,
        name.as_str(),
        path.as_str(),
        reads.as_slice(),
        finding,
        without,
        &mut judgement.consistent,
        &mut judgement.aside,
    )?;
    judgement.judged.push(JudgedModule {
        name,
        path,
        reads,
        standing,
    })?;
    Ok(())
}

/// Judges each module by itself, where the modules that these names mean are excluded.
pub(crate) fn judge_all(
    alloc: Global,
    evaluations: Vec<Evaluation>,
    without: &[String],
) -> Result<JudgedSite, AllocError>
    ensures { IfOk result (λ judgement. AreJudged (map string_bytes without.now) evaluations.items
        judgement.judged.items (map candidate_view judgement.consistent.items)
        (map candidate_view judgement.aside.items)) }
{
    let mut judgement = JudgedSite {
        judged: Vec::new(alloc),
        consistent: Vec::new(alloc),
        aside: Vec::new(alloc),
    };
    for evaluation in evaluations {
        judge_next(alloc, evaluation, without, &mut judgement)?;
    }
    Ok(judgement)
}

/// How a module stands by its answer: it clashes with another, or is certified.
fn standing_by(answer: Option<Clash>) -> AuditStanding
    ensures { result ≡ findings.standing_by answer }
{
    match answer {
        Some(clash) => AuditStanding::Clashes(clash),
        None => AuditStanding::Certified,
    }
}

/// How a module stands, and for which other reasons.
#[derive(Drop)]
struct FullStanding {
    standing: AuditStanding,
    other_reasons: Vec<AuditStanding>,
}

/// How a module stands by what it shows by itself, or else by the next answer; and for which other reasons, where it
/// stands by itself also by the next of the answers beside.
fn standing_with(
    alloc: Global,
    own: OwnStanding,
    answers: &mut IntoIter<Option<Clash>>,
    beside: &mut IntoIter<Option<Clash>>,
) -> Result<FullStanding, AllocError>
    ensures standing { IfOk result (λ found.
        found.standing ≡ findings.standing_with own (into_iter_items answers.old)) }
    ensures other_reasons { IfOk result (λ found.
        found.other_reasons.items ≡ other_reasons_with own (into_iter_items beside.old)) }
    ensures left { OnOk result (into_iter_items answers.new ≡ answers_left own (into_iter_items answers.old)) }
    ensures left_beside { OnOk result (into_iter_items beside.new ≡ beside_left own (into_iter_items beside.old)) }
{
    match own {
        OwnStanding::Decided(standing) => Ok(FullStanding {
            standing,
            other_reasons: Vec::new(alloc),
        }),
        OwnStanding::Besides(standing, own_other_reasons) => {
            let mut other_reasons = own_other_reasons;
            push_standing(
                &mut other_reasons,
                next_answer(beside).map(AuditStanding::Clashes),
            )?;
            Ok(FullStanding {
                standing,
                other_reasons,
            })
        }
        OwnStanding::Open => Ok(FullStanding {
            standing: standing_by(next_answer(answers)),
            other_reasons: Vec::new(alloc),
        }),
    }
}

/// The module with its standing, and the other reasons.
fn module_with(
    alloc: Global,
    judged: JudgedModule,
    answers: &mut IntoIter<Option<Clash>>,
    beside: &mut IntoIter<Option<Clash>>,
) -> Result<AuditedModule, AllocError>
    ensures module { IfOk result (IsModuleWith judged (into_iter_items answers.old) (into_iter_items beside.old)) }
    ensures left { OnOk result (into_iter_items answers.new
        ≡ answers_left judged.standing (into_iter_items answers.old)) }
    ensures left_beside { OnOk result (into_iter_items beside.new
        ≡ beside_left judged.standing (into_iter_items beside.old)) }
{
    let JudgedModule {
        name,
        path,
        reads,
        standing: own,
    } = judged;
    let FullStanding {
        standing,
        other_reasons,
    } = standing_with(alloc, own, answers, beside)?;
    Ok(AuditedModule {
        name,
        path,
        reads,
        standing,
        other_reasons,
    })
}

/// The modules with their standings: those for whom others decide have the answers, in their order, and those that stand
/// by themselves the answers beside.
pub(crate) fn modules_with(
    alloc: Global,
    judged: Vec<JudgedModule>,
    answers: Vec<Option<Clash>>,
    beside: Vec<Option<Clash>>,
) -> Result<Vec<AuditedModule>, AllocError>
    ensures { IfOk result (λ modules. AreModulesWith judged.items answers.items beside.items modules.items) }
{
    let mut modules = Vec::new(alloc);
    let mut answers = answers.into_iter();
    let mut beside = beside.into_iter();
    for one in judged {
        modules.push(module_with(alloc, one, &mut answers, &mut beside)?)?;
    }
    Ok(modules)
}

/// How the modules of a site stand, and what the certified ones use and read.
#[derive(Drop)]
pub(crate) struct SiteStandings {
    pub(crate) modules: Vec<AuditedModule>,
    pub(crate) certificate: Vec<UsedVariable>,
}

/// Judges the modules of a site: each by itself, and those that are deterministic and consistent, but for those that
/// these names mean, by their clashes; those that stand by themselves by clashes with these as well.
pub(crate) fn judge_modules(
    alloc: Global,
    evaluations: Vec<Evaluation>,
    without: &[String],
) -> Result<SiteStandings, AllocError>
    ensures { IfOk result (λ found. AreStandings (map string_bytes without.now) evaluations.items found.modules.items
        (map used_view found.certificate.items)) }
{
    let JudgedSite {
        judged,
        consistent,
        aside,
    } = judge_all(alloc, evaluations, without)?;
    let FoundClashes {
        answers,
        unclashed_uses,
        beside,
    } = clashes(alloc, consistent.as_slice(), aside.as_slice())?;
    Ok(SiteStandings {
        modules: modules_with(alloc, judged, answers, beside)?,
        certificate: unclashed_uses,
    })
}
