//! Names in the conflicts of modules that mean no module of the site, and prereqs that name none that isn't refused.
ghost use Rattle.std.specs.Prelude.{◌≡◌, ◌||◌, ◌∷◌, [], ◌++◌, Bool, true, false, not, bytes_eq, flat_map, map, string_bytes};
ghost use Rattle.std.specs.Prelude.{IfOk, OnOk};
ghost use Rattle.std.specs.List.{list_any};
ghost use Rattle.indexmap.specs.IndexSet.{insert_all};
ghost use Rattle.modulename.specs.ModuleName.{means};
ghost use Rattle.envvars.specs.Texts.{Text, texts_in};
ghost use Rattle.modulefile.specs.RecordViews.{record_view};
ghost use Rattle.modulefile.specs.Records.{prereq_groups};
ghost use Rattle.audit_laws.specs.site.DirectorySets.{with_directories};
ghost use Rattle.audit_laws.specs.determinism.Contexts.{same_by};
ghost use Rattle.audit_site.specs.Audits as spec;
ghost use Rattle.audit_site.specs.Audits.{mention_of, conflict_mention, prereq_mention, unknown_in};
ghost use Rattle.audit_site.specs.DeterministicRuns.{evaluated_file};
ghost use Rattle.audit_site.specs.Mentions.{is_known, is_accepted, known_in, unknown_among, unknown_groups, unknown_after};

use crate::auditing::UnknownNames;
use crate::folders::folder_of;
use crate::walk::Evaluation;
use audit_laws::determinism::same_texts;
use audit_laws::site::directory_set::{Directories, in_order};
use indexmap::IndexSet;
use message::texts::copies;
use modulefile::Record;
use std::alloc::{AllocError, Global};
use std::slice;

/// Adds the names that mean the module of this full name: its own, and each beginning of it that ends before a `/`.
fn add_meaning(
    alloc: Global,
    meaning: &mut IndexSet<String>,
    full_name: &str,
) -> Result<(), AllocError>
    ensures { OnOk result ((name : Text) → known_in meaning.new.keys name
        ≡ (known_in meaning.old.keys name || means name full_name.now)) }
{
    let _ = meaning.insert(String::from_str(alloc, full_name)?)?;
    match folder_of(full_name) {
        Some(folder) => add_meaning(alloc, meaning, folder),
        None => Ok(()),
    }
}

/// The names that mean one of the modules.
fn meaning_names(alloc: Global, evaluations: &[Evaluation]) -> Result<IndexSet<String>, AllocError>
    ensures { IfOk result (λ meaning. (name : Text) → known_in meaning.keys name
        ≡ is_known evaluations.now name) }
{
    let mut meaning = IndexSet::new(alloc);
    for evaluation in evaluations {
        add_meaning(alloc, &mut meaning, evaluation.name.as_str())?;
    }
    Ok(meaning)
}

/// The names that mean one of the modules whose evaluation isn't refused.
fn accepted_names(alloc: Global, evaluations: &[Evaluation]) -> Result<IndexSet<String>, AllocError>
    ensures { IfOk result (λ meaning. (name : Text) → known_in meaning.keys name
        ≡ is_accepted evaluations.now name) }
{
    let mut meaning = IndexSet::new(alloc);
    for evaluation in evaluations {
        if evaluation.outcome.is_ok() {
            add_meaning(alloc, &mut meaning, evaluation.name.as_str())?;
        }
    }
    Ok(meaning)
}

/// Names by what they mean.
#[derive(Drop)]
struct MeaningNames {
    /// Those that mean a module.
    known: IndexSet<String>,
    /// Those that mean a module whose evaluation isn't refused.
    accepted: IndexSet<String>,
}

/// Whether the name is among those that mean a module.
fn is_meaning(meaning: &IndexSet<String>, name: &str) -> bool
    ensures { result ≡ known_in meaning.now.keys name.now }
{
    meaning.contains(name)
}

/// Whether one of the names is among those that mean a module.
fn has_meaning(meaning: &IndexSet<String>, names: &[String]) -> bool
    ensures { result ≡ list_any (known_in meaning.now.keys) (map string_bytes names.now) }
{
    names.iter().any(|name| is_meaning(meaning, name.as_str()))
}

/// Adds a name, unless it means a module or is there.
fn add_unknown(
    alloc: Global,
    meaning: &IndexSet<String>,
    name: &str,
    unknown: &mut Directories,
) -> Result<(), AllocError>
    ensures { OnOk result (map string_bytes unknown.new.keys ≡ with_directories (map string_bytes unknown.old.keys)
        (unknown_among (known_in meaning.now.keys) (name.now ∷ []))) }
{
    if !is_meaning(meaning, name) {
        let _ = unknown.insert(String::from_str(alloc, name)?)?;
    }
    Ok(())
}

/// Adds those of the names that mean no module and aren't there.
fn add_all_unknown(
    alloc: Global,
    meaning: &IndexSet<String>,
    names: &[String],
    unknown: &mut Directories,
) -> Result<(), AllocError>
    ensures { OnOk result (map string_bytes unknown.new.keys ≡ with_directories (map string_bytes unknown.old.keys)
        (unknown_among (known_in meaning.now.keys) (map string_bytes names.now))) }
{
    for name in names {
        add_unknown(alloc, meaning, name.as_str(), unknown)?;
    }
    Ok(())
}

/// The names in the conflicts of records that mean no module, each once.
fn unknown_conflicts(
    alloc: Global,
    meaning: &IndexSet<String>,
    records: &[Record],
) -> Result<Directories, AllocError>
    ensures { IfOk result (λ unknown. map string_bytes unknown.keys
        ≡ spec.unknown_conflicts (known_in meaning.now.keys) (map record_view records.now)) }
{
    let mut unknown = IndexSet::new(alloc);
    for recorded in records {
        add_all_unknown(alloc, meaning, recorded.conflicts(), &mut unknown)?;
    }
    Ok(unknown)
}

/// Whether the names are among these.
fn is_there(all: &[Vec<String>], names: &[String]) -> bool
    ensures { result ≡ list_any (same_by bytes_eq (map string_bytes names.now)) (map texts_in all.now) }
{
    all.iter().any(|other| same_texts(names, other.as_slice()))
}

/// Adds names, unless one of them means a module or the same are there.
fn add_group(
    alloc: Global,
    meaning: &IndexSet<String>,
    names: &[String],
    unknown: &mut Vec<Vec<String>>,
) -> Result<(), AllocError>
    ensures { OnOk result (map texts_in unknown.new.items ≡ insert_all (same_by bytes_eq) (map texts_in unknown.old.items)
        (unknown_groups (known_in meaning.now.keys) (map string_bytes names.now ∷ []))) }
{
    if !has_meaning(meaning, names) && !is_there(unknown.as_slice(), names) {
        unknown.push(copies(alloc, names)?)?;
    }
    Ok(())
}

/// Adds the names of a record that is a prereq.
fn add_prereq(
    alloc: Global,
    meaning: &IndexSet<String>,
    recorded: &Record,
    unknown: &mut Vec<Vec<String>>,
) -> Result<(), AllocError>
    ensures { OnOk result (map texts_in unknown.new.items ≡ insert_all (same_by bytes_eq) (map texts_in unknown.old.items)
        (unknown_groups (known_in meaning.now.keys) (prereq_groups (record_view recorded.now ∷ [])))) }
{
    match recorded.prereqs() {
        Some(names) => add_group(alloc, meaning, names, unknown),
        None => Ok(()),
    }
}

/// The names of each prereq among records of which none means a module, each once.
fn unknown_prereqs(
    alloc: Global,
    meaning: &IndexSet<String>,
    records: &[Record],
) -> Result<Vec<Vec<String>>, AllocError>
    ensures { IfOk result (λ unknown. map texts_in unknown.items
        ≡ spec.unknown_prereqs (known_in meaning.now.keys) (map record_view records.now)) }
{
    let mut unknown = Vec::new(alloc);
    for recorded in records {
        add_prereq(alloc, meaning, recorded, &mut unknown)?;
    }
    Ok(unknown)
}

/// The names that a module has in a record, copied.
fn mention(
    alloc: Global,
    module: &Evaluation,
    is_prereq: bool,
    names: &[String],
) -> Result<UnknownNames, AllocError>
    ensures { IfOk result (λ found. mention_of found
        ≡ record { by = evaluated_file module.now; is_prereq = is_prereq; names = map string_bytes names.now }) }
{
    Ok(UnknownNames {
        name: String::from_str(alloc, module.name.as_str())?,
        path: String::from_str(alloc, module.path.as_str())?,
        is_prereq,
        names: copies(alloc, names)?,
    })
}

/// Adds each of the names, as one in a conflict of the module.
fn push_conflicts(
    alloc: Global,
    module: &Evaluation,
    names: &[String],
    found: &mut Vec<UnknownNames>,
) -> Result<(), AllocError>
    ensures { OnOk result (map mention_of found.new.items ≡ map mention_of found.old.items
        ++ map (conflict_mention (evaluated_file module.now)) (map string_bytes names.now)) }
{
    for name in names {
        found.push(mention(alloc, module, false, slice::from_ref(name))?)?;
    }
    Ok(())
}

/// Adds each of these, as the names in a prereq of the module.
fn push_prereqs(
    alloc: Global,
    module: &Evaluation,
    groups: &[Vec<String>],
    found: &mut Vec<UnknownNames>,
) -> Result<(), AllocError>
    ensures { OnOk result (map mention_of found.new.items ≡ map mention_of found.old.items
        ++ map (prereq_mention (evaluated_file module.now)) (map texts_in groups.now)) }
{
    for names in groups {
        found.push(mention(alloc, module, true, names.as_slice())?)?;
    }
    Ok(())
}

/// Adds what the records of a module mention in vain.
fn judge_module(
    alloc: Global,
    meaning: &MeaningNames,
    module: &Evaluation,
    records: &[Record],
    found: &mut Vec<UnknownNames>,
) -> Result<(), AllocError>
    ensures { OnOk result (map mention_of found.new.items ≡ map mention_of found.old.items
        ++ unknown_in (known_in meaning.now.known.keys) (known_in meaning.now.accepted.keys) (evaluated_file module.now)
        (map record_view records.now)) }
{
    let conflicts = in_order(alloc, unknown_conflicts(alloc, &meaning.known, records)?)?;
    let prereqs = unknown_prereqs(alloc, &meaning.accepted, records)?;
    push_conflicts(alloc, module, conflicts.as_slice(), found)?;
    push_prereqs(alloc, module, prereqs.as_slice(), found)
}

/// Adds what an evaluated module mentions in vain.
fn judge_evaluation(
    alloc: Global,
    meaning: &MeaningNames,
    module: &Evaluation,
    found: &mut Vec<UnknownNames>,
) -> Result<(), AllocError>
    ensures { OnOk result (map mention_of found.new.items ≡ map mention_of found.old.items
        ++ unknown_after (known_in meaning.now.known.keys) (known_in meaning.now.accepted.keys) module.now) }
{
    match &module.outcome {
        Ok(file) => judge_module(alloc, meaning, module, file.records.as_slice(), found),
        Err(_) => Ok(()),
    }
}

/// What the evaluated modules mention in vain.
fn judge_evaluations(
    alloc: Global,
    meaning: &MeaningNames,
    evaluations: &[Evaluation],
) -> Result<Vec<UnknownNames>, AllocError>
    ensures { IfOk result (λ found. map mention_of found.items
        ≡ flat_map (unknown_after (known_in meaning.now.known.keys) (known_in meaning.now.accepted.keys))
        evaluations.now) }
{
    let mut found = Vec::new(alloc);
    for module in evaluations {
        judge_evaluation(alloc, meaning, module, &mut found)?;
    }
    Ok(found)
}

/// The names in conflicts that mean none of the modules, and those of prereqs of which none means one that isn't refused.
pub(crate) fn unknown_names(
    alloc: Global,
    evaluations: &[Evaluation],
) -> Result<Vec<UnknownNames>, AllocError>
    ensures { IfOk result (λ found. map mention_of found.items
        ≡ flat_map (unknown_after (is_known evaluations.now) (is_accepted evaluations.now)) evaluations.now) }
{
    let meaning = MeaningNames {
        known: meaning_names(alloc, evaluations)?,
        accepted: accepted_names(alloc, evaluations)?,
    };
    judge_evaluations(alloc, &meaning, evaluations)
}
