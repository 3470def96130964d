//! Where an environment doesn't agree with a certificate.
ghost use Rattle.std.specs.Prelude.{◌≡◌, ◌↔◌, [], Some, map, IfOk, IfErr, OnOk, IsTrue, MatchOption};
ghost use Rattle.std.specs.Option.{option_map};
ghost use Rattle.envvars.specs.Texts.{slice_texts};
ghost use Rattle.envvars.specs.declared.fault.EnvFault.TheVariants.{OutOfMemory};
ghost use Rattle.envstate.specs.loaded_list.Loaded.{names_of, loaded_in};
ghost use Rattle.envstate.specs.loaded_list.LoadedEntries.{entry_view};
ghost use Rattle.reversal.specs.VariableUses.{Untouched};
ghost use Rattle.audit_certificate.specs.RecordUses.{IsAmong};
ghost use Rattle.audit_certificate.specs.Certificates.{AgreesWithUse, AgreesWith};
ghost use Rattle.audit_certificate.specs.UseViews.{used_view};
ghost use Rattle.audit_certificate.specs.Disagreements as reasons;
ghost use Rattle.audit_certificate.specs.Disagreements.{IsDisagreement, AreDisagreements, use_named, IsJudged};
ghost use Rattle.audit_certificate.specs.Disagreements.{IsListJudged};
ghost use Rattle.audit_certificate.specs.DisagreementViews.{disagreement_view};

use crate::disagreement::Disagreement;
use crate::uses::{UsedVariable, VariableUse};
use envstate::loaded_list::{Loaded, are_loaded_in_order, loaded_if_consistent, names_of};
use envstate::paths::is_path_in_order;
use envstate::stacks::is_stack_in_order;
use envvars::{Env, EnvFault};
use std::alloc::{AllocError, Global};

/// Whether an environment in which the modules of these names are loaded agrees with a use of a variable. Where their
/// texts don't fit together, it agrees with each stack.
fn agrees_with_use(
    alloc: Global,
    env: &Env,
    owners: &Option<Vec<&str>>,
    wanted: &UsedVariable,
) -> Result<bool, AllocError>
    requires { option_map (λ v. slice_texts v.items) owners.now ≡ option_map names_of (loaded_in env.now) }
    ensures { IfOk result (λ b. IsTrue b ↔ AgreesWithUse env.now (used_view wanted.now).0 (used_view wanted.now).1) }
{
    let variable = wanted.variable.as_str();
    match &wanted.used {
        VariableUse::Fixed(None) | VariableUse::Absent => Ok(env.get(variable).is_none()),
        VariableUse::Fixed(Some(value)) => Ok(env.get(variable) == Some(value.as_str())),
        VariableUse::Pathed(delim) => is_path_in_order(alloc, env, variable, delim.character),
        VariableUse::Read => Ok(true),
        VariableUse::Stacked => match owners {
            Some(owners) => is_stack_in_order(alloc, env, variable, owners.as_slice()),
            None => Ok(true),
        },
    }
}

/// The reason that a use of a variable gives, where an environment doesn't agree with it. A read gives none.
fn reason_for(alloc: Global, wanted: &UsedVariable) -> Result<Option<Disagreement>, AllocError>
    ensures { IfOk result (λ found. MatchOption found ((used_view wanted.now).1 ≡ Untouched)
        (λ reason. use_named (disagreement_view reason) ≡ Some (used_view wanted.now))) }
{
    let variable = String::from_str(alloc, wanted.variable.as_str())?;
    match &wanted.used {
        VariableUse::Fixed(None) => Ok(Some(Disagreement::IsSet(variable))),
        VariableUse::Fixed(Some(value)) => {
            let value = String::from_str(alloc, value.as_str())?;
            Ok(Some(Disagreement::HasNotValue { variable, value }))
        }
        VariableUse::Absent => Ok(Some(Disagreement::IsNotAbsent(variable))),
        VariableUse::Pathed(delim) => Ok(Some(Disagreement::PathNotInOrder {
            variable,
            delim: *delim,
        })),
        VariableUse::Stacked => Ok(Some(Disagreement::StackNotInOrder(variable))),
        VariableUse::Read => Ok(None),
    }
}

/// Adds the reason of a use of a variable, where the environment doesn't agree with it.
fn judge_use(
    alloc: Global,
    env: &Env,
    owners: &Option<Vec<&str>>,
    wanted: &UsedVariable,
    found: &mut Vec<Disagreement>,
) -> Result<(), AllocError>
    requires { option_map (λ v. slice_texts v.items) owners.now ≡ option_map names_of (loaded_in env.now) }
    ensures { OnOk result (IsJudged env.now (used_view wanted.now) (map disagreement_view found.old.items)
        (map disagreement_view found.new.items)) }
{
    if agrees_with_use(alloc, env, owners, wanted)? {
        return Ok(());
    }
    if let Some(reason) = reason_for(alloc, wanted)? {
        found.push(reason)?;
    }
    Ok(())
}

/// The reason of the loaded modules' texts, where they aren't in order.
fn judge_list(alloc: Global, env: &Env) -> Result<Vec<Disagreement>, AllocError>
    ensures { IfOk result (λ found. IsListJudged env.now (map disagreement_view found.items)) }
{
    let mut found = Vec::new(alloc);
    if !are_loaded_in_order(alloc, env)? {
        found.push(Disagreement::LoadedTexts)?;
    }
    Ok(found)
}

/// Adds the reasons of the uses in a certificate to that of the loaded modules' texts.
fn judge_uses(
    alloc: Global,
    env: &Env,
    owners: &Option<Vec<&str>>,
    certificate: &[UsedVariable],
    list: Vec<Disagreement>,
) -> Result<Vec<Disagreement>, AllocError>
    requires owners { option_map (λ v. slice_texts v.items) owners.now ≡ option_map names_of (loaded_in env.now) }
    requires list { IsListJudged env.now (map disagreement_view list.items) }
    ensures agrees { IfOk result (λ found. (found.items ≡ []) ↔ AgreesWith (map used_view certificate.now) env.now) }
    ensures named { IfOk result (λ found. (d : reasons.Disagreement) → IsAmong d (map disagreement_view found.items)
        ↔ IsDisagreement (map used_view certificate.now) env.now d) }
    ensures order { IfOk result (λ found.
        AreDisagreements (map used_view certificate.now) env.now (map disagreement_view found.items)) }
{
    let mut found = list;
    for wanted in certificate {
        judge_use(alloc, env, owners, wanted, &mut found)?;
    }
    Ok(found)
}

/// The names of the modules in a list, if there is one.
fn names_in<'a>(
    alloc: Global,
    list: &'a Option<Vec<Loaded>>,
) -> Result<Option<Vec<&'a str>>, AllocError>
    ensures { IfOk result (λ names. option_map (λ v. slice_texts v.items) names
        ≡ option_map names_of (option_map (λ v. map entry_view v.items) list.entry.now)) }
{
    match list {
        Some(list) => names_of(alloc, list.as_slice()).map(Some),
        None => Ok(None),
    }
}

/// Where an environment doesn't agree with a certificate: each variable that doesn't, and why, in the certificate's
/// order; nothing where it agrees.
///
/// The only error is want of memory.
pub fn disagreements(
    alloc: Global,
    env: &Env,
    certificate: &[UsedVariable],
) -> Result<Vec<Disagreement>, EnvFault>
    ensures agrees { IfOk result (λ found. (found.items ≡ []) ↔ AgreesWith (map used_view certificate.now) env.now) }
    ensures named { IfOk result (λ found. (d : reasons.Disagreement) → IsAmong d (map disagreement_view found.items)
        ↔ IsDisagreement (map used_view certificate.now) env.now d) }
    ensures order { IfOk result (λ found.
        AreDisagreements (map used_view certificate.now) env.now (map disagreement_view found.items)) }
    ensures only { IfErr result (λ e. e ≡ OutOfMemory) }
{
    let list = loaded_if_consistent(alloc, env)?;
    let owners = names_in(alloc, &list)?;
    let found = judge_list(alloc, env)?;
    Ok(judge_uses(alloc, env, &owners, certificate, found)?)
}
