//! The report of a check: a line for each outcome and for each verdict.
ghost use Rattle.std.specs.Prelude.{◌≡◌, ◌++◌, IfOk, OnOk, string_bytes};
ghost use Rattle.std.specs.List.{flat_map};
ghost use Rattle.modules.specs.rehearsals.Reports as spec;
ghost use Rattle.modules.specs.rehearsals.Reports.{report_of};

use crate::rehearsals::checking::CheckFindings;
use crate::rehearsals::judging::ModuleVerdict;
use crate::{Outcome, Verdict};
use std::alloc::{AllocError, Global};

/// The line of a request's outcome, with the request's number.
fn outcome_line(alloc: Global, number: usize, outcome: &Outcome) -> Result<String, AllocError>
    ensures { IfOk result (λ line. string_bytes line ≡ spec.outcome_line number outcome.now) }
{
    match outcome {
        Outcome::Accepted(_) => format!(in alloc; "{number} accepted\n"),
        Outcome::Refused(refusal) => format!(in alloc; "{number} refused: {refusal}\n"),
    }
}

/// The line of a module, with the verdict on it or why there is none.
fn judgment_line(alloc: Global, judgment: &ModuleVerdict) -> Result<String, AllocError>
    ensures { IfOk result (λ line. string_bytes line ≡ spec.judgment_line judgment.now) }
{
    let name = &judgment.name;
    match &judgment.verdict {
        Ok(Verdict::Plain) => format!(in alloc; "{name}: Plain\n"),
        Ok(Verdict::Asked) => format!(in alloc; "{name}: Asked\n"),
        Ok(Verdict::OneWay) => format!(in alloc; "{name}: OneWay\n"),
        Err(refusal) => format!(in alloc; "{name}: {refusal}\n"),
    }
}

/// Adds the line of each outcome; the requests have their numbers from 1.
fn push_outcomes(alloc: Global, report: &mut String, outcomes: &[Outcome]) -> Result<(), AllocError>
    ensures { OnOk result (string_bytes report.new ≡ string_bytes report.old ++ spec.outcome_lines 1 outcomes.now) }
{
    for (index, outcome) in outcomes.iter().enumerate() {
        report.push_str(outcome_line(alloc, index + 1, outcome)?.as_str())?;
    }
    Ok(())
}

/// Adds the line of each module.
fn push_judgments(
    alloc: Global,
    report: &mut String,
    judgments: &[ModuleVerdict],
) -> Result<(), AllocError>
    ensures { OnOk result (string_bytes report.new
        ≡ string_bytes report.old ++ flat_map spec.judgment_line judgments.now) }
{
    for judgment in judgments {
        report.push_str(judgment_line(alloc, judgment)?.as_str())?;
    }
    Ok(())
}

impl CheckFindings {
    /// The report: `N accepted`, or `N refused: ` and why, for the request of each number, from 1; and then for each
    /// module that was loaded its name, and its verdict or why there is none.
    pub fn report(&self, alloc: Global) -> Result<String, AllocError>
        ensures { IfOk result (λ report. string_bytes report ≡ report_of self.now) }
    {
        let mut report = String::new(alloc);
        push_outcomes(alloc, &mut report, self.outcomes.as_slice())?;
        push_judgments(alloc, &mut report, self.judgments.as_slice())?;
        Ok(report)
    }
}
