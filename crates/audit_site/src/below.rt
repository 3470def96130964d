//! The modules below a directory of a site, evaluated in turn.
ghost use Rattle.std.specs.Prelude.{◌≡◌, ◌<◌, [], ◌∷◌, IfOk, IfErr, map, string_bytes};
ghost use Rattle.filetree.specs.Agreement.{FailsWhere, InEachPair, ReadsOn};
ghost use Rattle.filetree.specs.Modulefiles.{directories};
ghost use Rattle.modules.specs.Answers.{is_failure};
ghost use Rattle.search.specs.ListingEntries.{name_of};
ghost use Rattle.audit_laws.specs.site.Sites.{site_of, AreNamesBelow};
ghost use Rattle.audit_site.specs.WalkLooked.{DirectoryLooksAt};
ghost use Rattle.audit_site.specs.WalkParts.{HasLoaded, AreEvaluationsBelow, GivesUp};

use crate::files::{SiteSettings, evaluate_module};
use crate::progress::WalkProgress;
use crate::walk::Evaluation;
use filetree::Tree;
use lookup::EvaluatedDefaultFiles;
use modules::Refusal;
use search::{ListingEntry, available};

/// The modules below a directory, in the order of `avail`.
///
/// Errors: a device that failed; want of memory.
fn modules_below<T: Tree>(
    settings: SiteSettings<'_>,
    tree: &mut T,
    dir: &str,
) -> Result<Vec<ListingEntry>, Refusal>
    ensures reads { ReadsOn T.agrees T.failures tree.old tree.new }
    ensures listed { directories dir.now ≡ dir.now ∷ [] → IfOk result (λ entries.
        InEachPair (T.agrees tree.new) (λ files listings.
        AreNamesBelow (site_of settings.entry.limits settings.entry.env.now files listings) dir.now
        (map name_of entries.items))) }
    ensures cause { IfErr result (GivesUp (T.failures tree.old < T.failures tree.new)) }
    ensures failed { FailsWhere is_failure T.agrees T.failed tree.old tree.new result (λ files listings at.
        directories dir.now ≡ dir.now ∷ []
        → DirectoryLooksAt (site_of settings.entry.limits settings.entry.env.now files listings) dir.now at) }
{
    audit_laws::site::laws::walks();
    let default_files = EvaluatedDefaultFiles {
        limits: settings.limits,
    };
    let mut listings = available(settings.alloc, tree, &default_files, dir)?;
    match listings.pop() {
        Some(listing) => Ok(listing.modules),
        None => Ok(Vec::new(settings.alloc)),
    }
}

/// Evaluates each module below a directory, in the order of `avail`, where so many were evaluated before.
///
/// Errors: a device that failed; want of memory.
pub(crate) fn evaluate_below<T: Tree, P: WalkProgress>(
    settings: SiteSettings<'_>,
    tree: &mut T,
    dir: &str,
    before: usize,
    progress: &mut P,
) -> Result<Vec<Evaluation>, Refusal>
    requires { HasLoaded settings.env.now }
    ensures reads { ReadsOn T.agrees T.failures tree.old tree.new }
    ensures evaluated { directories dir.now ≡ dir.now ∷ [] → IfOk result (λ evaluations.
        InEachPair (T.agrees tree.new) (λ files listings.
        AreEvaluationsBelow (site_of settings.entry.limits settings.entry.env.now files listings) dir.now
        evaluations.items)) }
    ensures cause { IfErr result (GivesUp (T.failures tree.old < T.failures tree.new)) }
    ensures failed { FailsWhere is_failure T.agrees T.failed tree.old tree.new result (λ files listings at.
        directories dir.now ≡ dir.now ∷ []
        → DirectoryLooksAt (site_of settings.entry.limits settings.entry.env.now files listings) dir.now at) }
{
    let entries = modules_below(settings, tree, dir)?;
    let found = before.saturating_add(entries.len());
    let mut evaluations = Vec::new(settings.alloc);
    for entry in &entries {
        evaluations.push(evaluate_module(settings, tree, dir, entry.name.as_str())?)?;
        progress.evaluated(before.saturating_add(evaluations.len()), found);
    }
    Ok(evaluations)
}
