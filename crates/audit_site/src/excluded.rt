//! Which modules are excluded by hand, so that they aren't certified.
ghost use Rattle.std.specs.Prelude.{◌≡◌, map, string_bytes};
ghost use Rattle.audit_laws.specs.site.Sites as sites;

use modulename::means;

/// Whether one of the names that are given means a module of this name, so that it is excluded.
pub(crate) fn is_excluded(without: &[String], name: &str) -> bool
    ensures { result ≡ sites.is_excluded (map string_bytes without.now) name.now }
{
    without.iter().any(|given| means(given.as_str(), name))
}
