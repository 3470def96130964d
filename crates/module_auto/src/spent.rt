//! Which names are put in no more.
ghost use Rattle.std.specs.Prelude.{◌≡◌, map, string_bytes};
ghost use Rattle.envvars.specs.Texts.{has};
ghost use Rattle.module_auto.specs.Adding.{is_spent};

/// How many names are put in at most.
const MOST_ADDED: usize = 1_000;

/// Whether the name is among those that were put in.
fn was_added(name: &str, added: &[String]) -> bool
    ensures { result ≡ has name.now (map string_bytes added.now) }
{
    added.iter().any(|known| name == known.as_str())
}

/// Whether the name was put in already, or as many names were as can be.
pub(crate) fn is_spent(name: &str, added: &[String]) -> bool
    ensures { result ≡ is_spent name.now (map string_bytes added.now) }
{
    added.len() >= MOST_ADDED || was_added(name, added)
}
