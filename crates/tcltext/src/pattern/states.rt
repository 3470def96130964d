//! A set of the rests of a pattern, as bits: each rest is named by the number of its characters.
ghost use Rattle.std.specs.Prelude.{◌≡◌, ◌≢◌, ℕ, ◌*◌, ◌<◌, ◌↔◌, length, IsTrue};
ghost use Rattle.std.specs.Int.{bit_at};
ghost use Rattle.tcltext.specs.pattern.Search.States.{Has};

/// Whether the bit at the index is set.
pub(crate) fn has(states: &[u64], at: usize) -> bool
    requires { at < 64 * length states.now }
    ensures { IsTrue result ↔ Has states.now at }
{
    (states[at / 64] >> (at % 64)) & 1 == 1
}

/// The word with the bit set or cleared.
fn with_bit(word: u64, at: usize, value: bool) -> u64
    requires { at < 64 }
    ensures here { (bit_at result at ≡ 1) ↔ IsTrue value }
    ensures elsewhere { (k : ℕ) → k < 64 → k ≢ at → bit_at result k ≡ bit_at word k }
{
    let bit = 1u64 << at;
    if value { word | bit } else { word & !bit }
}

/// Sets the bit at the index, or clears it.
pub(crate) fn put(states: &mut [u64], at: usize, value: bool)
    requires { at < 64 * length states.old }
    ensures len { length states.new ≡ length states.old }
    ensures here { Has states.new at ↔ IsTrue value }
    ensures elsewhere { (k : ℕ) → k ≢ at → Has states.new k ↔ Has states.old k }
{
    states[at / 64] = with_bit(states[at / 64], at % 64, value);
}
