//! Laws of the order of versions: functions that do nothing, whose contracts are theorems about the definitions.
ghost use Rattle.std.specs.Prelude.{◌≡◌, true, [], ◌∷◌, codes};
ghost use Rattle.std.specs.Cmp.{IsTotalOrder};
ghost use Rattle.modulename.specs.Versions.{version_order, EqualOnlyIfSame, HasOneGreatest, ComparesByFirstDigit};
ghost use Rattle.modulename.specs.Versions.{ascend};

/// The order of versions is total, antisymmetric and transitive, and only equal texts are equal in it. A set has one
/// greatest member at most. A run compares with another byte as its first digit does.
pub fn order_of_versions()
    ensures total { IsTotalOrder version_order }
    ensures same { EqualOnlyIfSame }
    ensures greatest { HasOneGreatest }
    ensures first_digit { ComparesByFirstDigit }
{}

/// Worked examples: each version of a list comes before the next.
pub fn rows_of_versions()
    ensures numbers { ascend (codes "01" ∷ codes "1" ∷ codes "1-0" ∷ codes "1.9" ∷ codes "1.10" ∷ codes "1.10-rc"
        ∷ codes "1.10.1" ∷ codes "2" ∷ codes "10" ∷ codes "a" ∷ codes "a.1" ∷ []) ≡ true }
    ensures zeros { ascend (codes "1" ∷ codes "01a" ∷ []) ≡ true }
    ensures long { ascend (codes "99999999999999999999998" ∷ codes "99999999999999999999999" ∷ []) ≡ true }
{}
