//! Laws of braces and of numbers: functions that do nothing, whose contracts are theorems about the definitions.
ghost use Rattle.std.specs.Prelude.{◌≡◌, ◌↔◌, ◌∷◌, ◌++◌, false, Some, ◌≢◌, ℕ, Bool};
ghost use Rattle.tcltext.specs.chars.Runs.{Text};
ghost use Rattle.tcltext.specs.chars.Bytes.{right_brace};
ghost use Rattle.tcltext.specs.chars.Braces.{Balanced, braced_at};
ghost use Rattle.tcltext.specs.declared.chars.number.Numeral.TheVariants as numerals;
ghost use Rattle.tcltext.specs.chars.Numerals.{whole_of, numeral};
ghost use Rattle.tcltext.specs.chars.Numbers.{IsWhole, IsFractional};

/// The brace that closes is the first one after a text whose braces match.
pub fn closing_brace()
    ensures { (bs inside rest : Text) → (braced_at false 0 bs ≡ Some (inside, rest))
        ↔ ((bs ≡ inside ++ right_brace ∷ rest) × Balanced inside) }
{}

/// A text that is a whole number has the class of one, with its value where that has 64 bits; and a text with that
/// class is one.
pub fn numeral_of_whole()
    ensures value { (t : Text) (minus : Bool) (n : ℕ) → IsWhole t minus n → numeral t ≡ whole_of minus n }
    ensures only { (t : Text) → numeral t ≢ numerals.Fraction → numeral t ≢ numerals.Text
        → (minus : Bool) × (n : ℕ) × IsWhole t minus n }
{}

/// A text has the class of a fraction exactly where it is a number with one.
pub fn numeral_of_fraction()
    ensures { (t : Text) → (numeral t ≡ numerals.Fraction) ↔ IsFractional t }
{}
