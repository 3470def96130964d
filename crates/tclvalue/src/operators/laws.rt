//! Theorems of integer arithmetic: quotient and remainder, and the operators of bits (expr(n), OPERATORS).
ghost use Rattle.std.specs.Prelude.{◌≡◌, ◌&&◌, ◌||◌, ℕ, ℤ, ◌+ℤ◌, ◌*ℤ◌, false, not};
ghost use Rattle.tcltext.specs.chars.Division.{quotient};
ghost use Rattle.tclvalue.specs.operators.Numbers.{remainder, IsRemainder, is_zero, bitwise_and, bitwise_or, bitwise_xor};
ghost use Rattle.tclvalue.specs.operators.Numbers.{bitwise_not, has_bit, exactly_one, MakesEachBit, IsDeterminedByBits};

/// A quotient and its remainder make up the dividend, and the remainder has the divisor's sign and is nearer to 0. So
/// the quotient is rounded down.
pub fn division()
    ensures whole { (a b : ℤ) → quotient a b *ℤ b +ℤ remainder a b ≡ a }
    ensures rest { (a b : ℤ) → is_zero b ≡ false → IsRemainder b (remainder a b) }
{}

/// `&`, `|` and `^` of two numbers of 64 bits make a number of 64 bits, bit by bit: a bit is set where it is in both,
/// in either, in just one. `~` sets the bits that a number doesn't have. A number of 64 bits is given by its bits.
pub fn bits()
    ensures both { MakesEachBit (λ x y. x && y) bitwise_and }
    ensures either { MakesEachBit (λ x y. x || y) bitwise_or }
    ensures one { MakesEachBit exactly_one bitwise_xor }
    ensures others { (a : ℤ) (k : ℕ) → has_bit (bitwise_not a) k ≡ not (has_bit a k) }
    ensures given { IsDeterminedByBits }
{}
