//! The law of numbers in expressions: a function that does nothing, whose contract is a theorem about the definitions.
ghost use Rattle.std.specs.Prelude.{◌≡◌, ◌++◌, Some, None};
ghost use Rattle.tcltext.specs.chars.Runs.{Text};
ghost use Rattle.tcltext.specs.expr.Operands.{after_number};
ghost use Rattle.tcltext.specs.chars.Numbers.{IsNumber, IsNumberIn};

/// A number in an expression is the longest prefix that is a number; and where none is read, no prefix is one.
pub fn number_in_expression()
    ensures found { (bs rest : Text) → after_number bs ≡ Some rest → IsNumberIn bs rest }
    ensures none { (bs number rest : Text) → after_number bs ≡ None → bs ≡ number ++ rest → IsNumber number → ⊥ }
{}
