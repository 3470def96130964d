//! The operators of expressions, and how they are spelled (expr(n), OPERATORS).
ghost use Rattle.std.specs.Prelude.{◌≡◌};
ghost use Rattle.tcltext.specs.expr.Symbols.{unary_symbol, binary_symbol};

/// An operator before its one operand.
#[derive(Clone, Copy, Debug, PartialEq, Eq)]
pub enum UnaryOperator {
    /// `-`
    Minus,
    /// `+`
    Plus,
    /// `~`
    Complement,
    /// `!`
    Not,
}

/// An operator between two operands that evaluates both.
#[derive(Clone, Copy, Debug, PartialEq, Eq)]
pub enum BinaryOperator {
    /// `*`
    Multiply,
    /// `/`
    Divide,
    /// `%`
    Remainder,
    /// `+`
    Add,
    /// `-`
    Subtract,
    /// `<<`
    ShiftLeft,
    /// `>>`
    ShiftRight,
    /// `<`
    Less,
    /// `>`
    Greater,
    /// `<=`
    LessEqual,
    /// `>=`
    GreaterEqual,
    /// `==`
    Equal,
    /// `!=`
    NotEqual,
    /// `eq`
    TextEqual,
    /// `ne`
    TextNotEqual,
    /// `in`
    In,
    /// `ni`
    NotIn,
    /// `&`
    BitAnd,
    /// `^`
    BitXor,
    /// `|`
    BitOr,
}

impl UnaryOperator {
    /// How the operator is spelled.
    pub fn symbol(self) -> &'static str
        ensures { result.now ≡ unary_symbol self }
    {
        match self {
            UnaryOperator::Minus => "-",
            UnaryOperator::Plus => "+",
            UnaryOperator::Complement => "~",
            UnaryOperator::Not => "!",
        }
    }
}

impl BinaryOperator {
    /// How the operator is spelled.
    pub fn symbol(self) -> &'static str
        ensures { result.now ≡ binary_symbol self }
    {
        match self {
            BinaryOperator::Multiply => "*",
            BinaryOperator::Divide => "/",
            BinaryOperator::Remainder => "%",
            BinaryOperator::Add => "+",
            BinaryOperator::Subtract => "-",
            BinaryOperator::ShiftLeft => "<<",
            BinaryOperator::ShiftRight => ">>",
            BinaryOperator::Less => "<",
            BinaryOperator::Greater => ">",
            BinaryOperator::LessEqual => "<=",
            BinaryOperator::GreaterEqual => ">=",
            BinaryOperator::Equal => "==",
            BinaryOperator::NotEqual => "!=",
            BinaryOperator::TextEqual => "eq",
            BinaryOperator::TextNotEqual => "ne",
            BinaryOperator::In => "in",
            BinaryOperator::NotIn => "ni",
            BinaryOperator::BitAnd => "&",
            BinaryOperator::BitXor => "^",
            BinaryOperator::BitOr => "|",
        }
    }
}

/// What may be between two operands, except the question mark and colon of a choice.
#[derive(Clone, Copy, Debug, PartialEq, Eq)]
pub enum Infix {
    /// An operator that evaluates both operands.
    Operator(BinaryOperator),
    /// `&&`
    And,
    /// `||`
    Or,
}

/// A token of an expression that is no operand.
#[derive(Clone, Copy, Debug, PartialEq, Eq)]
pub enum Mark {
    /// `(`
    Open,
    /// `)`
    Close,
    /// `?`
    QuestionMark,
    /// `:`
    Colon,
    /// `~`
    Complement,
    /// `!`
    Not,
    /// An operator between two operands. `+` and `-` may also come before one.
    Infix(Infix),
}
