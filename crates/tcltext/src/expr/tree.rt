//! The tree of an expression: operators over operands.
ghost use Rattle.std.specs.Prelude.{◌≡◌};

use crate::expr::operators::{BinaryOperator, UnaryOperator};
use crate::script::{Part, Script};

/// An operand, made of pieces of the expression's text.
#[derive(Debug, Drop)]
pub enum Operand<P> {
    /// A number, as it is spelled.
    Number(P),
    /// A truth word, as it is spelled.
    Word(P),
    /// The name of a variable.
    Variable(P),
    /// The name of an array, and the parts of an index.
    Indexed(P, Vec<Part<P>>),
    /// A script whose result is the operand.
    Bracket(Script<P>),
    /// The parts between quotes.
    Quoted(Vec<Part<P>>),
    /// The text between braces, as it is.
    Braced(P),
}

/// An expression. Parentheses leave no node.
#[derive(Debug, Drop)]
pub enum Expr<P> {
    /// An operand.
    Operand(Operand<P>),
    /// An operator before its operand.
    Unary(UnaryOperator, Box<Expr<P>>),
    /// An operator between its operands, both of which are evaluated.
    Binary(BinaryOperator, Box<Expr<P>>, Box<Expr<P>>),
    /// `&&`
    And(Box<Expr<P>>, Box<Expr<P>>),
    /// `||`
    Or(Box<Expr<P>>, Box<Expr<P>>),
    /// `? :`
    Choice(Box<Expr<P>>, Box<Expr<P>>, Box<Expr<P>>),
}

/// An expression, with how deep operators, parentheses and brackets nest in it.
pub(crate) struct WithHeight<P> {
    /// The expression.
    pub tree: Expr<P>,
    /// How deep operators, parentheses and brackets nest in it.
    pub height: usize,
}

impl<P> WithHeight<P> {
    /// The expression without its height.
    pub fn into_tree(self) -> Expr<P>
        ensures { result ≡ self.tree }
    {
        let WithHeight {
            tree,
            height: _height,
        } = self;
        tree
    }
}

// Not derived, so that it is dropped by one call, and no proof of a reader opens its tree at each exit.
impl<P: Drop> Drop for WithHeight<P> {
    fn drop(self) {
        let WithHeight {
            tree: _tree,
            height: _height,
        } = self;
    }
}
