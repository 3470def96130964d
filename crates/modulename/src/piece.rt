//! Versions cut into pieces: runs of digits, and other bytes.
ghost use Rattle.std.specs.Prelude.{◌≡◌, ◌∷◌, [], ◌<◌, length, MatchOption, IfSome};
ghost use Rattle.modulename.specs.Versions.{pieces, piece_order};
ghost use Rattle.modulename.specs.DigitRuns.{IsPiece, piece_view};

use crate::digits::{order_of_numbers, split_digits};
use std::cmp::Ordering;

/// A piece of a version.
#[derive(Clone, Copy)]
pub(crate) enum Piece<'a> {
    /// A run of digits, as long as it can be.
    Run(&'a [u8]),
    /// A byte that is no digit.
    Other(u8),
}

impl Piece<'_> {
    /// The order of two pieces: runs by their numbers, other bytes by their codes, and a run beside another byte by a
    /// digit.
    pub(crate) fn order(self, other: Piece<'_>) -> Ordering
        requires left { IsPiece self }
        requires right { IsPiece other }
        ensures { result ≡ piece_order (piece_view self.entry) (piece_view other.entry) }
    {
        match (self, other) {
            (Piece::Run(left), Piece::Run(right)) => order_of_numbers(left, right),
            (Piece::Run(_), Piece::Other(byte)) => b'0'.cmp(&byte),
            (Piece::Other(byte), Piece::Run(_)) => byte.cmp(&b'0'),
            (Piece::Other(left), Piece::Other(right)) => left.cmp(&right),
        }
    }
}

/// The first piece of a version, and the rest of it; none of the empty version.
pub(crate) fn split_piece(version: &[u8]) -> Option<(Piece<'_>, &[u8])>
    ensures piece { MatchOption result (pieces version.now ≡ [])
        (λ p. pieces version.now ≡ piece_view p.0 ∷ pieces p.1.now) }
    ensures kind { IfSome result (λ p. IsPiece p.0) }
    ensures shorter { IfSome result (λ p. length p.1.now < length version.now) }
{
    let [first, rest @ ..] = version else {
        return None;
    };
    if !first.is_ascii_digit() {
        return Some((Piece::Other(*first), rest));
    }
    let (digits, rest) = split_digits(version);
    Some((Piece::Run(digits), rest))
}
