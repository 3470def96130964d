//! The order of versions, by which the greatest version of a module is its default.
ghost use Rattle.std.specs.Prelude.{◌≡◌, ◌≢◌, ◌≤◌, ℕ, Option, IfSome, drop, length};
ghost use Rattle.std.specs.declared.cmp.Ordering.TheVariants.{Equal};
ghost use Rattle.std.specs.Cmp.Lexicographic.{slice_cmp};
ghost use Rattle.modulename.specs.Versions.{pieces, pieces_after, piece_order, version_order};

use crate::digits::digit_count;
use crate::piece::split_piece;
use std::cmp::Ordering;

/// The order of two versions. A version is cut into runs of ASCII digits, as long as they can be, and single other
/// characters. Two runs compare as whole numbers of any length; a run and a character, and two characters, by code
/// point, the run by its first digit. A proper prefix comes first. Where all pieces are equal, as in `1` and `01`, the
/// bytes decide.
///
/// It is a total order, equal only for equal texts, and takes no memory.
pub fn version_order(left: &str, right: &str) -> Ordering
    ensures { result ≡ version_order left.now right.now }
{
    let (left, right) = (left.as_bytes(), right.as_bytes());
    let common = common_start(left, right);
    if let Some(order) = order_of_next(&left[common.bytes..], &right[common.bytes..]) {
        return order;
    }
    match order_of_pieces(&left[common.pieces..], &right[common.pieces..]) {
        Ordering::Equal => left.cmp(right),
        order => order,
    }
}

/// How far two versions are the same.
#[derive(Clone, Copy)]
struct CommonStart {
    /// How many bytes both begin with.
    bytes: usize,
    /// How many of them, up to the last that is no digit.
    pieces: usize,
}

/// How far two versions are the same. By their pieces, what follows is in the order of the versions.
fn common_start(left: &[u8], right: &[u8]) -> CommonStart
    ensures left { result.bytes ≤ length left.now }
    ensures right { result.bytes ≤ length right.now }
    ensures within { result.pieces ≤ result.bytes }
    ensures pieces { slice_cmp piece_order (pieces left.now) (pieces right.now)
        ≡ slice_cmp piece_order (pieces (drop result.pieces left.now)) (pieces (drop result.pieces right.now)) }
    ensures next { (o : Option ℕ) × (slice_cmp piece_order (pieces left.now) (pieces right.now)
        ≡ slice_cmp piece_order (pieces_after o (drop result.bytes left.now))
        (pieces_after o (drop result.bytes right.now))) }
{
    let mut start = 0;
    let mut same = 0;
    while same < left.len() && same < right.len() && left[same] == right[same] {
        let is_digit = left[same].is_ascii_digit();
        same += 1;
        if !is_digit {
            start = same;
        }
    }
    CommonStart {
        bytes: same,
        pieces: start,
    }
}

/// The order of what follows in two versions after the same bytes, where the next byte decides: it differs, and as many
/// digits follow in both.
fn order_of_next(left: &[u8], right: &[u8]) -> Option<Ordering>
    ensures order { IfSome result (λ order. (o : Option ℕ)
        → slice_cmp piece_order (pieces_after o left.now) (pieces_after o right.now) ≡ order) }
    ensures unequal { IfSome result (λ order. order ≢ Equal) }
{
    let ([next, ..], [other, ..]) = (left, right) else {
        return None;
    };
    if next == other || digit_count(left) != digit_count(right) {
        return None;
    }
    Some(next.cmp(other))
}

/// The order of two versions by their pieces, one after another; a proper prefix comes first.
fn order_of_pieces(left: &[u8], right: &[u8]) -> Ordering
    ensures { result ≡ slice_cmp piece_order (pieces left.now) (pieces right.now) }
{
    let mut left_rest = left;
    let mut right_rest = right;
    loop {
        match (split_piece(left_rest), split_piece(right_rest)) {
            (None, None) => return Ordering::Equal,
            (None, Some(_)) => return Ordering::Less,
            (Some(_), None) => return Ordering::Greater,
            (Some((first, after_first)), Some((second, after_second))) => {
                let order = first.order(second);
                if order.is_ne() {
                    return order;
                }
                left_rest = after_first;
                right_rest = after_second;
            }
        }
    }
}
