//! Words that differ by one slip of the hand.
ghost use Rattle.std.specs.Prelude.{◌≡◌};
ghost use Rattle.module_words.specs.subcommands.Nearness as spec;

/// Whether both begin with the same two bytes, in the other order, and go on alike.
fn are_exchanged(word: &[u8], name: &[u8]) -> bool
    ensures { result ≡ spec.are_exchanged word.now name.now }
{
    let [a, b, word @ ..] = word else {
        return false;
    };
    let [c, d, name @ ..] = name else {
        return false;
    };
    a == d && b == c && word == name
}

/// Whether a first byte is left out of the word, is too many in it or is another one, or the first two are exchanged.
fn is_slip(word: &[u8], rest: &[u8], name: &[u8], others: &[u8]) -> bool
    ensures { result ≡ spec.is_slip word.now rest.now name.now others.now }
{
    word == others || rest == name || rest == others || are_exchanged(word, name)
}

/// Whether one byte is left out of the word, is too many in it or is another one, or two neighbours are exchanged, or
/// they are equal.
pub fn differ_by_one(word: &[u8], name: &[u8]) -> bool
    ensures { result ≡ spec.differ_by_one word.now name.now }
{
    let [c, rest @ ..] = word else {
        return name.len() <= 1;
    };
    let [d, others @ ..] = name else {
        return rest.is_empty();
    };
    if c == d && differ_by_one(rest, others) {
        return true;
    }
    is_slip(word, rest, name, others)
}
