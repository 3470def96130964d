//! Why an environment doesn't agree with a certificate.
use modulefile::Delimiter;

/// Why an environment doesn't agree with a certificate.
#[derive(Debug, Drop)]
pub enum Disagreement {
    /// The texts of its loaded modules aren't in order.
    LoadedTexts,
    /// It has the variable set, which a module sets.
    IsSet(String),
    /// It has not this value of the variable, which a module unsets.
    HasNotValue { variable: String, value: String },
    /// It has the variable set, which modules keep absent.
    IsNotAbsent(String),
    /// The variable, which modules use as a path with this delimiter, isn't in order as one.
    PathNotInOrder { variable: String, delim: Delimiter },
    /// The variable, which modules use as a stack, isn't in order as one.
    StackNotInOrder(String),
}
