//! A path variable in hand, and the two texts that it is written as.

use indexmap::IndexMap;

/// How often each element was added, from 1 to 4294967295.
pub type Counters<'a> = IndexMap<&'a str, u32>;

/// A path variable that was read: its elements, and a counter for each of them and for nothing else.
pub struct Path<'a> {
    /// The elements, in order.
    pub elements: Vec<&'a str>,
    /// How often each of them was added.
    pub counters: Counters<'a>,
}

// Not derived: it is dropped by one call, so a proof needn't look into the table of counters at each exit.
impl<'a> Drop for Path<'a> {
    fn drop(self) {
        let Path {
            elements: _elements,
            counters: _counters,
        } = self;
    }
}

/// The texts of a path variable and of its counters; no text unsets that variable.
#[derive(Drop)]
pub struct PathTexts {
    /// The text of the variable; none unsets it.
    pub elements: Option<String>,
    /// The text of its counters; none unsets that variable.
    pub counters: Option<String>,
}
