//! Which properties of an account are checked.

/// Which properties of an account are checked in addition to its shape.
#[derive(Clone, Copy, Debug, PartialEq, Eq)]
pub struct Checks {
    /// A component is left out exactly if its value is the same as its DEFAULT (X.690, 11.5).
    pub omitted: bool,
    /// The numbers of each header are right.
    pub numbers: bool,
    /// The places in SET and SET OF are a permutation beside its inverse.
    pub places: bool,
    /// Each header is at its place in the octets.
    pub headers: bool,
    /// The contents of each value without other values in it are at their place in the octets.
    pub contents: bool,
}
