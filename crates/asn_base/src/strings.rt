//! The string types whose characters have one octet each (X.680, 41).

/// The four string types whose characters have one octet each.
#[derive(Clone, Copy, PartialEq, Eq, Debug)]
pub enum StringKind {
    Numeric,
    Printable,
    Ia5,
    Visible,
}
