//! The form of an encoding (X.690, 8.1.2.5).

/// Whether contents are the value's own octets, or further encodings.
#[derive(Clone, Copy, Debug, PartialEq, Eq)]
pub enum Form {
    /// The contents are the value's own octets.
    Primitive,
    /// The contents are encodings, each with its header.
    Constructed,
}
