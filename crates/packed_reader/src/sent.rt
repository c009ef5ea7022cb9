//! Components with the bits that say whether they are present.

use packed_code::PackedField;

/// A component, and whether it is present.
#[derive(Clone, Copy)]
pub(crate) struct Sent {
    pub field: PackedField,
    pub present: bool,
}
