//! A header that isn't among the open ones.

use asn_base::tag::Tag;

/// The header of a SEQUENCE while its components are added. A backend has it apart from its open headers. `place` and
/// `row` are the backend's own.
#[derive(Clone, Copy)]
pub struct OpenRow {
    pub tag: Tag,
    pub constructed: bool,
    pub place: usize,
    pub row: usize,
}
