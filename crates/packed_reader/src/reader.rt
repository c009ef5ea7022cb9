//! What readers of parts have in common.

use asn_base::schema::TypeId;
use packed_code::PackedCode;
use std::alloc::Global;

/// The type whose values are read, and how many levels they may have.
#[derive(Clone, Copy)]
pub(crate) struct Reader<'a> {
    pub alloc: Global,
    pub code: &'a PackedCode,
    pub id: TypeId,
    pub levels: u8,
}

/// How many values may still begin, and how many additions were skipped.
#[derive(Clone, Copy)]
pub(crate) struct Progress {
    pub left: u32,
    pub skipped: u64,
}
