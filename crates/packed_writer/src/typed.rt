//! Values with their types.

use asn_base::schema::TypeId;
use asn_base::value::Value;

/// A value of a type, with at most this number of levels.
#[derive(Clone, Copy)]
pub(crate) struct Typed<'a> {
    pub id: TypeId,
    pub value: &'a Value,
    pub levels: usize,
}

/// Elements of a type, each with at most this number of levels.
#[derive(Clone, Copy)]
pub(crate) struct Elements<'a> {
    pub id: TypeId,
    pub values: &'a [Value],
    pub levels: usize,
}
