//! The work that a machine still has to do.

use asn_base::schema::TypeId;
use asn_base::value::Value;
use codec_code::{Code, Step};

/// The work that is left for a part of a value. It is the rest of a routine's steps, the rest of a list's elements, the
/// rest of a SET OF's members, or the end of a member with its rank.
#[derive(Clone, Copy)]
pub(crate) enum Frame<'a> {
    Routine(TypeId, &'a [Step], &'a Value),
    Elements(TypeId, &'a [Value]),
    SortedElements(TypeId, &'a [Value]),
    MemberEnd(usize),
}

/// The rest of a routine: the type that it encodes, the steps that are left, and the value over which they run.
#[derive(Clone, Copy)]
pub(crate) struct RoutineRest<'a> {
    pub code: &'a Code,
    pub id: TypeId,
    pub steps: &'a [Step],
    pub value: &'a Value,
}
