//! What the steps of building a schema have in common.

use constraints::Bounded;
use std::alloc::Global;

/// What every step of building a schema needs: where memory is from, and the modules.
#[derive(Clone, Copy)]
pub(crate) struct Builder<'b, 'a> {
    pub alloc: Global,
    pub bounded: &'b Bounded<'a>,
}
