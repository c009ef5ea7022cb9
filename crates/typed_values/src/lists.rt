//! Lists with capacity from the start.

ghost use Rattle.std.specs.Prelude.{◌≡◌, []};

use std::alloc::Global;

/// An empty list with a capacity for `count` items, so that it need not grow; without one if there is not enough memory
/// for all.
pub(crate) fn list_for<T>(alloc: Global, count: usize) -> Vec<T>
    ensures { result.items ≡ [] }
{
    match Vec::with_capacity(alloc, count) {
        Ok(list) => list,
        Err(_) => Vec::new(alloc),
    }
}
