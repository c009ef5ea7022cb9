//! Room for one more element of a list.

ghost use Rattle.std.specs.Prelude.{◌≡◌, ◌<◌, ◌++◌, ◌∷◌, [], OnErr, OnOk, vec_capacity, vec_len};

use std::alloc::AllocError;

/// How many more elements a full list makes room for, at least. Few messages have more nodes, values or headers open.
const FEW: usize = 16;

/// Makes room for one more element, if there is none. `AllocError` only if an allocation fails.
#[inline(always)]
fn make_room<T: Drop>(list: &mut Vec<T>) -> Result<(), AllocError>
    ensures room { OnOk result (vec_len list.new < vec_capacity list.new) }
    ensures items { list.new.items ≡ list.old.items }
{
    if list.len() >= list.capacity() {
        list.reserve(FEW)?;
    }
    Ok(())
}

/// Adds an element. `AllocError` only if an allocation fails; then nothing is added. The test for room is a part of the
/// caller, which `push` isn't.
#[inline(always)]
pub fn add_one<T: Drop>(list: &mut Vec<T>, one: T) -> Result<(), AllocError>
    ensures ok { OnOk result (list.new.items ≡ list.old.items ++ one ∷ []) }
    ensures same { OnErr result (list.new.items ≡ list.old.items) }
{
    make_room(list)?;
    list.push_reserved(one);
    Ok(())
}
