//! Lists that grow by one element.

ghost use Rattle.std.specs.Prelude.{◌≡◌, ◌++◌, ◌∷◌, OnOk, []};

use std::alloc::AllocError;

/// Appends one element. `AllocError` comes only if an allocation fails.
pub fn add<T: Drop>(list: &mut Vec<T>, one: T) -> Result<(), AllocError>
    ensures { OnOk result (list.new.items ≡ list.old.items ++ one ∷ []) }
{
    list.push(one)?;
    Ok(())
}
