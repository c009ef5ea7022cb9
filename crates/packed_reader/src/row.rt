//! Components at their places.

ghost use Rattle.asn_base.specs.Abstract.{abstract};
ghost use Rattle.asn_base.specs.Types.{Component};
ghost use Rattle.packed_reader.specs.Structures.{no_row, with_value};
ghost use Rattle.packed_reader.specs.proving.Code.{row_of_values};
ghost use Rattle.std.specs.Prelude.{◌≡◌, ◌<◌, IfOk, List, length};

use asn_base::value::Value;
use std::alloc::{AllocError, Global};

/// A row of so many components, of which none is present.
#[inline(always)]
pub(crate) fn empty_row(alloc: Global, count: usize) -> Result<Vec<Option<Value>>, AllocError>
    ensures row { IfOk result (λ v. (cs : List Component) → length cs ≡ count → row_of_values v.items ≡ no_row cs) }
    ensures length { IfOk result (λ v. length v.items ≡ count) }
{
    let mut row = Vec::with_capacity(alloc, count)?;
    for _i in 0..count {
        row.push(None)?;
    }
    Ok(row)
}

/// Puts a value at the place of its component.
#[inline(always)]
pub(crate) fn put(row: &mut Vec<Option<Value>>, place: usize, value: Value)
    requires { place < length row.old.items }
    ensures row { row_of_values row.new.items ≡ with_value place (abstract value) (row_of_values row.old.items) }
    ensures length { length row.new.items ≡ length row.old.items }
{
    row[place] = Some(value);
}
