//! Values of types that hold no other types.

ghost use Rattle.std.specs.Prelude.{◌<◌, ◌≡◌, ℕ, suc, List, length};
ghost use Rattle.trees.specs.Types.{plain_of};
ghost use Rattle.trees.specs.Values.{Name};
ghost use Rattle.type_table.specs.Lists.{IsSoundPlain};
ghost use Rattle.type_table.specs.Table.{simple as simple'};
ghost use Rattle.range_ends.specs.Ends.{IsTypeOfKind};
ghost use Rattle.value_notations.specs.Written.{IsLastAt};
ghost use Rattle.typed_values.specs.Faults.{HasKindIn};
ghost use Rattle.typed_values.specs.proving.Reading.{Reports};

use crate::fault::{Cause, ValueFault, ValueSite, leaf_cause};
use crate::followed::LastNotation;
use crate::written::written;
use asn_base::value::Value;
use std::alloc::Global;
use trees::Simple;
use value_notations::leaves::leaf;
use values::constraints::Bounded;
use values::is_allowed;

/// The value of a notation under a type that holds no other types. The references of the notation lead to `last`.
pub(crate) fn simple_value<'a>(
    alloc: Global,
    bounded: &Bounded<'a>,
    at: ValueSite<'a>,
    simple: &Simple,
    last: LastNotation<'a>,
) -> Result<Value, ValueFault<'a>>
    requires there { at.ty.index < length bounded.now.program.types }
    requires sound { IsSoundPlain (plain_of simple.now) }
    requires is { IsTypeOfKind bounded.now.program.types at.ty.index (simple' (plain_of simple.now)) }
    ensures { (levels left : ℕ) (os ps : List ℕ) (N : Name)
        → HasKindIn bounded.now.program at.entry.ty.index (simple' (plain_of simple.now)) N
        → IsLastAt bounded.now (simple' (plain_of simple.now)) os at.entry.within.now at.entry.notation.now ps
        last.entry.within.now last.entry.notation.now
        → Reports bounded.now (suc levels) left os at.entry.within.now at.entry.ty.index at.entry.notation.now
        last.entry.within.now last.entry.notation.now result }
{
    let linked = bounded.linked();
    let (shape, _home) = written(linked, at.ty);
    let value = match leaf(alloc, &shape, last.notation) {
        Ok(value) => value,
        Err(fault) => {
            let cause = leaf_cause(fault, last.within);
            return Err(ValueFault { at, cause });
        }
    };
    if is_allowed(bounded, at.ty, simple, &value) {
        Ok(value)
    } else {
        let cause = Cause::Outside;
        Err(ValueFault { at, cause })
    }
}
