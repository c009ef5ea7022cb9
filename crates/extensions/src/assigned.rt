//! Value assignments.

ghost use Rattle.std.specs.Prelude.{◌≡◌, ◌<◌, Some, OnOk, IfErr, length, slice_get, map};
ghost use Rattle.names.specs.Sources.{value_seen};
ghost use Rattle.type_table.specs.Lists.{AreSound};
ghost use Rattle.typed_values.specs.Known.{AreKnown};
ghost use Rattle.extensions.specs.Faults.{IsFirstValue, IsTypedValue};
ghost use Rattle.extensions.specs.SchemaOfModules.{AreTypedValues};
ghost use Rattle.extensions.specs.proving.Tables.{IsWrongValue, Reports};

use crate::wrong::{Wrong, judged};
use asn_base::schema::TypeId;
use constraints::Bounded;
use names::ValueAt;
use std::alloc::Global;
use typed_values::{Defaults, ValueSite};

/// Checks that the notation of this value assignment is that of a value of its type.
fn is_typed<'a>(
    alloc: Global,
    bounded: &Bounded<'a>,
    defaults: &mut Defaults,
    number: usize,
    value: &'a ValueAt,
) -> Result<(), Wrong<'a>>
    requires is { slice_get bounded.now.program.values number ≡ Some (value_seen value.now) }
    requires text { slice_get bounded.now.values number ≡ Some value.now }
    requires sound { AreSound bounded.now.program.types }
    requires known { AreKnown bounded.now.program defaults.old }
    ensures typed { OnOk result (IsTypedValue bounded.now.program number) }
    ensures fault { IfErr result (Reports (IsWrongValue bounded.now number)) }
    ensures known { AreKnown bounded.now.program defaults.new }
{
    let linked = bounded.linked();
    linked.lemma_whole();
    let home = linked.assigned(value.assignment);
    let at = ValueSite {
        ty: TypeId { index: value.ty },
        within: home.module,
        notation: &value.syntax,
    };
    match judged(alloc, bounded, defaults, at) {
        Ok(()) => Ok(()),
        Err(wrong) => Err(wrong),
    }
}

/// Checks that the notation of each value assignment is that of a value of its type (X.680, 16.2). The error is the
/// fault of the first one that isn't, or `Memory`.
pub(crate) fn all_typed<'a>(
    alloc: Global,
    bounded: &Bounded<'a>,
    defaults: &mut Defaults,
    values: &'a [ValueAt],
) -> Result<(), Wrong<'a>>
    requires is { map value_seen values.now ≡ bounded.now.program.values }
    requires text { values.now ≡ bounded.now.values }
    requires sound { AreSound bounded.now.program.types }
    requires known { AreKnown bounded.now.program defaults.old }
    ensures typed { OnOk result (AreTypedValues bounded.now.program) }
    ensures fault { IfErr result (Reports (IsFirstValue bounded.now)) }
    ensures known { AreKnown bounded.now.program defaults.new }
{
    for number in 0..values.len() {
        match is_typed(alloc, bounded, defaults, number, &values[number]) {
            Ok(()) => {}
            Err(wrong) => return Err(wrong),
        }
    }
    Ok(())
}
