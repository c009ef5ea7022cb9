//! The result of reading a notation that isn't one of a value.

ghost use Rattle.std.specs.Prelude.{◌≡◌, ◌<◌, ℕ, [], false, true, IfOk, IfErr, OnOk, length};
ghost use Rattle.asn_base.specs.Abstract.{abstract};
ghost use Rattle.trees.specs.declared.value.ValueSyntax.{ValueSyntax as ValueSyntax'};
ghost use Rattle.trees.specs.Values.{Name, tree_of};
ghost use Rattle.type_table.specs.Lists.{AreSound};
ghost use Rattle.resolve.specs.Program.{WrittenProgram};
ghost use Rattle.typed_values.specs.declared.fault.Cause.TheVariants as causes;
ghost use Rattle.typed_values.specs.Faults.{IsRightValueFault};
ghost use Rattle.typed_values.specs.Known.{AreKnown};
ghost use Rattle.value_notations.specs.Values.{IsTyped};
ghost use Rattle.settled.specs.values.Allowing.{Allows, AllowsCode};
ghost use Rattle.extensions.specs.Faults.{IsWrong};
ghost use Rattle.extensions.specs.SchemaOfModules.{HasTypedValue};
ghost use Rattle.extensions.specs.proving.Tables.{Reports};

use asn_base::value::Value;
use constraints::Bounded;
use std::alloc::Global;
use typed_values::{Cause, Defaults, ValueFault, ValueSite, check_with, read_with};

/// Why there is no value: an allocation failed, or a notation has this fault.
#[derive(Clone, Copy)]
pub(crate) enum Wrong<'a> {
    Memory,
    At(ValueFault<'a>),
}

/// Whether the cause is that an allocation failed.
fn ran_out(cause: Cause<'_>) -> bool
    ensures memory { result ≡ true → cause.entry ≡ causes.Memory }
    ensures another { result ≡ false → cause.entry ≡ causes.Memory → ⊥ }
{
    match cause {
        Cause::Memory => true,
        _ => false,
    }
}

/// Why a notation with this fault has no value.
fn wrong_of<'a>(fault: ValueFault<'a>) -> Wrong<'a>
    ensures { (w : WrittenProgram) (M : Name) (i : ℕ) (n : ValueSyntax')
        → IsRightValueFault w 64 16777216 [] M i n fault.entry
        → Reports (IsWrong w M i n) result }
{
    if ran_out(fault.cause) {
        Wrong::Memory
    } else {
        Wrong::At(fault)
    }
}

/// Whether a notation in this module stands for a value of a type, which isn't built. The error is the fault of the
/// notation, or `Memory`.
pub(crate) fn judged<'a>(
    alloc: Global,
    bounded: &Bounded<'a>,
    defaults: &mut Defaults,
    at: ValueSite<'a>,
) -> Result<(), Wrong<'a>>
    requires there { at.ty.index < length bounded.now.program.types }
    requires sound { AreSound bounded.now.program.types }
    requires known { AreKnown bounded.now.program defaults.old }
    ensures value { OnOk result (HasTypedValue bounded.now.program at.entry.within.now at.entry.ty.index
        (tree_of at.entry.notation.now)) }
    ensures fault { IfErr result (Reports (IsWrong bounded.now at.entry.within.now at.entry.ty.index
        at.entry.notation.now)) }
    ensures known { AreKnown bounded.now.program defaults.new }
{
    match check_with(alloc, bounded, defaults, at) {
        Ok(()) => Ok(()),
        Err(fault) => Err(wrong_of(fault)),
    }
}

/// The value of a notation in this module, under a type. The notation is judged first, so that one with too many nodes
/// is refused before its value takes memory. The error is the fault of the notation, or `Memory`.
pub(crate) fn value_of<'a>(
    alloc: Global,
    bounded: &Bounded<'a>,
    defaults: &mut Defaults,
    at: ValueSite<'a>,
) -> Result<Value, Wrong<'a>>
    requires there { at.ty.index < length bounded.now.program.types }
    requires sound { AreSound bounded.now.program.types }
    requires known { AreKnown bounded.now.program defaults.old }
    ensures value { IfOk result
        (λ v. IsTyped bounded.now.program (Allows bounded.now.program) (AllowsCode bounded.now.program)
        at.entry.within.now at.entry.ty.index (tree_of at.entry.notation.now) (abstract v)) }
    ensures fault { IfErr result (Reports (IsWrong bounded.now at.entry.within.now at.entry.ty.index
        at.entry.notation.now)) }
    ensures known { AreKnown bounded.now.program defaults.new }
{
    match judged(alloc, bounded, defaults, at) {
        Ok(()) => {}
        Err(wrong) => return Err(wrong),
    }
    match read_with(alloc, bounded, defaults, at) {
        Ok(value) => Ok(value),
        Err(fault) => Err(wrong_of(fault)),
    }
}
