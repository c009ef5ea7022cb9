//! Why bounded modules have no schema.

ghost use Rattle.resolve.specs.Program.{WrittenProgram};
ghost use Rattle.settled.specs.additions.Additions.{KeepAdditions};
ghost use Rattle.settled.specs.additions.Faults as markers;
ghost use Rattle.settled.specs.Settled.{AreTypedDefaults};
ghost use Rattle.extensions.specs.Faults.{IsFirstValue, IsRightExtensionFault};
ghost use Rattle.extensions.specs.proving.Tables.{Reports};

use crate::wrong::Wrong;
use settled::additions::ExtFault as AdditionFault;
use typed_values::ValueFault;

/// Why bounded modules have no schema. A `ValueFault` names the notation, the type of the value and the module of the
/// notation.
#[derive(Drop)]
pub enum ExtFault<'a> {
    /// An allocation failed.
    Memory,
    /// An extension marker or an addition breaks a rule: `MarkerPlace`, `AdditionOrder` or `DefaultAddition`, with the
    /// module, the name of the assignment and the offset.
    Additions(AdditionFault),
    /// A DEFAULT isn't a value of its component's type (X.680, clause 25.1).
    Default(ValueFault<'a>),
    /// The notation of a value assignment isn't that of a value of its type (X.680, clause 16.2).
    Assigned(ValueFault<'a>),
}

/// The fault of bounded modules for this fault of a marker or an addition.
pub(crate) fn of_additions<'a>(fault: AdditionFault) -> ExtFault<'a>
    ensures { (w : WrittenProgram) → markers.IsRightAdditionsFault w fault → IsRightExtensionFault w result }
{
    match fault {
        AdditionFault::Memory => ExtFault::Memory,
        AdditionFault::MarkerPlace(source_location) => {
            ExtFault::Additions(AdditionFault::MarkerPlace(source_location))
        }
        AdditionFault::AdditionOrder(source_location) => {
            ExtFault::Additions(AdditionFault::AdditionOrder(source_location))
        }
        AdditionFault::DefaultAddition(source_location) => {
            ExtFault::Additions(AdditionFault::DefaultAddition(source_location))
        }
    }
}

/// The fault of bounded modules for a value assignment without a value.
pub(crate) fn of_assigned<'a>(wrong: Wrong<'a>) -> ExtFault<'a>
    ensures { (w : WrittenProgram) → KeepAdditions w.program.types → AreTypedDefaults w.program
        → Reports (IsFirstValue w) wrong.entry
        → IsRightExtensionFault w result }
{
    match wrong {
        Wrong::Memory => ExtFault::Memory,
        Wrong::At(fault) => ExtFault::Assigned(fault),
    }
}
