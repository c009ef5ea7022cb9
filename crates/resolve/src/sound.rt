//! The checks of the lists in written types, of DEFAULTs, and of the names in notations.

ghost use Rattle.std.specs.Prelude.{◌≡◌, IfErr, OnOk};
ghost use Rattle.names.specs.declared.fault.NameFault.{NameFault as NameFault'};
ghost use Rattle.names.specs.declared.fault.NameFault.TheVariants as faults;
ghost use Rattle.circles.specs.Circles.{NoDefaultCircles};
ghost use Rattle.type_table.specs.Lists.{AreSound};
ghost use Rattle.resolve.specs.First.{ReportsFirstOfProgram};
ghost use Rattle.resolve.specs.Program.{Program};
ghost use Rattle.resolve.specs.Sound.{IsSoundProgram, IsSoundFault, TypesMean, ValuesMean};

use crate::linked::Linked;
use crate::qualified::{names_in_type, names_in_value};
use asn_base::schema::TypeId;
use circles::circle_of;
use names::NameFault;
use names::fault::source_location;
use std::alloc::Global;
use type_table::lists::sound_shape;

/// Checks the lists in all types: names and numbers are distinct, and no limit is passed.
fn sound_lists(alloc: Global, linked: &Linked) -> Result<(), NameFault>
    ensures good { OnOk result (AreSound linked.now.program.types) }
    ensures fault { IfErr result (IsSoundFault linked.now.program) }
    ensures first { IfErr result (ReportsFirstOfProgram linked.now.program linked.now.types linked.now.values) }
{
    let types = linked.types();
    let _values = linked.values();
    for index in 0..types.len() {
        let home = linked.home(TypeId { index });
        let written = &types[index];
        sound_shape(alloc, home.module, home.name, &written.shape)?;
    }
    Ok(())
}

/// Checks that no component with a DEFAULT has a type that leads back to the list that holds it (X.680, clause 25.7).
fn no_default_circles(alloc: Global, linked: &Linked) -> Result<(), NameFault>
    requires lists { AreSound linked.now.program.types }
    ensures good { OnOk result (NoDefaultCircles linked.now.program.types) }
    ensures fault { IfErr result (IsSoundFault linked.now.program) }
    ensures first { IfErr result (ReportsFirstOfProgram linked.now.program linked.now.types linked.now.values) }
{
    let types = linked.types();
    let _values = linked.values();
    match circle_of(alloc, types)? {
        None => Ok(()),
        Some(index) => {
            let home = linked.home(TypeId { index });
            Err(NameFault::Circular(source_location(
                alloc,
                home.module,
                home.name,
                types[index].at,
            )?))
        }
    }
}

/// Checks the names in all types.
fn names_in_types(alloc: Global, linked: &Linked) -> Result<(), NameFault>
    requires lists { AreSound linked.now.program.types }
    requires circles { NoDefaultCircles linked.now.program.types }
    ensures good { OnOk result (TypesMean linked.now.program) }
    ensures fault { IfErr result (IsSoundFault linked.now.program) }
    ensures first { IfErr result (ReportsFirstOfProgram linked.now.program linked.now.types linked.now.values) }
{
    let types = linked.types();
    let _values = linked.values();
    for index in 0..types.len() {
        let home = linked.home(TypeId { index });
        names_in_type(alloc, linked, home.module, &types[index])?;
    }
    Ok(())
}

/// Checks the names in all assigned values.
fn names_in_values(alloc: Global, linked: &Linked) -> Result<(), NameFault>
    requires lists { AreSound linked.now.program.types }
    requires circles { NoDefaultCircles linked.now.program.types }
    requires types { TypesMean linked.now.program }
    ensures good { OnOk result (ValuesMean linked.now.program) }
    ensures fault { IfErr result (IsSoundFault linked.now.program) }
    ensures first { IfErr result (ReportsFirstOfProgram linked.now.program linked.now.types linked.now.values) }
{
    let values = linked.values();
    let _types = linked.types();
    linked.lemma_whole();
    for value in values {
        let home = linked.assigned(value.assignment);
        names_in_value(alloc, linked, home.module, &value.syntax)?;
    }
    Ok(())
}

/// Checks the lists and DEFAULTs of linked modules, and each name after a module's name in a DEFAULT, a constraint or
/// an assigned value. Such a name must be that of a value (X.680, clause 14.6).
///
/// `Twice`: a list has a name or a number twice. `Limit`: a list passes a limit. `Circular`: a component with a DEFAULT
/// leads back to its list. `UnknownName`: such a name isn't that of a value. `Memory`: an allocation failed. The fault
/// is the first one, in this order: lists, circles, names in types, names in values; and of each by number.
pub(crate) fn sound(alloc: Global, linked: &Linked) -> Result<(), NameFault>
    ensures ok { OnOk result (IsSoundProgram linked.now.program) }
    ensures fault { IfErr result (IsSoundFault linked.now.program) }
    ensures first { IfErr result (ReportsFirstOfProgram linked.now.program linked.now.types linked.now.values) }
{
    sound_lists(alloc, linked)?;
    no_default_circles(alloc, linked)?;
    names_in_types(alloc, linked)?;
    names_in_values(alloc, linked)?;
    Ok(())
}

/// A program with such a fault, other than `Memory`, isn't sound.
pub fn lemma_faults_exclude_sound()
    ensures { (p : Program) (e : NameFault') → (e ≡ faults.Memory → ⊥) → IsSoundFault p e → IsSoundProgram p → ⊥ }
{}
