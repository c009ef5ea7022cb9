//! How many modules, types and values there may be.

ghost use Rattle.std.specs.Prelude.{◌≡◌, ◌≤◌, ◌+◌, IfErr, OnOk, length, map};
ghost use Rattle.trees.specs.Modules.{assignment_tree_of as given_of, module_tree_of};
ghost use Rattle.names.specs.First.{IsPassedLimitAt, IsLimitIn};
ghost use Rattle.names.specs.Modules.{AreFew, type_count, value_count, all_assignments};
ghost use Rattle.names.specs.proving.Gathering.{IsNamingFault};

use crate::fault::{Limit, NameFault, source_location};
use limits::{MAX_MODULES, MAX_TYPES, MAX_VALUES};
use std::alloc::Global;
use trees::{Assignment, Module};

/// How many types and values are assigned.
#[derive(Drop)]
pub struct Counts {
    pub types: usize,
    pub values: usize,
}

/// Counts the assignments of a module.
fn count(
    alloc: Global,
    within: &str,
    givens: &[Assignment],
    counts: &mut Counts,
) -> Result<(), NameFault>
    requires types { counts.old.types ≤ 4096 }
    requires values { counts.old.values ≤ 65536 }
    ensures counted_types { OnOk result (counts.new.types ≡ counts.old.types + type_count (map given_of givens.now)) }
    ensures counted_values { OnOk result
        (counts.new.values ≡ counts.old.values + value_count (map given_of givens.now)) }
    ensures types { OnOk result (counts.new.types ≤ 4096) }
    ensures values { OnOk result (counts.new.values ≤ 65536) }
    ensures at { IfErr result (IsLimitIn counts.old.types counts.old.values within.now givens.now) }
{
    for given in givens {
        match given {
            Assignment::Type(assigned) => {
                if counts.types == MAX_TYPES {
                    let name = &assigned.name;
                    return Err(NameFault::Limit(
                        Limit::Types,
                        source_location(alloc, within, name.it.as_str(), name.at)?,
                    ));
                }
                counts.types += 1;
            }
            Assignment::Value(assigned) => {
                if counts.values == MAX_VALUES {
                    let name = &assigned.name;
                    return Err(NameFault::Limit(
                        Limit::Values,
                        source_location(alloc, within, name.it.as_str(), name.at)?,
                    ));
                }
                counts.values += 1;
            }
        }
    }
    Ok(())
}

/// Counts the assignments of modules.
fn count_all(alloc: Global, modules: &[Module], counts: &mut Counts) -> Result<(), NameFault>
    requires types { counts.old.types ≡ 0 }
    requires values { counts.old.values ≡ 0 }
    requires few { length modules.now ≤ 256 }
    ensures types { OnOk result (type_count (all_assignments (map module_tree_of modules.now)) ≤ 4096) }
    ensures values { OnOk result (value_count (all_assignments (map module_tree_of modules.now)) ≤ 65536) }
    ensures at { IfErr result (IsPassedLimitAt modules.now) }
{
    for given in modules {
        match count(alloc, given.name.it.as_str(), &given.assignments, counts) {
            Ok(()) => {}
            Err(fault) => return Err(fault),
        }
    }
    Ok(())
}

/// Checks that there are at most 256 modules, 4,096 type assignments and 65,536 value assignments. The fault is that of
/// a module too many, or otherwise of the first assignment too many, in the order of the texts.
pub fn within_limits(alloc: Global, modules: &[Module]) -> Result<(), NameFault>
    ensures ok { OnOk result (AreFew (map module_tree_of modules.now)) }
    ensures fault { IfErr result (IsNamingFault (map module_tree_of modules.now)) }
    ensures at { IfErr result (IsPassedLimitAt modules.now) }
{
    if modules.len() > MAX_MODULES {
        let name = &modules[MAX_MODULES].name;
        return Err(NameFault::Limit(
            Limit::Modules,
            source_location(alloc, name.it.as_str(), name.it.as_str(), name.at)?,
        ));
    }
    let mut counts = Counts {
        types: 0,
        values: 0,
    };
    match count_all(alloc, modules, &mut counts) {
        Ok(()) => Ok(()),
        Err(fault) => Err(fault),
    }
}
