//! Exports and imports: checks that the names in them are assigned and offered.

ghost use Rattle.std.specs.Prelude.{◌≡◌, ◌<◌, ◌↔◌, ◌⊎◌, true, Some, length, slice_get, IfErr, OnOk, map, string_bytes};
ghost use Rattle.trees.specs.Values.{Name, name_at};
ghost use Rattle.names.specs.Modules.{OccursIn, IsExported};
ghost use Rattle.names.specs.Names.{names_of};
ghost use Rattle.names.specs.Scopes.{all_spots, module_of, origin_of, origin_spots, origins, scopes, spots_of};
ghost use Rattle.names.specs.First.{ReportsUnknown, IsFirstExport, IsImportAt, IsFirstImport, IsFirstOf, IsFirstExports, name_spot};
ghost use Rattle.names.specs.proving.Standing.{IsOffered, ExportAssigned, ImportOffered, HasNoAssignment, IsExportFault, IsImportFault, IsImportsFault, AreExportsSound, IsExportsFault};

use crate::fault::{NameFault, source_location};
use crate::hashing::NameHasher;
use crate::scope::{Origin, Scope, assigned_to, scope_of};
use indexmap::IndexMap;
use std::alloc::Global;
use trees::At;

/// Checks that these names are assigned.
fn all_assigned(
    alloc: Global,
    within: &str,
    names: &[At<String>],
    scope: &Scope,
) -> Result<(), NameFault>
    ensures ok { OnOk result ((x : Name) →
        OccursIn (map name_at names.now) x →
        OccursIn (names_of (module_of scope.now).assigned) x) }
    ensures fault { IfErr result (HasNoAssignment within.now (map name_at names.now) (module_of scope.now).assigned) }
    ensures first { IfErr result
        (ReportsUnknown within.now (map name_spot names.now) (module_of scope.now).assigned) }
{
    for i in 0..names.len() {
        let name = &names[i];
        match assigned_to(scope, name.it.as_str()) {
            Some(_) => {}
            None => {
                let reported = source_location(alloc, within, name.it.as_str(), name.at)?;
                return Err(NameFault::UnknownName(reported));
            }
        }
    }
    Ok(())
}

/// Checks that each name is assigned that a module exports (X.680, clause 13.9).
fn check_exports(alloc: Global, within: &str, scope: &Scope) -> Result<(), NameFault>
    ensures ok { OnOk result (ExportAssigned (module_of scope.now)) }
    ensures fault { IfErr result (IsExportFault within.now (module_of scope.now)) }
    ensures first { IfErr result
        (IsFirstExport within.now (spots_of scope.now).exports (module_of scope.now).assigned) }
{
    match &scope.exports {
        None => Ok(()),
        Some(exports) => match all_assigned(alloc, within, exports.names(), scope) {
            Ok(()) => Ok(()),
            Err(fault) => Err(fault),
        },
    }
}

/// Whether a module exports a name.
fn exports(scope: &Scope, name: &str) -> bool
    ensures { result ≡ true ↔ IsExported (module_of scope.now).exports name.now }
{
    match &scope.exports {
        None => true,
        Some(exports) => exports.has(name),
    }
}

/// Checks that a name may be imported from a module.
fn check_import(
    alloc: Global,
    modules: &IndexMap<String, Scope>,
    within: &str,
    name: &str,
    origin: &Origin,
) -> Result<(), NameFault>
    ensures ok { OnOk result (IsOffered (scopes modules.now.entries) (origin_of origin.now) name.now) }
    ensures fault { IfErr result
        (IsImportFault (scopes modules.now.entries) within.now (origin_of origin.now) name.now) }
    ensures at { IfErr result (IsImportAt origin.now.at origin.now.module.value.at) }
{
    let from = &origin.module;
    match scope_of(modules, from.it.as_str()) {
        None => Err(NameFault::UnknownModule(source_location(
            alloc,
            within,
            from.it.as_str(),
            from.at,
        )?)),
        Some(other) => match assigned_to(other, name) {
            None => Err(NameFault::UnknownName(source_location(alloc, within, name, origin.at)?)),
            Some(_) => {
                if exports(other, name) {
                    Ok(())
                } else {
                    Err(NameFault::NotExported(source_location(alloc, within, name, origin.at)?))
                }
            }
        },
    }
}

/// An import, by its index: the name and the module that it is from.
fn entry_at<'a>(
    imports: &'a IndexMap<String, Origin, NameHasher>,
    i: usize,
) -> (&'a String, &'a Origin)
    requires { i < length imports.now.entries }
    ensures seen { slice_get (origins imports.now.entries) i
        ≡ Some (string_bytes result.0.now, origin_of result.1.now) }
    ensures entry { slice_get imports.now.entries i ≡ Some (result.0.now, result.1.now) }
{
    imports.get_index(i).unwrap()
}

/// A module, by its index: its name and its names.
fn module_at<'a>(modules: &'a IndexMap<String, Scope>, i: usize) -> (&'a String, &'a Scope)
    requires { i < length modules.now.entries }
    ensures seen { slice_get (scopes modules.now.entries) i ≡ Some (string_bytes result.0.now, module_of result.1.now) }
    ensures entry { slice_get modules.now.entries i ≡ Some (result.0.now, result.1.now) }
{
    modules.get_index(i).unwrap()
}

/// Checks that each name may be imported that a module imports (X.680, clauses 13.13 to 13.16).
fn check_imports(
    alloc: Global,
    modules: &IndexMap<String, Scope>,
    within: &str,
    imports: &IndexMap<String, Origin, NameHasher>,
) -> Result<(), NameFault>
    ensures ok { OnOk result (ImportOffered (scopes modules.now.entries) (origins imports.now.entries)) }
    ensures fault { IfErr result
        (IsImportsFault (scopes modules.now.entries) within.now (origins imports.now.entries)) }
    ensures first { IfErr result
        (IsFirstImport (scopes modules.now.entries) within.now (origin_spots imports.now.entries)) }
{
    for i in 0..imports.len() {
        let (name, origin) = entry_at(imports, i);
        match check_import(alloc, modules, within, name.as_str(), origin) {
            Ok(()) => {}
            Err(fault) => return Err(fault),
        }
    }
    Ok(())
}

/// Checks the exports and imports of one module.
fn check_one(
    alloc: Global,
    modules: &IndexMap<String, Scope>,
    within: &str,
    scope: &Scope,
) -> Result<(), NameFault>
    ensures exports { OnOk result (ExportAssigned (module_of scope.now)) }
    ensures imports { OnOk result (ImportOffered (scopes modules.now.entries) (module_of scope.now).imports) }
    ensures fault { IfErr result (λ e.
        IsExportFault within.now (module_of scope.now) e
        ⊎ IsImportsFault (scopes modules.now.entries) within.now (module_of scope.now).imports e) }
    ensures first { IfErr result
        (IsFirstOf (scopes modules.now.entries) within.now (module_of scope.now) (spots_of scope.now)) }
{
    match check_exports(alloc, within, scope) {
        Ok(()) => {}
        Err(fault) => return Err(fault),
    }
    match check_imports(alloc, modules, within, &scope.imports) {
        Ok(()) => Ok(()),
        Err(fault) => Err(fault),
    }
}

/// Checks the exports and imports of all modules.
pub fn check_all(alloc: Global, modules: &IndexMap<String, Scope>) -> Result<(), NameFault>
    ensures ok { OnOk result (AreExportsSound (scopes modules.now.entries)) }
    ensures fault { IfErr result (IsExportsFault (scopes modules.now.entries)) }
    ensures first { IfErr result (IsFirstExports (scopes modules.now.entries) (all_spots modules.now.entries)) }
{
    for i in 0..modules.len() {
        let (name, scope) = module_at(modules, i);
        match check_one(alloc, modules, name.as_str(), scope) {
            Ok(()) => {}
            Err(fault) => return Err(fault),
        }
    }
    Ok(())
}
