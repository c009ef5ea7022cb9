//! Tables of names.

ghost use Rattle.std.specs.Prelude.{ℕ, ◌≡◌, ◌↔◌, Some, option_map};
ghost use Rattle.names.specs.declared.scope.Assigned.{Assigned};
ghost use Rattle.names.specs.Names.{Meaning, Refers, IsApart, under};
ghost use Rattle.names.specs.Scopes.{module_of, origin_of, scopes};
ghost use Rattle.names.specs.proving.Lookup.{found, assigned_in, imported_in};

use crate::exports::Exports;
use crate::hashing::NameHasher;
use indexmap::IndexMap;
use std::marker::Model;
use std::rc::Rc;
use trees::At;

/// What a name is assigned: a type or a value, by its number in the table of types or of values.
#[derive(Clone, Copy, Debug, PartialEq, Eq)]
pub enum Assigned {
    Type(usize),
    Value(usize),
}

/// The module that a name is imported from, with offsets in the importing module's text.
pub struct Origin {
    /// The offset of the name among the imported ones.
    pub at: usize,
    /// The module, at the offset of its name after `FROM`. All names after one `FROM` share it.
    pub module: Rc<At<String>>,
}

/// A module's names: its assignments, each with the offset of its name, and its imports with their modules. The exports
/// are None if the module has no list of exports: then all that it assigns is exported.
pub struct Scope {
    pub assigned: IndexMap<String, At<Assigned>, NameHasher>,
    pub imports: IndexMap<String, Origin, NameHasher>,
    pub exports: Option<Exports>,
}

/// The names of all modules.
pub struct Names {
    modules: IndexMap<String, Scope>,
}

impl Model for Names {
    ghost use Rattle.std.specs.Prelude.{List};
    ghost use Rattle.trees.specs.Values.{Name};
    ghost use Rattle.names.specs.Names.{Module};

    ghost Value = { List (Name × Module) };

    ghost use Rattle.names.specs.Scopes.{scopes};

    ghost view = { λ n. scopes n.modules.entries };

    ghost use Rattle.names.specs.Names.{IsApart};

    ghost invariant = { λ n. IsApart (scopes n.modules.entries) };
}

impl Names {
    /// The names of these modules. No module imports a name that it assigns.
    pub fn of(modules: IndexMap<String, Scope>) -> Names
        requires { IsApart (scopes modules.entries) }
        ensures { result ≡ scopes modules.entries }
    {
        Names { modules }
    }

    /// How the names of the modules are hashed.
    pub fn hasher(&self) -> NameHasher {
        match self.modules.get_index(0) {
            Some((_, scope)) => *scope.assigned.hasher(),
            None => NameHasher::new(),
        }
    }

    /// What a name means in a module, or None if it means nothing there.
    #[tactic(auto, using(crate::specs::proving::Meanings::found_meaning, crate::specs::proving::Meanings::meaning_found))]
    pub fn find(&self, within: &str, name: &str) -> Option<Assigned>
        ensures { (a : Assigned) → (result ≡ Some a ↔ Meaning self.now within.now name.now a) }
    {
        find_among(&self.modules, within, name)
    }

    /// What a name, after the name of a module if one is given, means in a module. `M.x` is allowed in M itself, and
    /// where x is imported from M.
    #[tactic(auto, using(crate::specs::proving::Meanings::refers_bare, crate::specs::proving::Meanings::refers_within, crate::specs::proving::Meanings::refers_across, crate::specs::proving::Meanings::refers_not))]
    pub fn refers(&self, within: &str, owner: Option<&str>, name: &str) -> Option<Assigned>
        ensures { (a : Assigned) →
            (result ≡ Some a ↔ Refers self.now within.now (option_map (λ o. o.now) owner.entry) name.now a) }
    {
        match owner {
            None => self.find(within, name),
            Some(module) => {
                if module == within {
                    self.find(within, name)
                } else {
                    match imported_by(&self.modules, within, name) {
                        None => None,
                        Some(from) => {
                            if from.module.it.as_str() == module {
                                self.find(within, name)
                            } else {
                                None
                            }
                        }
                    }
                }
            }
        }
    }
}

pub(crate) fn scope_of<'a>(modules: &'a IndexMap<String, Scope>, name: &str) -> Option<&'a Scope>
    ensures { option_map (λ s. module_of s.now) result ≡ under name.now (scopes modules.now.entries) }
{
    modules.get(name)
}

#[tactic(auto, using(crate::specs::proving::Meanings::under_seen))]
pub(crate) fn assigned_to(scope: &Scope, name: &str) -> Option<Assigned>
    ensures { result ≡ under name.now (module_of scope.now).assigned }
{
    match scope.assigned.get(name) {
        None => None,
        Some(given) => Some(given.it),
    }
}

fn imported<'a>(scope: &'a Scope, name: &str) -> Option<&'a Origin>
    ensures { option_map (λ o. origin_of o.now) result ≡ under name.now (module_of scope.now).imports }
{
    scope.imports.get(name)
}

#[tactic(auto, unfolding(crate::specs::proving::Lookup::found))]
fn find_among(modules: &IndexMap<String, Scope>, within: &str, name: &str) -> Option<Assigned>
    ensures { result ≡ found (scopes modules.now.entries) within.now name.now }
{
    match scope_of(modules, within) {
        None => None,
        Some(scope) => match assigned_to(scope, name) {
            Some(ty) => Some(ty),
            None => match imported(scope, name) {
                None => None,
                Some(from) => match scope_of(modules, from.module.it.as_str()) {
                    None => None,
                    Some(other) => assigned_to(other, name),
                },
            },
        },
    }
}

/// The module that a name is imported from.
fn imported_by<'a>(
    modules: &'a IndexMap<String, Scope>,
    within: &str,
    name: &str,
) -> Option<&'a Origin>
    ensures { option_map (λ o. origin_of o.now) result
        ≡ imported_in name.now (under within.now (scopes modules.now.entries)) }
{
    match scope_of(modules, within) {
        None => None,
        Some(scope) => imported(scope, name),
    }
}

impl Drop for Origin {
    fn drop(self) {
        let Origin { at: _, module: _ } = self;
    }
}

impl Drop for Scope {
    fn drop(self) {
        let Scope {
            assigned: _,
            imports: _,
            exports: _,
        } = self;
    }
}

impl Drop for Names {
    fn drop(self) {
        let Names { modules: _ } = self;
    }
}
