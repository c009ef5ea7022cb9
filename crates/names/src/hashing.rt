//! Hashing of names, from a state that no text can choose.

use std::hash::{BuildHasher, DefaultHasher, Hasher};
use trees::{Assignment, At, Import, Module};

/// Hashes names by SipHash from a state into which other names were put first: those of all modules, or those of one
/// list. Names in a text that are chosen to collide change that state, so they collide no more than others do.
#[derive(Clone, Copy)]
pub struct NameHasher {
    initial: DefaultHasher,
}

impl NameHasher {
    /// A hasher into which no name was put.
    pub fn new() -> Self {
        NameHasher {
            initial: DefaultHasher::new(),
        }
    }

    /// A hasher into which all names were put that modules assign, import and export, and their own.
    pub(crate) fn of(modules: &[Module]) -> Self {
        let mut hasher = NameHasher::new();
        for module in modules {
            hasher.put_module(module);
        }
        hasher
    }

    /// Puts a name into the state from which others are hashed.
    pub fn put(&mut self, name: &str) {
        self.initial.write(name.as_bytes());
    }

    fn put_all(&mut self, names: &[At<String>]) {
        for name in names {
            self.put(name.it.as_str());
        }
    }

    fn put_imports(&mut self, imports: &[Import]) {
        for import in imports {
            self.put_all(import.names.as_slice());
        }
    }

    fn put_assignments(&mut self, assignments: &[Assignment]) {
        for assignment in assignments {
            match assignment {
                Assignment::Type(given) => self.put(given.name.it.as_str()),
                Assignment::Value(given) => self.put(given.name.it.as_str()),
            }
        }
    }

    fn put_module(&mut self, module: &Module) {
        self.put(module.name.it.as_str());
        if let Some(exports) = &module.exports {
            self.put_all(exports.as_slice());
        }
        self.put_imports(module.imports.as_slice());
        self.put_assignments(module.assignments.as_slice());
    }
}

impl BuildHasher for NameHasher {
    type Hasher = DefaultHasher;

    ghost build_hasher = { λ h. h.initial };

    fn build_hasher(&self) -> DefaultHasher {
        self.initial
    }
}
