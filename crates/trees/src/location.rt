//! Offsets of things in a module's text.

ghost use Rattle.std.specs.Prelude.{◌≡◌, Some, ◌++◌, codes, option_map, string_bytes};
ghost use Rattle.trees.specs.Names.{reference_module, reference_name};

use std::fmt;

/// Something with its offset: `at` is the place of its first octet in the module's text, counted from 0.
#[derive(Drop)]
pub struct At<T> {
    pub at: usize,
    pub it: T,
}

/// Where something is wrong: the name of the module, the name in question, and the offset in the module's text, in
/// octets from 0.
#[derive(Debug)]
pub struct SourceLocation {
    pub module: String,
    pub name: String,
    pub at: usize,
}

/// Writes `Module.name`.
impl fmt::Display for SourceLocation {
    ghost output = { λ s. Some (string_bytes s.module ++ codes "." ++ string_bytes s.name) };

    fn fmt<W: fmt::Write>(&self, f: &mut fmt::Formatter<W>) -> fmt::Result {
        write!(f, "{}.{}", self.module, self.name)
    }
}

/// A name, after the name of a module if one is given: `Module.name` or `name` (X.680, clause 14.6).
pub struct Reference {
    /// The offset of the first of the two names.
    pub at: usize,
    pub names: ReferenceNames,
}

/// The names of a reference. Most have only one, and a text may have a reference for every two octets. So two names
/// have memory of their own.
pub enum ReferenceNames {
    /// `name`
    Alone(String),
    /// `Module.name`
    Qualified(Box<QualifiedName>),
}

/// A name after the name of a module.
pub struct QualifiedName {
    pub module: String,
    pub name: String,
}

impl Reference {
    /// The name of the module, if one is given.
    pub fn module(&self) -> Option<&str>
        ensures { option_map (λ x. x.now) result ≡ reference_module self.now }
    {
        match &self.names {
            ReferenceNames::Alone(_) => None,
            ReferenceNames::Qualified(names) => Some(names.module.as_str()),
        }
    }

    /// The name, without that of the module.
    pub fn name(&self) -> &str
        ensures { result.now ≡ reference_name self.now }
    {
        match &self.names {
            ReferenceNames::Alone(name) => name.as_str(),
            ReferenceNames::Qualified(names) => names.name.as_str(),
        }
    }
}

impl Drop for SourceLocation {
    fn drop(self) {
        let SourceLocation {
            module: _,
            name: _,
            at: _,
        } = self;
    }
}

impl Drop for Reference {
    fn drop(self) {
        let Reference { at: _, names: _ } = self;
    }
}

impl Drop for ReferenceNames {
    fn drop(self) {
        match self {
            ReferenceNames::Alone(_) => {}
            ReferenceNames::Qualified(_) => {}
        }
    }
}

impl Drop for QualifiedName {
    fn drop(self) {
        let QualifiedName { module: _, name: _ } = self;
    }
}
