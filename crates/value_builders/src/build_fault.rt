//! Why no value was made.

ghost use Rattle.std.specs.Prelude.{◌≡◌};
ghost use Rattle.value_builders.specs.declared.build_fault.BuildFault.TheVariants.{Memory};

use std::alloc::{AllocError, AllocFailed};
use std::error::Error;
use std::fmt;

/// Why no value was made. Each name is the one that was asked for, but that of `Missing`, which is the schema's.
#[derive(Drop)]
pub enum BuildFault {
    /// An allocation failed.
    Memory,
    /// The schema has no such type.
    NoType,
    /// The type is no SEQUENCE or SET.
    NotFields,
    /// The SEQUENCE or SET has no component with this name.
    NoComponent(String),
    /// The component with this name was set before.
    Twice(String),
    /// The component with this name must be there, and was not set.
    Missing(String),
    /// The type is no CHOICE.
    NotChoice,
    /// The CHOICE has no alternative with this name.
    NoAlternative(String),
    /// The type is no ENUMERATED.
    NotEnumerated,
    /// The ENUMERATED has no item with this name.
    NoItem(String),
    /// The type is no BIT STRING with named bits.
    NotNamedBits,
    /// The BIT STRING has no bit with this name.
    NoBit(String),
}

/// A sentence, with the first 60 characters of a name at most.
impl fmt::Display for BuildFault {
    fn fmt<W: fmt::Write>(&self, f: &mut fmt::Formatter<W>) -> fmt::Result {
        match self {
            BuildFault::Memory => f.write_str("out of memory"),
            BuildFault::NoType => f.write_str("the schema has no such type"),
            BuildFault::NotFields => f.write_str("the type is no SEQUENCE or SET"),
            BuildFault::NoComponent(name) => write!(f, "no component has the name {name:.60}"),
            BuildFault::Twice(name) => write!(f, "the component {name:.60} was set before"),
            BuildFault::Missing(name) => write!(f, "the component {name:.60} is missing"),
            BuildFault::NotChoice => f.write_str("the type is no CHOICE"),
            BuildFault::NoAlternative(name) => write!(f, "no alternative has the name {name:.60}"),
            BuildFault::NotEnumerated => f.write_str("the type is no ENUMERATED"),
            BuildFault::NoItem(name) => write!(f, "no item has the name {name:.60}"),
            BuildFault::NotNamedBits => f.write_str("the type is no BIT STRING with named bits"),
            BuildFault::NoBit(name) => write!(f, "no bit has the name {name:.60}"),
        }
    }
}

impl fmt::Debug for BuildFault {
    fn fmt<W: fmt::Write>(&self, f: &mut fmt::Formatter<W>) -> fmt::Result {
        fmt::Display::fmt(self, f)
    }
}

impl Error for BuildFault {}

impl From<AllocError> for BuildFault {
    ghost from_gives = { λ _ e. e ≡ Memory };

    fn from(_e: AllocError) -> BuildFault {
        BuildFault::Memory
    }
}

impl<T: Drop> From<AllocFailed<T>> for BuildFault {
    ghost from_gives = { λ _ e. e ≡ Memory };

    fn from(_e: AllocFailed<T>) -> BuildFault {
        BuildFault::Memory
    }
}
