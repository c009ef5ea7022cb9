//! Why modules could not be linked.

ghost use Rattle.std.specs.Prelude.{◌≡◌, IfOk};
ghost use Rattle.names.specs.Faults.{fault_module, fault_name};
ghost use Rattle.names.specs.declared.fault.NameFault.TheVariants as faults;

use std::alloc::{AllocError, AllocFailed, Global};
use thiserror::Error;
use trees::SourceLocation;

/// A limit that is passed.
#[derive(Clone, Copy, Debug, PartialEq, Eq)]
pub enum Limit {
    /// At most 256 modules.
    Modules,
    /// At most 4,096 type assignments and 65,536 written types in all modules.
    Types,
    /// At most 65,536 value assignments in all modules.
    Values,
    /// At most 256 members in the root of a list, and at most 64 additions.
    Members,
    /// At most 1,024 items in the root of an enumeration, and at most 64 additions.
    Items,
    /// The number of a named bit is from 0 to 65,535.
    NamedBit,
    /// The number of an item without a written number is below 2 to the 127.
    Integer,
}

/// What is wrong, with the module, the name in question, and its offset in the module's text.
#[derive(Debug, Drop, Error)]
pub enum NameFault {
    /// There was not enough memory.
    #[error("1 Memory")]
    Memory,
    /// A limit is passed in this assignment.
    #[error("2 Limit({0:?}): {1}")]
    Limit(Limit, SourceLocation),
    /// This name is given twice in the module: by modules, by assignments and imports, by the identifiers of one list,
    /// or by the names of one number. The offset is that of the second of two names.
    #[error("30 Twice: {0}")]
    Twice(SourceLocation),
    /// This name has no meaning in the module.
    #[error("31 UnknownName: {0}")]
    UnknownName(SourceLocation),
    /// The module imports a name that the other module doesn't export.
    #[error("32 NotExported: {0}")]
    NotExported(SourceLocation),
    /// This type of the module comes back to itself.
    #[error("33 Circular: {0}")]
    Circular(SourceLocation),
    /// The module imports names from a module that isn't there.
    #[error("34 UnknownModule: {0}")]
    UnknownModule(SourceLocation),
}

impl From<AllocError> for NameFault {
    ghost from_gives = { λ _ e. e ≡ faults.Memory };

    fn from(_e: AllocError) -> NameFault {
        NameFault::Memory
    }
}

impl<T: Drop> From<AllocFailed<T>> for NameFault {
    ghost from_gives = { λ _ e. e ≡ faults.Memory };

    fn from(_e: AllocFailed<T>) -> NameFault {
        NameFault::Memory
    }
}

/// The spot of a name in a module.
pub fn source_location(
    alloc: Global,
    within: &str,
    name: &str,
    at: usize,
) -> Result<SourceLocation, AllocError>
    ensures within { IfOk result (λ s. fault_module s ≡ within.now) }
    ensures name { IfOk result (λ s. fault_name s ≡ name.now) }
    ensures at { IfOk result (λ s. s.at ≡ at) }
{
    Ok(SourceLocation {
        module: String::from_str(alloc, within)?,
        name: String::from_str(alloc, name)?,
        at,
    })
}
