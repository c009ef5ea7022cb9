//! What can be wrong with extension markers, and with additions after them.

ghost use Rattle.std.specs.Prelude.{ℕ};
ghost use Rattle.names.specs.Faults.{fault_module, fault_name};
ghost use Rattle.resolve.specs.Program.{WrittenProgram};
ghost use Rattle.tagging.specs.Faults.{IsWrittenIn};
ghost use Rattle.additions.specs.Faults.{IsRightAdditionsFault};
ghost use Rattle.additions.specs.First.{IsFirstNamed};

use crate::check::Rule;
use thiserror::Error;
use trees::SourceLocation;

/// What is wrong, with the module, the name of the assignment, and the place in the module's text.
#[derive(Debug, Drop, Error)]
pub enum ExtFault {
    /// An allocation failed.
    #[error("1 Memory")]
    Memory,
    /// The member at the place is where the extension marker of its list doesn't allow it (X.680, clauses 25.1 and
    /// 29.1). It is an addition in a list without a marker, a member of the root after an addition, or a member of
    /// version brackets that ended before it. No text gives such a list.
    #[error("55 MarkerPlace: {0}")]
    MarkerPlace(SourceLocation),
    /// The addition at the place doesn't ascend. In an enumeration its number must (X.680, clause 20). In a CHOICE its
    /// tags must in the canonical order (X.680, clauses 8.6 and 29).
    #[error("56 AdditionOrder: {0}")]
    AdditionOrder(SourceLocation),
    /// The addition at the place, in version brackets or not, has a DEFAULT. X.680 allows it, but this compiler doesn't
    /// support it.
    #[error("57 DefaultAddition: {0}")]
    DefaultAddition(SourceLocation),
}

/// The fault that a type breaks a rule at a spot.
pub(crate) fn fault_of(rule: Rule, source_location: SourceLocation) -> ExtFault
    ensures { (w : WrittenProgram) (i : ℕ) →
        IsFirstNamed w.program.types w.types rule i source_location.at →
        IsWrittenIn w.program i (fault_module source_location) (fault_name source_location) →
        IsRightAdditionsFault w result }
{
    match rule {
        Rule::MarkerPlace => ExtFault::MarkerPlace(source_location),
        Rule::AdditionOrder => ExtFault::AdditionOrder(source_location),
        Rule::DefaultAddition => ExtFault::DefaultAddition(source_location),
    }
}
