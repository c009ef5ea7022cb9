//! Why modules could not be tagged.

ghost use Rattle.std.specs.Prelude.{ℕ, List};
ghost use Rattle.names.specs.Faults.{fault_module, fault_name};
ghost use Rattle.resolve.specs.Program.{Program};
ghost use Rattle.tagging.specs.Tagged.{Breaks};
ghost use Rattle.tagging.specs.Faults.{IsRightTagFault, IsWrittenIn};
ghost use Rattle.tagging.specs.FirstFault.{IsFirstBreach, IsFirstTagFault};
ghost use Rattle.type_table.specs.declared.table.TypeNode.{TypeNode as TypeNode'};

use crate::check::Rule;
use names::fault::source_location;
use std::alloc::Global;
use thiserror::Error;
use trees::SourceLocation;

/// A limit that is passed.
#[derive(Clone, Copy, Debug, PartialEq, Eq)]
pub enum Limit {
    /// At most four tags are written on a type, together with those after its references.
    Tags,
    /// The number of a tag is less than 2 to the 31. An automatic tag has the number of a member, counted from 0.
    TagNumber,
}

/// What is wrong, with the module, the name of the assignment that contains the fault, and its offset in the module's
/// text.
#[derive(Debug, Drop, Error)]
pub enum TagFault {
    /// There was not enough memory.
    #[error("1 Memory")]
    Memory,
    /// A limit is passed by the type that begins at this offset.
    #[error("2 Limit({0:?}): {1}")]
    Limit(Limit, SourceLocation),
    /// Two members of a list can't be distinguished. One tag can be first in both, and either can come next at the same
    /// point of an encoding (X.680, clauses 25, 27 and 29). The offset is that of the later member.
    #[error("40 TagClash: {0}")]
    TagClash(SourceLocation),
    /// The word IMPLICIT comes before an untagged CHOICE (X.680, clause 31.2), after the tag at this offset.
    #[error("41 ImplicitChoice: {0}")]
    ImplicitChoice(SourceLocation),
    /// An untagged CHOICE is directly a component of a SET or an alternative of a CHOICE: the member at this offset.
    /// X.680 allows it; this compiler leaves it out.
    #[error("42 UntaggedChoice: {0}")]
    UntaggedChoice(SourceLocation),
    /// Additions of a list in an AUTOMATIC module bear written tags, and its root bears none. The offset is that of the
    /// first such addition.
    #[error("43 MixedAutomatic: {0}")]
    MixedAutomatic(SourceLocation),
}

/// The fault of a type in this module, in the assignment of this name, that breaks the rule.
pub(crate) fn fault_at(alloc: Global, rule: Rule, owner: &str, name: &str, at: usize) -> TagFault
    ensures is_so { (p : Program) (i : ℕ) →
        Breaks p.types rule i →
        IsWrittenIn p i owner.now name.now →
        IsRightTagFault p result }
    ensures first { (p : Program) (ws : List TypeNode') (i : ℕ) →
        IsFirstBreach p.types ws rule i at →
        IsWrittenIn p i owner.now name.now →
        IsFirstTagFault p ws result }
{
    match source_location(alloc, owner, name, at) {
        Ok(source_location) => fault_of(rule, source_location),
        Err(_) => TagFault::Memory,
    }
}

fn fault_of(rule: Rule, source_location: SourceLocation) -> TagFault
    ensures is_so { (p : Program) (i : ℕ) →
        Breaks p.types rule i →
        IsWrittenIn p i (fault_module source_location) (fault_name source_location) →
        IsRightTagFault p result }
    ensures first { (p : Program) (ws : List TypeNode') (i : ℕ) →
        IsFirstBreach p.types ws rule i source_location.at →
        IsWrittenIn p i (fault_module source_location) (fault_name source_location) →
        IsFirstTagFault p ws result }
{
    match rule {
        Rule::Tags => TagFault::Limit(Limit::Tags, source_location),
        Rule::TagNumber => TagFault::Limit(Limit::TagNumber, source_location),
        Rule::TagClash => TagFault::TagClash(source_location),
        Rule::ImplicitChoice => TagFault::ImplicitChoice(source_location),
        Rule::UntaggedChoice => TagFault::UntaggedChoice(source_location),
        Rule::MixedAutomatic => TagFault::MixedAutomatic(source_location),
    }
}
