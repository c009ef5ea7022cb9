//! The rules that the types of a schema keep, and which of them is broken.

use thiserror::Error;

/// A rule that each type of a schema keeps, with its clause of X.680, in the order in which they are checked.
#[derive(Clone, Copy, PartialEq, Eq, Debug, Error)]
pub enum SchemaRule {
    /// A type without tags is a CHOICE.
    #[error("a type without tags is a CHOICE (X.680, 29)")]
    Tagged,
    /// A type has at most six tags.
    #[error("a type has at most six tags")]
    FewTags,
    /// The bounds of a constraint are those of its root, and an extensible constraint allows all.
    #[error("the bounds of a constraint are those of its root (X.680, 51 and 52)")]
    Bounds,
    /// An alphabet has codes of the string type's characters in ascending order, at least one.
    #[error("an alphabet has codes of characters in ascending order (X.680, 41)")]
    Alphabet,
    /// There are at most 1,024 items or 256 members in a root, and at most 64 additions; at least one item, named bit
    /// and alternative.
    #[error("a type has as many items, named bits or members as it may have (X.680, 20, 22 and 29)")]
    Count,
    /// The numbers of items ascend, and the places of named bits differ and are at most 65,535.
    #[error("numbers of items ascend, and places of named bits differ (X.680, 20 and 22)")]
    Numbers,
    /// The names of items, bits, components and alternatives are distinct identifiers.
    #[error("names are distinct identifiers (X.680, 12.3)")]
    Names,
    /// Additions come after the root, where there is an extension marker, and those of a group are adjacent.
    #[error("additions come after a marker, and those of a group are adjacent (X.680, 25)")]
    Additions,
    /// The types of components, alternatives and elements are in the schema.
    #[error("the types of members and elements are in the schema (X.680, 25 to 29)")]
    Members,
    /// Components of a SET and alternatives of a CHOICE have tags of their own.
    #[error("components of a SET and alternatives have tags of their own (X.680, 27 and 29)")]
    OwnTags,
    /// The additions of a CHOICE are in the order of their tags.
    #[error("the additions of a CHOICE are in the order of their tags (X.680, 29)")]
    Order,
    /// First tags differ in each SET and CHOICE.
    #[error("first tags differ in a SET and in a CHOICE (X.680, 27.3 and 29.3)")]
    FirstTags,
    /// First tags differ in each run of a SEQUENCE: of components that may be absent, and the next one.
    #[error("first tags differ in each run of a SEQUENCE (X.680, 25.6.1)")]
    RunTags,
    /// A DEFAULT is a value of its component's type.
    #[error("a DEFAULT is a value of its component's type (X.680, 25)")]
    Defaults,
    /// No component with a DEFAULT leads back to the type that has it.
    #[error("no component with a DEFAULT leads back to the type that has it")]
    NoCircle,
}

/// Why types are no schema: memory ran out, or a type breaks a rule.
#[derive(Clone, Copy, PartialEq, Eq, Debug, Error)]
pub enum SchemaFault {
    /// There was not enough memory.
    #[error("out of memory")]
    Memory,
    /// The type with this number breaks the rule. Each earlier type keeps it, and all types keep the rules before it.
    #[error("type {1}: {0}")]
    Broken(SchemaRule, usize),
}
