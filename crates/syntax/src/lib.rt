//! The notation of ASN.1 modules.
#![tactic(auto)]

pub mod modules;
pub mod parsing;

pub use notation::{Limit, SyntaxFault};
pub use parsing::{lemma_one_fault, lemma_one_module, parse};
pub use trees::{
    Assignment, EnumeratedItem, Import, Keyword, Member, Module, NamedBit, NamedNumber,
    PresenceSyntax, TagDefault, TypeAssignment, TypeSyntax, ValueAssignment,
};
