//! The rules of the notation (X.680, clauses 13 to 51), each of which starts with a token or is empty.

ghost use Rattle.std.specs.Prelude.{◌≡◌, map};
ghost use Rattle.expected_tokens.specs.Rules.{rules, rule_of};

use crate::constraint_rules::{
    CHARS_RULES, CONSTRAINT_RULES, CONSTRAINTS_RULES, LAST_CHARS_RULES, LAST_RULES, MARKER_RULES,
    MORE_CHARS_RULES, MORE_RANGES_RULES, RANGE_RULES, RANGES_RULES, UPPER_RULES,
};
use crate::module_rules::{
    ARC_NUMBER_RULES, ARC_RULES, ASSIGNMENTS_RULES, EXPORTED_RULES, EXPORTS_RULES, IMPORTED_RULES,
    IMPORTS_RULES, MODULE_RULES, MORE_ARCS_RULES, MORE_NAMES_RULES, NAME_RULES, OID_RULES,
    TAG_DEFAULT_RULES,
};
use crate::type_rules::{
    ADDED_ALTERNATIVE_RULES, ADDED_ALTERNATIVES_RULES, ADDED_ITEMS_RULES, ADDED_MEMBER_RULES,
    ADDED_MEMBERS_RULES, AFTER_MODULE_RULES, ALTERNATIVE_RULES, ALTERNATIVES_IN_VERSION_RULES,
    ITEM_NUMBER_RULES, ITEM_RULES, KEYWORD_RULES, LIST_SIZE_RULES, MEMBER_RULES,
    MEMBERS_IN_VERSION_RULES, MEMBERS_RULES, MORE_ALTERNATIVES_RULES, MORE_ITEMS_RULES,
    MORE_MEMBERS_RULES, MORE_NAMED_BITS_RULES, MORE_NAMED_NUMBERS_RULES, NAMED_BIT_RULES,
    NAMED_BITS_RULES, NAMED_NUMBER_RULES, NAMED_NUMBERS_RULES, PRESENCE_RULES, SIGNED_RULES,
    TAG_CLASS_RULES, TYPE_RULES, VERSION_RULES,
};
use crate::value_rules::{
    BRACED_RULES, CHOSEN_RULES, MORE_FIELDS_RULES, MORE_NUMBERS_RULES, MORE_VALUES_RULES,
    VALUE_RULES,
};
use text::TokenKind;

/// The symbols of the rules.
#[derive(Clone, Copy)]
pub enum Symbol {
    Module,
    Oid,
    Arc,
    MoreArcs,
    ArcNumber,
    TagDefault,
    Exports,
    Exported,
    MoreNames,
    Name,
    Imports,
    Imported,
    Assignments,
    Type,
    AfterModule,
    TagClass,
    Keyword,
    NamedNumbers,
    NamedNumber,
    MoreNamedNumbers,
    Signed,
    NamedBits,
    NamedBit,
    MoreNamedBits,
    Item,
    ItemNumber,
    MoreItems,
    AddedItems,
    Members,
    Member,
    MoreMembers,
    AddedMembers,
    AddedMember,
    MembersInVersion,
    Version,
    Presence,
    Alternative,
    MoreAlternatives,
    AddedAlternatives,
    AddedAlternative,
    AlternativesInVersion,
    ListSize,
    Constraints,
    Constraint,
    Ranges,
    Range,
    Upper,
    Last,
    MoreRanges,
    Marker,
    Chars,
    LastChars,
    MoreChars,
    Value,
    Chosen,
    Braced,
    MoreValues,
    MoreFields,
    MoreNumbers,
}

/// A part of a rule.
#[derive(Clone, Copy)]
pub enum Term {
    /// A token of this kind.
    Is(TokenKind),
    /// Anything that this symbol stands for.
    Of(Symbol),
}

/// What a symbol can stand for.
#[derive(Clone, Copy)]
pub enum Rule {
    /// Nothing.
    Nothing,
    /// A token of this kind, and these parts after it.
    Begins(TokenKind, &'static [Term]),
}

/// The rules of a symbol.
#[tactic(auto, unfolding(crate::specs::Rules::rules))]
pub fn rules_of(symbol: Symbol) -> &'static [Rule]
    ensures { map rule_of result.now ≡ rules symbol }
{
    match symbol {
        Symbol::Module => &MODULE_RULES,
        Symbol::Oid => &OID_RULES,
        Symbol::Arc => &ARC_RULES,
        Symbol::MoreArcs => &MORE_ARCS_RULES,
        Symbol::ArcNumber => &ARC_NUMBER_RULES,
        Symbol::TagDefault => &TAG_DEFAULT_RULES,
        Symbol::Exports => &EXPORTS_RULES,
        Symbol::Exported => &EXPORTED_RULES,
        Symbol::MoreNames => &MORE_NAMES_RULES,
        Symbol::Name => &NAME_RULES,
        Symbol::Imports => &IMPORTS_RULES,
        Symbol::Imported => &IMPORTED_RULES,
        Symbol::Assignments => &ASSIGNMENTS_RULES,
        Symbol::Type => &TYPE_RULES,
        Symbol::AfterModule => &AFTER_MODULE_RULES,
        Symbol::TagClass => &TAG_CLASS_RULES,
        Symbol::Keyword => &KEYWORD_RULES,
        Symbol::NamedNumbers => &NAMED_NUMBERS_RULES,
        Symbol::NamedNumber => &NAMED_NUMBER_RULES,
        Symbol::MoreNamedNumbers => &MORE_NAMED_NUMBERS_RULES,
        Symbol::Signed => &SIGNED_RULES,
        Symbol::NamedBits => &NAMED_BITS_RULES,
        Symbol::NamedBit => &NAMED_BIT_RULES,
        Symbol::MoreNamedBits => &MORE_NAMED_BITS_RULES,
        Symbol::Item => &ITEM_RULES,
        Symbol::ItemNumber => &ITEM_NUMBER_RULES,
        Symbol::MoreItems => &MORE_ITEMS_RULES,
        Symbol::AddedItems => &ADDED_ITEMS_RULES,
        Symbol::Members => &MEMBERS_RULES,
        Symbol::Member => &MEMBER_RULES,
        Symbol::MoreMembers => &MORE_MEMBERS_RULES,
        Symbol::AddedMembers => &ADDED_MEMBERS_RULES,
        Symbol::AddedMember => &ADDED_MEMBER_RULES,
        Symbol::MembersInVersion => &MEMBERS_IN_VERSION_RULES,
        Symbol::Version => &VERSION_RULES,
        Symbol::Presence => &PRESENCE_RULES,
        Symbol::Alternative => &ALTERNATIVE_RULES,
        Symbol::MoreAlternatives => &MORE_ALTERNATIVES_RULES,
        Symbol::AddedAlternatives => &ADDED_ALTERNATIVES_RULES,
        Symbol::AddedAlternative => &ADDED_ALTERNATIVE_RULES,
        Symbol::AlternativesInVersion => &ALTERNATIVES_IN_VERSION_RULES,
        Symbol::ListSize => &LIST_SIZE_RULES,
        Symbol::Constraints => &CONSTRAINTS_RULES,
        Symbol::Constraint => &CONSTRAINT_RULES,
        Symbol::Ranges => &RANGES_RULES,
        Symbol::Range => &RANGE_RULES,
        Symbol::Upper => &UPPER_RULES,
        Symbol::Last => &LAST_RULES,
        Symbol::MoreRanges => &MORE_RANGES_RULES,
        Symbol::Marker => &MARKER_RULES,
        Symbol::Chars => &CHARS_RULES,
        Symbol::LastChars => &LAST_CHARS_RULES,
        Symbol::MoreChars => &MORE_CHARS_RULES,
        Symbol::Value => &VALUE_RULES,
        Symbol::Chosen => &CHOSEN_RULES,
        Symbol::Braced => &BRACED_RULES,
        Symbol::MoreValues => &MORE_VALUES_RULES,
        Symbol::MoreFields => &MORE_FIELDS_RULES,
        Symbol::MoreNumbers => &MORE_NUMBERS_RULES,
    }
}
