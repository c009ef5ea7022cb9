//! Reading named numbers, named bits and the items of an enumeration.

ghost use Rattle.std.specs.Prelude.{IfOk};
ghost use Rattle.grammar.specs.Places.{small};
ghost use Rattle.parser_combinators.specs.Given.{AreTokens};
ghost use Rattle.parser_combinators.specs.Reads.{ReadsAs};
ghost use Rattle.trees.specs.Types.{plain_of};
ghost use Rattle.type_parts.specs.PlainReading.{integer_at, bits_at, enumerated_at};

use crate::numbers::{Number, Signed};
use parser_combinators::{
    CommaList, ExtensibleList, InBraces, InParens, Optional, Parser, Read, WithName,
};
use std::alloc::Global;
use text::Token;
use trees::{EnumeratedItem, EnumeratedSyntax, NamedBit, NamedNumber, Simple};

/// A named number (X.680, clause 19.1).
#[derive(Drop)]
pub struct NumberPart;

impl<'t> Parser<'t> for NumberPart {
    ghost use Rattle.std.specs.Prelude.{ℤ};
    ghost use Rattle.grammar.specs.Places.{small};
    ghost use Rattle.trees.specs.Values.{Name};
    ghost use Rattle.trees.specs.Types.{numbered_name};
    ghost use Rattle.type_parts.specs.PlainReading.{named_number_at};
    ghost use Rattle.type_parts.specs.Shorts.{named_number_short};

    type Tree = NamedNumber;

    ghost Shape = { Name × ℤ };

    ghost view = { numbered_name };

    ghost reader = { λ _. named_number_at small };

    ghost is_ready = { λ _ _. Unit {0} };

    ghost is_short = { λ _ _ _. named_number_short small };

    fn read(&self, alloc: Global, text: &[u8], tokens: &'t [Token]) -> Read<'t, NamedNumber> {
        let part = WithName {
            part: InParens { part: Signed },
        };
        let (named, rest) = part.read(alloc, text, tokens)?;
        Ok((
            NamedNumber {
                name: named.name,
                number: named.value,
            },
            rest,
        ))
    }
}

/// A named bit (X.680, clause 22.1).
#[derive(Drop)]
pub struct BitPart;

impl<'t> Parser<'t> for BitPart {
    ghost use Rattle.std.specs.Prelude.{ℕ};
    ghost use Rattle.grammar.specs.Places.{small};
    ghost use Rattle.trees.specs.Values.{Name};
    ghost use Rattle.trees.specs.Types.{bit_of};
    ghost use Rattle.type_parts.specs.PlainReading.{named_bit_at};
    ghost use Rattle.type_parts.specs.Shorts.{named_bit_short};

    type Tree = NamedBit;

    ghost Shape = { Name × ℕ };

    ghost view = { bit_of };

    ghost reader = { λ _. named_bit_at small };

    ghost is_ready = { λ _ _. Unit {0} };

    ghost is_short = { λ _ _ _. named_bit_short small };

    fn read(&self, alloc: Global, text: &[u8], tokens: &'t [Token]) -> Read<'t, NamedBit> {
        let part = WithName {
            part: InParens { part: Number },
        };
        let (named, rest) = part.read(alloc, text, tokens)?;
        Ok((
            NamedBit {
                name: named.name,
                place: named.value,
            },
            rest,
        ))
    }
}

/// An item of an enumeration (X.680, clause 20.1).
#[derive(Drop)]
pub struct ItemPart;

impl<'t> Parser<'t> for ItemPart {
    ghost use Rattle.std.specs.Prelude.{ℤ, Option};
    ghost use Rattle.grammar.specs.Places.{small};
    ghost use Rattle.trees.specs.Values.{Name};
    ghost use Rattle.trees.specs.Types.{item_of};
    ghost use Rattle.type_parts.specs.PlainReading.{item_at};
    ghost use Rattle.type_parts.specs.Shorts.{item_short};

    type Tree = EnumeratedItem;

    ghost Shape = { Name × Option ℤ };

    ghost view = { item_of };

    ghost reader = { λ _. item_at small };

    ghost is_ready = { λ _ _. Unit {0} };

    ghost is_short = { λ _ _ _. item_short small };

    fn read(&self, alloc: Global, text: &[u8], tokens: &'t [Token]) -> Read<'t, EnumeratedItem> {
        let part = WithName {
            part: Optional {
                part: InParens { part: Signed },
            },
        };
        let (named, rest) = part.read(alloc, text, tokens)?;
        Ok((
            EnumeratedItem {
                name: named.name,
                number: named.value,
            },
            rest,
        ))
    }
}

/// Reads what comes after `INTEGER` (X.680, clause 19.1).
#[tactic(auto, unfolding(crate::specs::PlainReading::integer_at))]
pub fn integer<'t>(
    alloc: Global,
    text: &[u8],
    tokens: &'t [Token],
    depth: usize,
) -> Read<'t, Simple>
    requires tokens { AreTokens text.now tokens.now }
    ensures read { ReadsAs plain_of (integer_at small depth) text.now tokens.now result }
    ensures rest { IfOk result (λ x. AreTokens text.now x.1.now) }
{
    let part = CommaList { part: NumberPart };
    let braces = Optional {
        part: InBraces { depth, part },
    };
    let (numbers, rest) = braces.read(alloc, text, tokens)?;
    match numbers {
        Some(numbers) => Ok((Simple::Integer(numbers), rest)),
        None => Ok((Simple::Integer(Vec::new(alloc)), rest)),
    }
}

/// Reads what comes after `BIT STRING` (X.680, clause 22.1).
#[tactic(auto, unfolding(crate::specs::PlainReading::bits_at))]
pub fn bits<'t>(alloc: Global, text: &[u8], tokens: &'t [Token], depth: usize) -> Read<'t, Simple>
    requires tokens { AreTokens text.now tokens.now }
    ensures read { ReadsAs plain_of (bits_at small depth) text.now tokens.now result }
    ensures rest { IfOk result (λ x. AreTokens text.now x.1.now) }
{
    let part = CommaList { part: BitPart };
    let braces = Optional {
        part: InBraces { depth, part },
    };
    let (bits, rest) = braces.read(alloc, text, tokens)?;
    match bits {
        Some(bits) => Ok((Simple::BitString(bits), rest)),
        None => Ok((Simple::BitString(Vec::new(alloc)), rest)),
    }
}

/// Reads what comes after `ENUMERATED` (X.680, clause 20.1).
#[tactic(auto, unfolding(crate::specs::PlainReading::enumerated_at))]
pub fn enumerated<'t>(
    alloc: Global,
    text: &[u8],
    tokens: &'t [Token],
    depth: usize,
) -> Read<'t, Simple>
    requires tokens { AreTokens text.now tokens.now }
    ensures read { ReadsAs plain_of (enumerated_at small depth) text.now tokens.now result }
    ensures rest { IfOk result (λ x. AreTokens text.now x.1.now) }
{
    let part = ExtensibleList {
        part: ItemPart,
        addition: ItemPart,
    };
    let (items, rest) = InBraces { depth, part }.read(alloc, text, tokens)?;
    let items = EnumeratedSyntax {
        root: items.root,
        additions: items.additions,
    };
    Ok((Simple::Enumerated(Box::new(alloc, items)?), rest))
}
