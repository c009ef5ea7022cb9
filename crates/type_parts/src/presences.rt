//! Reading whether a member may be absent.

ghost use Rattle.std.specs.Prelude.{IfOk};
ghost use Rattle.grammar.specs.Places.{small};
ghost use Rattle.parser_combinators.specs.Given.{AreTokens};
ghost use Rattle.parser_combinators.specs.Reads.{ReadsAs};
ghost use Rattle.notation.specs.Reading.{value_at};
ghost use Rattle.trees.specs.Types.{presence_tree};
ghost use Rattle.type_parts.specs.PlainReading.{presence_at};

use notation::reading::value;
use parser_combinators::Read;
use std::alloc::Global;
use text::{Token, word};
use trees::PresenceSyntax;

/// Reads whether a member may be absent (X.680, clause 25.1).
#[tactic(auto, unfolding(crate::specs::PlainReading::presence_at))]
pub fn presence<'a>(
    alloc: Global,
    text: &[u8],
    tokens: &'a [Token],
    depth: usize,
) -> Read<'a, PresenceSyntax>
    requires tokens { AreTokens text.now tokens.now }
    ensures read { ReadsAs presence_tree (presence_at (value_at small depth)) text.now tokens.now result }
    ensures rest { IfOk result (λ x. AreTokens text.now x.1.now) }
{
    match tokens {
        [word!(Optional), rest @ ..] => Ok((PresenceSyntax::Optional, rest)),
        [word!(Default), rest @ ..] => {
            let (value, rest) = value(alloc, text, rest, depth)?;
            Ok((PresenceSyntax::Default(Box::new(alloc, value)?), rest))
        }
        _ => Ok((PresenceSyntax::Mandatory, tokens)),
    }
}
