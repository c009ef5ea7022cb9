//! Reading the names of types.

ghost use Rattle.std.specs.Prelude.{◌≡◌, IfOk, slice_range};
ghost use Rattle.text.specs.declared.token.TokenKind.TheVariants as kinds;
ghost use Rattle.parser_combinators.specs.Given.{IsTokenIn, AreTokens};
ghost use Rattle.parser_combinators.specs.Reads.{ReadsAs};
ghost use Rattle.type_parts.specs.PlainReading.{ref_at};
ghost use Rattle.type_parts.specs.Shorts.{reference_of};

use parser_combinators::decode::name_of;
use parser_combinators::{Read, ReadError};
use std::alloc::Global;
use text::{Token, kind, mark};
use trees::{QualifiedName, Reference, ReferenceNames};

/// Reads what comes after a name (X.680, clause 14.1).
#[tactic(auto, unfolding(crate::specs::PlainReading::ref_at, crate::specs::PlainReading::type_in_at))]
pub fn reference<'a>(
    alloc: Global,
    text: &[u8],
    first: Token,
    tokens: &'a [Token],
) -> Read<'a, Reference>
    requires tokens { AreTokens text.now tokens.now }
    requires before { IsTokenIn text.now first }
    requires name { first.kind ≡ kinds.TypeReference }
    ensures read { ReadsAs reference_of (ref_at (slice_range text.now first.span.start first.span.end))
        text.now tokens.now result }
    ensures rest { IfOk result (λ x. AreTokens text.now x.1.now) }
{
    match tokens {
        [mark!(Dot), name @ kind!(TypeReference), rest @ ..] => {
            let at = first.start();
            let module = name_of(alloc, text, first)?;
            let name = name_of(alloc, text, *name)?;
            let names = Box::new(alloc, QualifiedName { module, name })?;
            let names = ReferenceNames::Qualified(names);
            Ok((Reference { at, names }, rest))
        }
        [mark!(Dot), rest @ ..] => Err(ReadError::Unexpected(rest.len())),
        _ => {
            let at = first.start();
            let names = ReferenceNames::Alone(name_of(alloc, text, first)?);
            Ok((Reference { at, names }, tokens))
        }
    }
}
