//! The names of the notation, with their offsets in the text.

ghost use Rattle.std.specs.Prelude.{◌≡◌, None, IfOk};
ghost use Rattle.text.specs.declared.token.TokenKind.TheVariants as kinds;
ghost use Rattle.parser_combinators.specs.Reads.{ReadsAs, name_in};
ghost use Rattle.parser_combinators.specs.Given.{IsTokenIn, AreTokens};
ghost use Rattle.notation.specs.Reading.{named_by, ref_dot_at};

use parser_combinators::decode::name_of;
use parser_combinators::{Read, ReadError};
use std::alloc::{AllocError, Global};
use text::{Token, kind, mark};
use trees::{QualifiedName, Reference, ReferenceNames};

/// The name of a value, with no module's name before it.
pub fn unqualified(alloc: Global, text: &[u8], token: Token) -> Result<Reference, AllocError>
    requires token { IsTokenIn text.now token }
    requires name { token.kind ≡ kinds.Identifier }
    ensures { IfOk result (λ r. ((named_by r).0 ≡ None)
        × ((named_by r).1 ≡ name_in text.now token)) }
{
    Ok(Reference {
        at: token.start(),
        names: ReferenceNames::Alone(name_of(alloc, text, token)?),
    })
}

/// Reads the dot and the name of a value that come after a module's name.
#[tactic(auto, unfolding(crate::specs::Reading::ref_dot_at, crate::specs::Reading::ref_name_at))]
pub fn qualified<'a>(
    alloc: Global,
    text: &[u8],
    module_name: Token,
    tokens: &'a [Token],
) -> Read<'a, Reference>
    requires tokens { AreTokens text.now tokens.now }
    requires before { IsTokenIn text.now module_name }
    requires name { module_name.kind ≡ kinds.TypeReference }
    ensures read { ReadsAs named_by (ref_dot_at (name_in text.now module_name)) text.now tokens.now result }
    ensures rest { IfOk result (λ x. AreTokens text.now x.1.now) }
{
    match tokens {
        [mark!(Dot), value_name @ kind!(Identifier), rest @ ..] => {
            let at = module_name.start();
            let module = name_of(alloc, text, module_name)?;
            let name = name_of(alloc, text, *value_name)?;
            let names = Box::new(alloc, QualifiedName { module, name })?;
            let names = ReferenceNames::Qualified(names);
            Ok((Reference { at, names }, rest))
        }
        [mark!(Dot), rest @ ..] => Err(ReadError::Unexpected(rest.len())),
        _ => Err(ReadError::Unexpected(tokens.len())),
    }
}
