//! Reading the imports of a module.

ghost use Rattle.std.specs.Prelude.{◌≡◌, map, IfOk};
ghost use Rattle.text.specs.declared.token.TokenKind.TheVariants as kinds;
ghost use Rattle.grammar.specs.Lexeme.{lexemes};
ghost use Rattle.grammar.specs.Manies.{is_begun_by};
ghost use Rattle.grammar.specs.Places.{small};
ghost use Rattle.parser_combinators.specs.Reads.{ReadsAs, SkipsAs, name_in};
ghost use Rattle.parser_combinators.specs.Given.{IsTokenIn, AreTokens};
ghost use Rattle.grammar.specs.Rules.{number_at};
ghost use Rattle.trees.specs.Values.{name_at};
ghost use Rattle.trees.specs.Modules.{import_of};
ghost use Rattle.module_head.specs.ImportReading.{begins_arc, begins_symbol, arc_number_at, after_arc_at, arc_at, more_arcs_at, arcs_at, oid_at, after_module_at, module_ref_at, from_module_at, import_from_at, imports_from_at, imported_at};
ghost use Rattle.module_head.specs.HeadReading.{import_list_at};

use crate::heading::{semicolon, symbols};
use parser_combinators::decode::{name_at, small_number};
use parser_combinators::punctuation::{close, closed, open};
use parser_combinators::{Read, ReadError};
use std::alloc::Global;
use text::{Token, kind, mark, word};
use trees::{At, Import};

/// Reads a number.
#[tactic(auto, unfolding(grammar::specs::Rules::number_at))]
fn number<'a>(text: &[u8], tokens: &'a [Token]) -> Read<'a, u128>
    requires tokens { AreTokens text.now tokens.now }
    ensures read { ReadsAs (λ x. x) (number_at small) text.now tokens.now result }
    ensures rest { IfOk result (λ x. AreTokens text.now x.1.now) }
{
    match tokens {
        [number @ kind!(Number), rest @ ..] => {
            let value = small_number(text, *number, tokens.len())?;
            Ok((value, rest))
        }
        _ => Err(ReadError::Unexpected(tokens.len())),
    }
}

/// Reads the number in parentheses that comes after a name.
#[tactic(auto, unfolding(crate::specs::ImportReading::arc_number_at, grammar::specs::Reading::parens_at))]
fn arc_number<'a>(text: &[u8], tokens: &'a [Token]) -> Result<&'a [Token], ReadError>
    requires tokens { AreTokens text.now tokens.now }
    ensures read { SkipsAs (arc_number_at small) text.now tokens.now result }
    ensures rest { IfOk result (λ x. AreTokens text.now x.now) }
{
    let rest = open(text, tokens)?;
    let (_, rest) = number(text, rest)?;
    let rest = close(text, rest)?;
    Ok(rest)
}

/// Reads what comes after a name.
#[tactic(auto, unfolding(crate::specs::ImportReading::after_arc_at))]
fn after_arc<'a>(text: &[u8], tokens: &'a [Token]) -> Result<&'a [Token], ReadError>
    requires tokens { AreTokens text.now tokens.now }
    ensures read { SkipsAs (after_arc_at small) text.now tokens.now result }
    ensures rest { IfOk result (λ x. AreTokens text.now x.now) }
{
    match tokens {
        [mark!(OpenParenthesis), ..] => arc_number(text, tokens),
        _ => Ok(tokens),
    }
}

/// Reads one arc of an object identifier.
#[tactic(auto, unfolding(crate::specs::ImportReading::arc_at))]
fn arc<'a>(text: &[u8], tokens: &'a [Token]) -> Result<&'a [Token], ReadError>
    requires tokens { AreTokens text.now tokens.now }
    ensures read { SkipsAs (arc_at small) text.now tokens.now result }
    ensures rest { IfOk result (λ x. AreTokens text.now x.now) }
{
    match tokens {
        [number @ kind!(Number), rest @ ..] => {
            small_number(text, *number, tokens.len())?;
            Ok(rest)
        }
        [kind!(Identifier), rest @ ..] => after_arc(text, rest),
        _ => Err(ReadError::Unexpected(tokens.len())),
    }
}

/// Whether the next token begins an arc.
fn is_arc(text: &[u8], tokens: &[Token]) -> bool
    ensures { result ≡ is_begun_by begins_arc (lexemes text.now tokens.now) }
{
    matches!(tokens, [kind!(Number | Identifier), ..])
}

/// Whether the next token begins a name.
fn is_symbol(text: &[u8], tokens: &[Token]) -> bool
    ensures { result ≡ is_begun_by begins_symbol (lexemes text.now tokens.now) }
{
    matches!(tokens, [kind!(TypeReference | Identifier), ..])
}

/// Reads arcs, as many as there are.
#[tactic(auto, unfolding(crate::specs::ImportReading::more_arcs_at))]
fn more_arcs<'a>(text: &[u8], tokens: &'a [Token]) -> Result<&'a [Token], ReadError>
    requires tokens { AreTokens text.now tokens.now }
    ensures read { SkipsAs (more_arcs_at small) text.now tokens.now result }
    ensures rest { IfOk result (λ x. AreTokens text.now x.now) }
{
    let mut rest = tokens;
    while is_arc(text, rest) {
        rest = arc(text, rest)?;
    }
    Ok(rest)
}

/// Reads arcs, at least one.
#[tactic(auto, unfolding(crate::specs::ImportReading::arcs_at))]
fn arcs<'a>(text: &[u8], tokens: &'a [Token]) -> Result<&'a [Token], ReadError>
    requires tokens { AreTokens text.now tokens.now }
    ensures read { SkipsAs (arcs_at small) text.now tokens.now result }
    ensures rest { IfOk result (λ x. AreTokens text.now x.now) }
{
    let rest = arc(text, tokens)?;
    more_arcs(text, rest)
}

/// Reads an object identifier, which has no meaning here.
#[tactic(auto, unfolding(crate::specs::ImportReading::oid_at))]
fn oid<'a>(text: &[u8], tokens: &'a [Token]) -> Result<&'a [Token], ReadError>
    requires tokens { AreTokens text.now tokens.now }
    ensures read { SkipsAs (oid_at small) text.now tokens.now result }
    ensures rest { IfOk result (λ x. AreTokens text.now x.now) }
{
    match tokens {
        [mark!(OpenBrace), rest @ ..] => {
            let rest = arcs(text, rest)?;
            closed(text, rest)
        }
        _ => Err(ReadError::Unexpected(tokens.len())),
    }
}

/// Reads what comes after a module's name.
#[tactic(auto, unfolding(crate::specs::ImportReading::after_module_at))]
fn after_module<'a>(
    alloc: Global,
    text: &[u8],
    module_name: Token,
    tokens: &'a [Token],
) -> Read<'a, At<String>>
    requires tokens { AreTokens text.now tokens.now }
    requires before { IsTokenIn text.now module_name }
    requires name { module_name.kind ≡ kinds.TypeReference }
    ensures read { ReadsAs name_at (after_module_at small (name_in text.now module_name))
        text.now tokens.now result }
    ensures rest { IfOk result (λ x. AreTokens text.now x.1.now) }
{
    match tokens {
        [mark!(OpenBrace), ..] => {
            let rest = oid(text, tokens)?;
            Ok((name_at(alloc, text, module_name)?, rest))
        }
        _ => Ok((name_at(alloc, text, module_name)?, tokens)),
    }
}

/// Reads a module's name, and an object identifier if one follows it (X.680, clause 13.1).
#[tactic(auto, unfolding(crate::specs::ImportReading::module_ref_at))]
pub fn module_ref<'a>(alloc: Global, text: &[u8], tokens: &'a [Token]) -> Read<'a, At<String>>
    requires tokens { AreTokens text.now tokens.now }
    ensures read { ReadsAs name_at (module_ref_at small) text.now tokens.now result }
    ensures rest { IfOk result (λ x. AreTokens text.now x.1.now) }
{
    match tokens {
        [name @ kind!(TypeReference), rest @ ..] => after_module(alloc, text, *name, rest),
        _ => Err(ReadError::Unexpected(tokens.len())),
    }
}

/// Reads `FROM` and a module's name.
#[tactic(auto, unfolding(crate::specs::ImportReading::from_module_at))]
fn from_module<'a>(alloc: Global, text: &[u8], tokens: &'a [Token]) -> Read<'a, At<String>>
    requires tokens { AreTokens text.now tokens.now }
    ensures read { ReadsAs name_at (from_module_at small) text.now tokens.now result }
    ensures rest { IfOk result (λ x. AreTokens text.now x.1.now) }
{
    match tokens {
        [word!(From), rest @ ..] => module_ref(alloc, text, rest),
        _ => Err(ReadError::Unexpected(tokens.len())),
    }
}

/// Reads names and the module that they are from.
#[tactic(auto, unfolding(crate::specs::ImportReading::import_from_at))]
fn import_from<'a>(alloc: Global, text: &[u8], tokens: &'a [Token]) -> Read<'a, Import>
    requires tokens { AreTokens text.now tokens.now }
    ensures read { ReadsAs import_of (import_from_at small) text.now tokens.now result }
    ensures rest { IfOk result (λ x. AreTokens text.now x.1.now) }
{
    let (names, rest) = symbols(alloc, text, tokens)?;
    let (module, rest) = from_module(alloc, text, rest)?;
    Ok((Import { names, module }, rest))
}

/// Reads imports from modules, as many as there are.
fn many<'a>(alloc: Global, text: &[u8], tokens: &'a [Token]) -> Read<'a, Vec<Import>>
    requires tokens { AreTokens text.now tokens.now }
    ensures read { ReadsAs (λ x. map import_of x.items) (imports_from_at small) text.now tokens.now result }
    ensures rest { IfOk result (λ x. AreTokens text.now x.1.now) }
{
    let mut imports = Vec::new(alloc);
    let mut rest = tokens;
    while is_symbol(text, rest) {
        let (next, after) = import_from(alloc, text, rest)?;
        imports.push(next)?;
        rest = after;
    }
    Ok((imports, rest))
}

/// Reads what comes after `IMPORTS`.
#[tactic(auto, unfolding(crate::specs::ImportReading::imported_at))]
fn imported<'a>(alloc: Global, text: &[u8], tokens: &'a [Token]) -> Read<'a, Vec<Import>>
    requires tokens { AreTokens text.now tokens.now }
    ensures read { ReadsAs (λ x. map import_of x.items) (imported_at small) text.now tokens.now result }
    ensures rest { IfOk result (λ x. AreTokens text.now x.1.now) }
{
    let (imports, rest) = many(alloc, text, tokens)?;
    Ok((imports, semicolon(text, rest)?))
}

/// Reads the imports (X.680, clause 13.12); the list is empty if none are written.
#[tactic(auto, unfolding(crate::specs::HeadReading::import_list_at, crate::specs::ImportReading::imports_at))]
pub fn import_list<'a>(alloc: Global, text: &[u8], tokens: &'a [Token]) -> Read<'a, Vec<Import>>
    requires tokens { AreTokens text.now tokens.now }
    ensures read { ReadsAs (λ x. map import_of x.items) (import_list_at small) text.now tokens.now result }
    ensures rest { IfOk result (λ x. AreTokens text.now x.1.now) }
{
    match tokens {
        [word!(Imports), rest @ ..] => imported(alloc, text, rest),
        _ => Ok((Vec::new(alloc), tokens)),
    }
}
