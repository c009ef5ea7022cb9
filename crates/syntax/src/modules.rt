//! Reading a module from its first token on.

ghost use Rattle.std.specs.Prelude.{◌≡◌, map, IfOk, Ok};
ghost use Rattle.text.specs.declared.token.TokenKind.TheVariants as kinds;
ghost use Rattle.grammar.specs.Lexeme.{lexemes};
ghost use Rattle.grammar.specs.Manies.{is_begun_by};
ghost use Rattle.grammar.specs.Places.{small};
ghost use Rattle.parser_combinators.specs.Reads.{ReadsAs, name_in};
ghost use Rattle.parser_combinators.specs.Given.{IsTokenIn, AreTokens};
ghost use Rattle.trees.specs.Modules.{assignment_tree_of, module_tree_of};
ghost use Rattle.syntax.specs.Reading.{type_assigned_at, value_assigned_at, begins_assignment, assignment_at, many_assignments_at, assignments_at};
ghost use Rattle.syntax.specs.ModuleReading.{module_at};

use module_head::head::{assign, head};
use notation::reading::value;
use parser_combinators::decode::name_at;
use parser_combinators::{Read, ReadError};
use std::alloc::Global;
use text::{Token, kind, word};
use trees::{Assignment, Module, TypeAssignment, ValueAssignment};
use type_syntax::types::type_syntax;

/// Reads what comes after the name of a type that is assigned.
fn type_assignment<'a>(
    alloc: Global,
    text: &[u8],
    name: Token,
    tokens: &'a [Token],
    depth: usize,
) -> Read<'a, Assignment>
    requires tokens { AreTokens text.now tokens.now }
    requires before { IsTokenIn text.now name }
    requires name { name.kind ≡ kinds.TypeReference }
    ensures read { ReadsAs assignment_tree_of (type_assigned_at small depth (name_in text.now name))
        text.now tokens.now result }
    ensures rest { IfOk result (λ x. AreTokens text.now x.1.now) }
{
    let rest = assign(text, tokens)?;
    let (syntax, rest) = type_syntax(alloc, text, rest, depth)?;
    let name = name_at(alloc, text, name)?;
    Ok((Assignment::Type(TypeAssignment { name, syntax }), rest))
}

/// Reads what comes after the name of a value that is assigned.
fn value_assignment<'a>(
    alloc: Global,
    text: &[u8],
    name: Token,
    tokens: &'a [Token],
    depth: usize,
) -> Read<'a, Assignment>
    requires tokens { AreTokens text.now tokens.now }
    requires before { IsTokenIn text.now name }
    requires name { name.kind ≡ kinds.Identifier }
    ensures read { ReadsAs assignment_tree_of (value_assigned_at small depth (name_in text.now name))
        text.now tokens.now result }
    ensures rest { IfOk result (λ x. AreTokens text.now x.1.now) }
{
    let (syntax, rest) = type_syntax(alloc, text, tokens, depth)?;
    let rest = assign(text, rest)?;
    let (value, rest) = value(alloc, text, rest, depth)?;
    let name = name_at(alloc, text, name)?;
    Ok((
        Assignment::Value(ValueAssignment {
            name,
            syntax,
            value,
        }),
        rest,
    ))
}

/// Reads an assignment.
#[tactic(auto, unfolding(crate::specs::Reading::assignment_at))]
fn assignment<'a>(
    alloc: Global,
    text: &[u8],
    tokens: &'a [Token],
    depth: usize,
) -> Read<'a, Assignment>
    requires tokens { AreTokens text.now tokens.now }
    ensures read { ReadsAs assignment_tree_of (assignment_at small depth) text.now tokens.now result }
    ensures rest { IfOk result (λ x. AreTokens text.now x.1.now) }
{
    match tokens {
        [name @ kind!(TypeReference), rest @ ..] => {
            type_assignment(alloc, text, *name, rest, depth)
        }
        [name @ kind!(Identifier), rest @ ..] => {
            value_assignment(alloc, text, *name, rest, depth)
        }
        _ => Err(ReadError::Unexpected(tokens.len())),
    }
}

/// Whether the next token begins an assignment.
fn begins(text: &[u8], tokens: &[Token]) -> bool
    ensures { result ≡ is_begun_by begins_assignment (lexemes text.now tokens.now) }
{
    matches!(tokens, [kind!(TypeReference | Identifier), ..])
}

/// Reads assignments, as many as there are.
fn many<'a>(
    alloc: Global,
    text: &[u8],
    tokens: &'a [Token],
    depth: usize,
) -> Read<'a, Vec<Assignment>>
    requires tokens { AreTokens text.now tokens.now }
    ensures read { ReadsAs (λ x. map assignment_tree_of x.items) (many_assignments_at small depth)
        text.now tokens.now result }
    ensures rest { IfOk result (λ x. AreTokens text.now x.1.now) }
{
    type_syntax::law::lemma_types_are_read();
    let mut assignments = Vec::new(alloc);
    let mut rest = tokens;
    while begins(text, rest) {
        let (next, after) = assignment(alloc, text, rest, depth)?;
        assignments.push(next)?;
        rest = after;
    }
    Ok((assignments, rest))
}

/// Reads the assignments of a module, and its END.
#[tactic(auto, unfolding(crate::specs::Reading::assignments_at, grammar::specs::Single::end_at))]
fn assignments<'a>(
    alloc: Global,
    text: &[u8],
    tokens: &'a [Token],
    depth: usize,
) -> Read<'a, Vec<Assignment>>
    requires tokens { AreTokens text.now tokens.now }
    ensures read { ReadsAs (λ x. map assignment_tree_of x.items) (assignments_at small depth)
        text.now tokens.now result }
    ensures rest { IfOk result (λ x. AreTokens text.now x.1.now) }
{
    let (assignments, rest) = many(alloc, text, tokens, depth)?;
    match rest {
        [word!(End), rest @ ..] => Ok((assignments, rest)),
        _ => Err(ReadError::Unexpected(rest.len())),
    }
}

/// Reads a module, in which at most `depth` braces, tags and lists may be nested in each other.
#[tactic(auto, unfolding(crate::specs::ModuleReading::module_at))]
pub fn module<'a>(alloc: Global, text: &[u8], tokens: &'a [Token], depth: usize) -> Read<'a, Module>
    requires tokens { AreTokens text.now tokens.now }
    ensures read { ReadsAs module_tree_of (module_at small depth) text.now tokens.now result }
    ensures rest { IfOk result (λ x. AreTokens text.now x.1.now) }
{
    let (head, rest) = head(alloc, text, tokens)?;
    let (assignments, rest) = assignments(alloc, text, rest, depth)?;
    Ok((
        Module {
            name: head.name,
            tag_default: head.tag_default,
            exports: head.exports,
            imports: head.imports,
            assignments,
        },
        rest,
    ))
}
