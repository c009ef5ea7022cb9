//! Reading a type from its first token on.

ghost use Rattle.std.specs.Prelude.{◌≡◌, ◌-◌, map, option_map, IfOk};
ghost use Rattle.grammar.specs.Lexeme.{lexemes};
ghost use Rattle.grammar.specs.Places.{small};
ghost use Rattle.grammar.specs.Reading.{inside_at, braces_at, named_at};
ghost use Rattle.parser_combinators.specs.Given.{Gives, AreTokens};
ghost use Rattle.parser_combinators.specs.Reads.{ReadsAs};
ghost use Rattle.notation.specs.Reading.{value_at};
ghost use Rattle.trees.specs.Constraints.{constraint_of};
ghost use Rattle.trees.specs.Types.{type_tree_of, a_type};
ghost use Rattle.type_syntax.specs.TypeGrammar.{of_listing, list_kind as list_kind_of, elements_kind as elements_kind_of, size_constraints};
ghost use Rattle.type_syntax.specs.TypeReading.{component_at, alternative_type_at, listing_at, body_at, alternatives_at, choice_at, inside_tag_at, tagged_at, one_type_at, plain_at, element_type_at, list_at, structure_at, after_keyword_at, type_step, type_at};
ghost use Rattle.type_syntax.specs.Listings.{component_of, listing_tree, form_tree};

use crate::braces::{alternatives, members};
use crate::listing::{ComponentSyntax, Listing, all_members};
use parser_combinators::{Extensible, Limit, Production, Read, ReadError, WithName, fn_parser};
use std::alloc::{AllocError, Global};
use std::marker::PhantomData;
use text::{Token, kind, mark, word};
use trees::{
    ConstraintSyntax, ElementsKind, ListKind, Named, PresenceSyntax, TypeForm, TypeSyntax,
};
use type_parts::constrained::{list_size, type_constraints};
use type_parts::presences::presence;
use type_parts::references::reference;
use type_parts::simple_types::simple;
use type_parts::tags::{keyword, tag};

/// The members of a SEQUENCE or SET, after their names, as a production that types read again.
pub struct Components;

impl Production for Components {
    ghost use Rattle.grammar.specs.Places.{small};
    ghost use Rattle.notation.specs.Reading.{value_at};
    ghost use Rattle.type_syntax.specs.Listings.{component_of};
    ghost use Rattle.type_syntax.specs.TypeGrammar.{ComponentTree};
    ghost use Rattle.type_syntax.specs.TypeReading.{component_at, type_at};

    type Tree = ComponentSyntax;

    ghost Shape = { ComponentTree };

    ghost view = { component_of };

    ghost reader = { λ n. component_at (type_at small n) (value_at small n) };
}

/// The alternatives of a CHOICE, after their names.
pub struct Alternatives;

impl Production for Alternatives {
    ghost use Rattle.grammar.specs.Places.{small};
    ghost use Rattle.type_syntax.specs.Listings.{component_of};
    ghost use Rattle.type_syntax.specs.TypeGrammar.{ComponentTree};
    ghost use Rattle.type_syntax.specs.TypeReading.{alternative_type_at, type_at};

    type Tree = ComponentSyntax;

    ghost Shape = { ComponentTree };

    ghost view = { component_of };

    ghost reader = { λ n. alternative_type_at (type_at small n) };
}

/// The offset at which these tokens begin, or 0 if there are none.
fn start(tokens: &[Token]) -> usize {
    match tokens.first() {
        Some(first) => first.start(),
        None => 0,
    }
}

/// A type, with the constraints after it.
#[tactic(auto, using(crate::proofs::Loop::type_tree))]
fn make_type(
    at: usize,
    form: TypeForm<TypeSyntax>,
    constraints: Vec<ConstraintSyntax>,
) -> TypeSyntax
    ensures { type_tree_of result ≡ a_type (form_tree form) (map constraint_of constraints.items) }
{
    TypeSyntax {
        at,
        form,
        constraints,
    }
}

/// The keyword `SEQUENCE` or `SET`, which begins a type.
#[derive(Clone, Copy)]
struct ListKeyword {
    /// The offset of the keyword in the text.
    at: usize,
    is_set: bool,
}

/// A SEQUENCE or a SET, by its keyword.
fn list_kind(keyword: ListKeyword) -> ListKind
    ensures { result ≡ list_kind_of keyword.is_set }
{
    if keyword.is_set {
        ListKind::Set
    } else {
        ListKind::Sequence
    }
}

/// A SEQUENCE OF or a SET OF, by its keyword.
fn elements_kind(keyword: ListKeyword) -> ElementsKind
    ensures { result ≡ elements_kind_of keyword.is_set }
{
    if keyword.is_set {
        ElementsKind::SetOf
    } else {
        ElementsKind::SequenceOf
    }
}

/// The constraints of a list type: its size, if one is given.
fn size_alone(
    alloc: Global,
    size: Option<ConstraintSyntax>,
) -> Result<Vec<ConstraintSyntax>, AllocError>
    ensures { IfOk result (λ v. map constraint_of v.items ≡ size_constraints (option_map constraint_of size)) }
{
    let mut constraints = Vec::new(alloc);
    if let Some(size) = size {
        constraints.push(size)?;
    }
    Ok(constraints)
}

/// The list of these members.
fn list_form(
    alloc: Global,
    kind: ListKind,
    list: Listing,
) -> Result<TypeForm<TypeSyntax>, AllocError>
    ensures { IfOk result (λ f. form_tree f ≡ of_listing kind (listing_tree list)) }
{
    let marker = list.additions.is_some();
    let members = all_members(alloc, list)?;
    Ok(TypeForm::List(kind, marker, members))
}

/// Reads a type, in which `depth` more braces, tags and lists may be open.
#[tactic(auto, using(crate::proofs::Loop::type_stepped))]
#[cycle(type_syntax)]
pub fn type_syntax<'a>(
    alloc: Global,
    text: &[u8],
    tokens: &'a [Token],
    depth: usize,
) -> Read<'a, TypeSyntax>
    requires tokens { AreTokens text.now tokens.now }
    ensures read { ReadsAs type_tree_of (type_at small depth) text.now tokens.now result }
    ensures rest { IfOk result (λ x. AreTokens text.now x.1.now) }
{
    step(alloc, text, tokens, depth)
}

/// Reads a type by its first token.
#[tactic(auto, unfolding(crate::specs::TypeReading::type_step))]
#[cycle(type_syntax)]
fn step<'a>(alloc: Global, text: &[u8], tokens: &'a [Token], depth: usize) -> Read<'a, TypeSyntax>
    requires tokens { AreTokens text.now tokens.now }
    ensures read { ReadsAs type_tree_of (type_step small depth (type_at small (depth - 1)) (value_at small (depth - 1)))
        text.now tokens.now result }
    ensures rest { IfOk result (λ x. AreTokens text.now x.1.now) }
{
    match tokens {
        [mark!(OpenBracket), ..] => tagged(alloc, text, tokens, depth),
        [first @ word!(Sequence), rest @ ..] => {
            let keyword = ListKeyword {
                at: first.start(),
                is_set: false,
            };
            after_keyword(alloc, text, keyword, rest, depth)
        }
        [first @ word!(Set), rest @ ..] => {
            let keyword = ListKeyword {
                at: first.start(),
                is_set: true,
            };
            after_keyword(alloc, text, keyword, rest, depth)
        }
        _ => plain(alloc, text, tokens, depth),
    }
}

/// Reads a tag and the type after it.
#[tactic(auto, unfolding(crate::specs::TypeReading::tagged_at))]
#[cycle(type_syntax)]
fn tagged<'a>(alloc: Global, text: &[u8], tokens: &'a [Token], depth: usize) -> Read<'a, TypeSyntax>
    requires tokens { AreTokens text.now tokens.now }
    ensures read { ReadsAs type_tree_of (tagged_at small depth (type_at small (depth - 1)))
        text.now tokens.now result }
    ensures rest { IfOk result (λ x. AreTokens text.now x.1.now) }
{
    match tokens {
        [first @ mark!(OpenBracket), rest @ ..] => {
            if depth == 0 {
                return Err(ReadError::Limit(Limit::Nesting, tokens.len()));
            }
            inside_tag(alloc, text, first.start(), rest, depth - 1)
        }
        _ => Err(ReadError::Unexpected(tokens.len())),
    }
}

/// Reads what comes after the bracket that opens a tag (X.680, clause 31.2.1).
#[tactic(auto, unfolding(crate::specs::TypeReading::inside_tag_at))]
#[cycle(type_syntax)]
fn inside_tag<'a>(
    alloc: Global,
    text: &[u8],
    at: usize,
    tokens: &'a [Token],
    depth: usize,
) -> Read<'a, TypeSyntax>
    requires tokens { AreTokens text.now tokens.now }
    ensures read { ReadsAs type_tree_of (inside_tag_at small (type_at small depth))
        text.now tokens.now result }
    ensures rest { IfOk result (λ x. AreTokens text.now x.1.now) }
{
    let (tag, rest) = tag(text, tokens)?;
    let (keyword, rest) = keyword(text, rest)?;
    let (inner, rest) = type_syntax(alloc, text, rest, depth)?;
    let form = TypeForm::Tagged(tag, keyword, Box::new(alloc, inner)?);
    Ok((make_type(at, form, Vec::new(alloc)), rest))
}

/// Reads a type that is no SEQUENCE and no SET, and the constraints after it.
#[tactic(auto, unfolding(crate::specs::TypeReading::plain_at, crate::specs::TypeReading::with_constraints_at))]
#[cycle(type_syntax)]
fn plain<'a>(alloc: Global, text: &[u8], tokens: &'a [Token], depth: usize) -> Read<'a, TypeSyntax>
    requires tokens { AreTokens text.now tokens.now }
    ensures read { ReadsAs type_tree_of (plain_at small depth (type_at small (depth - 1)))
        text.now tokens.now result }
    ensures rest { IfOk result (λ x. AreTokens text.now x.1.now) }
{
    let (form, rest) = one_type(alloc, text, tokens, depth)?;
    let (constraints, rest) = type_constraints(alloc, text, rest)?;
    Ok((make_type(start(tokens), form, constraints), rest))
}

/// Reads a type that is no SEQUENCE and no SET.
#[tactic(auto, unfolding(crate::specs::TypeReading::one_type_at, crate::specs::TypeReading::plain_form_at))]
#[cycle(type_syntax)]
fn one_type<'a>(
    alloc: Global,
    text: &[u8],
    tokens: &'a [Token],
    depth: usize,
) -> Read<'a, TypeForm<TypeSyntax>>
    requires tokens { AreTokens text.now tokens.now }
    ensures read { ReadsAs form_tree (one_type_at small depth (type_at small (depth - 1)))
        text.now tokens.now result }
    ensures rest { IfOk result (λ x. AreTokens text.now x.1.now) }
{
    match tokens {
        [first @ kind!(TypeReference), rest @ ..] => {
            let (name, rest) = reference(alloc, text, *first, rest)?;
            Ok((TypeForm::Reference(name), rest))
        }
        [word!(Choice), rest @ ..] => choice(alloc, text, rest, depth),
        _ => {
            let (ty, rest) = simple(alloc, text, tokens, depth)?;
            Ok((TypeForm::Simple(ty), rest))
        }
    }
}

/// Reads what comes after `CHOICE` (X.680, clause 29.1).
#[tactic(auto, unfolding(crate::specs::TypeReading::choice_at))]
#[cycle(type_syntax)]
fn choice<'a>(
    alloc: Global,
    text: &[u8],
    tokens: &'a [Token],
    depth: usize,
) -> Read<'a, TypeForm<TypeSyntax>>
    requires tokens { AreTokens text.now tokens.now }
    ensures read { ReadsAs form_tree (choice_at small depth (type_at small (depth - 1)))
        text.now tokens.now result }
    ensures rest { IfOk result (λ x. AreTokens text.now x.1.now) }
{
    let (list, rest) = choice_braces(alloc, text, tokens, depth)?;
    Ok((list_form(alloc, ListKind::Choice, list)?, rest))
}

/// Reads alternatives in braces.
#[tactic(auto, unfolding(grammar::specs::Reading::braces_at))]
#[cycle(type_syntax)]
fn choice_braces<'a>(
    alloc: Global,
    text: &[u8],
    tokens: &'a [Token],
    depth: usize,
) -> Read<'a, Listing>
    requires tokens { AreTokens text.now tokens.now }
    ensures read { ReadsAs listing_tree (braces_at depth (alternatives_at small (type_at small (depth - 1))))
        text.now tokens.now result }
    ensures rest { IfOk result (λ x. AreTokens text.now x.1.now) }
{
    match tokens {
        [mark!(OpenBrace), rest @ ..] => {
            if depth == 0 {
                return Err(ReadError::Limit(Limit::Nesting, tokens.len()));
            }
            inside_choice(alloc, text, rest, depth - 1)
        }
        _ => Err(ReadError::Unexpected(tokens.len())),
    }
}

/// Reads alternatives up to and with the closing brace, with an extension marker among them or not.
#[tactic(auto, unfolding(grammar::specs::Reading::inside_at, crate::specs::TypeReading::alternatives_at), using(crate::proofs::Loop::alternative_type_short))]
#[cycle(type_syntax)]
fn inside_choice<'a>(
    alloc: Global,
    text: &[u8],
    tokens: &'a [Token],
    depth: usize,
) -> Read<'a, Listing>
    requires tokens { AreTokens text.now tokens.now }
    ensures read { Gives (λ x. (listing_tree x.0, lexemes text.now x.1.now)) result
        (inside_at (alternatives_at small (type_at small depth)) (lexemes text.now tokens.now)) }
    ensures rest { IfOk result (λ x. AreTokens text.now x.1.now) }
{
    type_parts::law::lemma_parts_are_read();
    let inner = fn_parser(
        PhantomData::<Alternatives>,
        |ts|
            requires { AreTokens text.now ts.now }
            ensures read { Gives (λ x. (component_of x.0, lexemes text.entry.now x.1.now)) result
                (alternative_type_at (type_at small depth) (lexemes text.entry.now ts.now)) }
            ensures rest { IfOk result (λ x. AreTokens text.entry.now x.1.now) }
        { alternative_type(alloc, text, ts, depth) },
        depth,
    );
    alternatives(alloc, text, &WithName { part: inner }, tokens)
}

/// Reads the type of an alternative.
#[tactic(auto, unfolding(crate::specs::TypeReading::alternative_type_at))]
#[cycle(type_syntax)]
fn alternative_type<'a>(
    alloc: Global,
    text: &[u8],
    tokens: &'a [Token],
    depth: usize,
) -> Read<'a, ComponentSyntax>
    requires tokens { AreTokens text.now tokens.now }
    ensures read { ReadsAs component_of (alternative_type_at (type_at small depth)) text.now tokens.now result }
    ensures rest { IfOk result (λ x. AreTokens text.now x.1.now) }
{
    let (syntax, rest) = type_syntax(alloc, text, tokens, depth)?;
    let presence = PresenceSyntax::Mandatory;
    Ok((ComponentSyntax { syntax, presence }, rest))
}

/// Reads what comes after the keyword of a list.
#[tactic(auto, unfolding(crate::specs::TypeReading::after_keyword_at))]
#[cycle(type_syntax)]
fn after_keyword<'a>(
    alloc: Global,
    text: &[u8],
    keyword: ListKeyword,
    tokens: &'a [Token],
    depth: usize,
) -> Read<'a, TypeSyntax>
    requires tokens { AreTokens text.now tokens.now }
    ensures read { ReadsAs type_tree_of
        (after_keyword_at small depth (type_at small (depth - 1)) (value_at small (depth - 1)) keyword.is_set)
        text.now tokens.now result }
    ensures rest { IfOk result (λ x. AreTokens text.now x.1.now) }
{
    match tokens {
        [mark!(OpenBrace), ..] => structure(alloc, text, keyword, tokens, depth),
        _ => list(alloc, text, keyword, tokens, depth),
    }
}

/// Reads members in braces and the constraints after them.
#[tactic(auto, unfolding(crate::specs::TypeReading::structure_at, crate::specs::TypeReading::with_constraints_at))]
#[cycle(type_syntax)]
fn structure<'a>(
    alloc: Global,
    text: &[u8],
    keyword: ListKeyword,
    tokens: &'a [Token],
    depth: usize,
) -> Read<'a, TypeSyntax>
    requires tokens { AreTokens text.now tokens.now }
    ensures read { ReadsAs type_tree_of
        (structure_at small depth (type_at small (depth - 1)) (value_at small (depth - 1)) keyword.is_set)
        text.now tokens.now result }
    ensures rest { IfOk result (λ x. AreTokens text.now x.1.now) }
{
    let (list, rest) = body(alloc, text, tokens, depth)?;
    let form = list_form(alloc, list_kind(keyword), list)?;
    let (constraints, rest) = type_constraints(alloc, text, rest)?;
    Ok((make_type(keyword.at, form, constraints), rest))
}

/// Reads what may be in braces: members, with an extension marker among them or not, or nothing (X.680, clause 25.1).
#[tactic(auto, unfolding(crate::specs::TypeReading::body_at))]
#[cycle(type_syntax)]
fn body<'a>(alloc: Global, text: &[u8], tokens: &'a [Token], depth: usize) -> Read<'a, Listing>
    requires tokens { AreTokens text.now tokens.now }
    ensures read { ReadsAs listing_tree (body_at small depth (type_at small (depth - 1)) (value_at small (depth - 1)))
        text.now tokens.now result }
    ensures rest { IfOk result (λ x. AreTokens text.now x.1.now) }
{
    let (list, rest) = list_braces(alloc, text, tokens, depth)?;
    match list {
        Some(list) => Ok((list, rest)),
        None => Ok((
            Extensible {
                root: Vec::new(alloc),
                additions: None,
            },
            rest,
        )),
    }
}

/// Reads members in braces.
#[tactic(auto, unfolding(grammar::specs::Reading::braces_at))]
#[cycle(type_syntax)]
fn list_braces<'a>(
    alloc: Global,
    text: &[u8],
    tokens: &'a [Token],
    depth: usize,
) -> Read<'a, Option<Listing>>
    requires tokens { AreTokens text.now tokens.now }
    ensures read { ReadsAs (option_map listing_tree)
        (braces_at depth
        (listing_at small (named_at (component_at (type_at small (depth - 1)) (value_at small (depth - 1))))))
        text.now tokens.now result }
    ensures rest { IfOk result (λ x. AreTokens text.now x.1.now) }
{
    match tokens {
        [mark!(OpenBrace), rest @ ..] => {
            if depth == 0 {
                return Err(ReadError::Limit(Limit::Nesting, tokens.len()));
            }
            inside_list(alloc, text, rest, depth - 1)
        }
        _ => Err(ReadError::Unexpected(tokens.len())),
    }
}

/// Reads members up to and with the closing brace.
#[tactic(auto, using(crate::proofs::Loop::component_short))]
#[cycle(type_syntax)]
fn inside_list<'a>(
    alloc: Global,
    text: &[u8],
    tokens: &'a [Token],
    depth: usize,
) -> Read<'a, Option<Listing>>
    requires tokens { AreTokens text.now tokens.now }
    ensures read { ReadsAs (option_map listing_tree)
        (inside_at (listing_at small (named_at (component_at (type_at small depth) (value_at small depth)))))
        text.now tokens.now result }
    ensures rest { IfOk result (λ x. AreTokens text.now x.1.now) }
{
    type_parts::law::lemma_parts_are_read();
    let inner = fn_parser(
        PhantomData::<Components>,
        |ts|
            requires { AreTokens text.now ts.now }
            ensures read { ReadsAs component_of (component_at (type_at small depth) (value_at small depth))
                text.entry.now ts.now result }
            ensures rest { IfOk result (λ x. AreTokens text.entry.now x.1.now) }
        { component(alloc, text, ts, depth) },
        depth,
    );
    members(alloc, text, &WithName { part: inner }, tokens)
}

/// Reads a member's type, and whether it may be absent (X.680, clause 25.1).
#[tactic(auto, unfolding(crate::specs::TypeReading::component_at))]
#[cycle(type_syntax)]
fn component<'a>(
    alloc: Global,
    text: &[u8],
    tokens: &'a [Token],
    depth: usize,
) -> Read<'a, ComponentSyntax>
    requires tokens { AreTokens text.now tokens.now }
    ensures read { ReadsAs component_of (component_at (type_at small depth) (value_at small depth))
        text.now tokens.now result }
    ensures rest { IfOk result (λ x. AreTokens text.now x.1.now) }
{
    let (syntax, rest) = type_syntax(alloc, text, tokens, depth)?;
    let (presence, rest) = presence(alloc, text, rest, depth)?;
    Ok((ComponentSyntax { syntax, presence }, rest))
}

/// Reads the elements of a list type after its keyword (X.680, clauses 26.1 and 28.1).
#[tactic(auto, unfolding(crate::specs::TypeReading::list_at))]
#[cycle(type_syntax)]
fn list<'a>(
    alloc: Global,
    text: &[u8],
    keyword: ListKeyword,
    tokens: &'a [Token],
    depth: usize,
) -> Read<'a, TypeSyntax>
    requires tokens { AreTokens text.now tokens.now }
    ensures read { ReadsAs type_tree_of (list_at small depth (type_at small (depth - 1)) keyword.is_set)
        text.now tokens.now result }
    ensures rest { IfOk result (λ x. AreTokens text.now x.1.now) }
{
    let (size, rest) = list_size(alloc, text, tokens)?;
    let (element, rest) = element_type(alloc, text, rest, depth)?;
    let form = TypeForm::Elements(elements_kind(keyword), Box::new(alloc, element)?);
    let constraints = size_alone(alloc, size)?;
    Ok((make_type(keyword.at, form, constraints), rest))
}

/// Reads `OF` and the type of the elements.
#[tactic(auto, unfolding(crate::specs::TypeReading::element_type_at))]
#[cycle(type_syntax)]
fn element_type<'a>(
    alloc: Global,
    text: &[u8],
    tokens: &'a [Token],
    depth: usize,
) -> Read<'a, TypeSyntax>
    requires tokens { AreTokens text.now tokens.now }
    ensures read { ReadsAs type_tree_of (element_type_at small depth (type_at small (depth - 1)))
        text.now tokens.now result }
    ensures rest { IfOk result (λ x. AreTokens text.now x.1.now) }
{
    match tokens {
        [word!(Of), rest @ ..] => {
            if depth == 0 {
                return Err(ReadError::Limit(Limit::Nesting, tokens.len()));
            }
            type_syntax(alloc, text, rest, depth - 1)
        }
        _ => Err(ReadError::Unexpected(tokens.len())),
    }
}
