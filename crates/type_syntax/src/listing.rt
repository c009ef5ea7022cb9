//! The members of a list in order, each as one of the root or as an addition.

ghost use Rattle.std.specs.Prelude.{◌≡◌, ◌<◌, ◌++◌, ◌∷◌, [], map, length, reverse, IfOk, IfSome, MatchOption};
ghost use Rattle.parser_combinators.specs.Parts.{addition_of};
ghost use Rattle.trees.specs.Types.{type_member_of};
ghost use Rattle.type_syntax.specs.TypeGrammar.{a_member, addition_members, all_members as all_members_of};
ghost use Rattle.type_syntax.specs.Listings.{named_component, listing_tree};

use parser_combinators::{Addition, Extensible};
use std::alloc::{AllocError, Global};
use trees::{Member, Named, PresenceSyntax, Standing, TypeSyntax};

/// A member's type, and whether it may be absent.
#[derive(Drop)]
pub struct ComponentSyntax {
    pub syntax: TypeSyntax,
    pub presence: PresenceSyntax,
}

/// Members in the order of the text: those of the root, and those after an extension marker, if it is there.
pub type Listing = Extensible<Named<ComponentSyntax>, Addition<Named<ComponentSyntax>>>;

/// A member, as one of the root or as an addition.
fn member(part: Named<ComponentSyntax>, standing: Standing) -> Member<TypeSyntax>
    ensures { type_member_of result ≡ a_member standing (named_component part) }
{
    Member {
        name: part.name,
        syntax: part.value.syntax,
        presence: part.value.presence,
        standing,
    }
}

/// How many parts are taken between two times that memory is given back.
const MANY_PARTS: usize = 1024;

/// Takes the first of the parts that are left, which are in reverse order. The memory of those that were taken is given
/// back now and then, since a list may be nearly as long as the text.
fn next_part<T>(parts: &mut Vec<T>) -> Option<T>
    ensures next { MatchOption result
        (reverse parts.old.items ≡ [])
        (λ x. reverse parts.old.items ≡ x ∷ reverse parts.new.items) }
    ensures fewer { IfSome result (λ _. length parts.new.items < length parts.old.items) }
{
    match parts.pop() {
        None => None,
        Some(part) => {
            if parts.len() % MANY_PARTS == 0 {
                parts.shrink_to_fit();
            }
            Some(part)
        }
    }
}

/// Adds members, all of the root or all additions, after others.
fn put_parts(
    members: Vec<Member<TypeSyntax>>,
    parts: Vec<Named<ComponentSyntax>>,
    standing: Standing,
) -> Result<Vec<Member<TypeSyntax>>, AllocError>
    ensures { IfOk result
        (λ v. map type_member_of v.items
        ≡ map type_member_of members.items ++ map (a_member standing) (map named_component parts.items)) }
{
    let mut members = members;
    let mut rest = parts;
    rest.reverse();
    while let Some(part) = next_part(&mut rest) {
        members.push(member(part, standing))?;
    }
    Ok(members)
}

/// Adds additions after the members of the root.
fn put_additions(
    members: Vec<Member<TypeSyntax>>,
    additions: Vec<Addition<Named<ComponentSyntax>>>,
) -> Result<Vec<Member<TypeSyntax>>, AllocError>
    ensures { IfOk result
        (λ v. map type_member_of v.items
        ≡ map type_member_of members.items
        ++ addition_members 0 (map (addition_of named_component) additions.items)) }
{
    let mut members = members;
    let mut number = 0;
    let mut rest = additions;
    rest.reverse();
    while let Some(addition) = next_part(&mut rest) {
        match addition {
            Addition::Alone(part) => members.push(member(part, Standing::Addition(None)))?,
            Addition::Bracket(parts) => {
                members = put_parts(members, parts, Standing::Addition(Some(number)))?;
                number += 1;
            }
        }
    }
    Ok(members)
}

/// All members, those of the root first, each as one of the root or as an addition.
pub fn all_members(alloc: Global, list: Listing) -> Result<Vec<Member<TypeSyntax>>, AllocError>
    ensures { IfOk result (λ v. map type_member_of v.items ≡ all_members_of (listing_tree list)) }
{
    let members = Vec::with_capacity(alloc, list.root.len())?;
    let mut members = put_parts(members, list.root, Standing::Root)?;
    if let Some(additions) = list.additions {
        members = put_additions(members, additions)?;
    }
    members.shrink_to_fit();
    Ok(members)
}
