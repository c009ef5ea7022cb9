//! The linked modules of a row, and the answers about them after each further step.

ghost use Rattle.std.specs.Prelude.{IfOk};
ghost use Rattle.type_table.specs.Lists.{AreSound};

use crate::answers::lines;
use crate::faults::unbound;
use crate::words::modules_of;
use crate::{bounds, links, notations, paths};
use asn_base::schema::TypeId;
use constraints::{Bounded, bound};
use resolve::{Linked, Referent, link};
use row_format::Row;
use row_format::refusal::{Refusal, refuse};
use std::alloc::{AllocError, Global};
use tagging::{Tagged, tag};
use trees::Module;
use type_table::Shape;

/// The module of a text.
fn module(alloc: Global, text: &[u8]) -> Result<Module, Refusal> {
    let tokens = match text::lex(alloc, text) {
        Ok(tokens) => tokens,
        Err(fault) => return Err(refuse(alloc, &fault)),
    };
    match syntax::parse(alloc, text, tokens.as_slice()) {
        Ok(module) => Ok(module),
        Err(fault) => Err(refuse(alloc, &fault)),
    }
}

/// The linked modules of texts. The error is the words for the fault of a text or of linking.
fn linked(alloc: Global, texts: &[Vec<u8>]) -> Result<Linked, Refusal>
    ensures { IfOk result (λ l. AreSound l.program.types) }
{
    let mut modules = Vec::new(alloc);
    for text in texts {
        modules.push(module(alloc, text.as_slice())?)?;
    }
    match link(alloc, modules) {
        Ok(linked) => Ok(linked),
        Err(fault) => Err(refuse(alloc, &fault)),
    }
}

/// The type of a list's member.
fn member_type(linked: &Linked, list: TypeId, name: &str) -> Option<TypeId> {
    let written = linked.types().get(list.index)?;
    let Shape::Members(_, _, members) = &written.shape else {
        return None;
    };
    for member in members {
        if member.name.it.as_str() == name {
            return Some(TypeId { index: member.ty });
        }
    }
    None
}

/// The type with the name `Module.Type`, or its member with the name `Module.Type.member`. The result is None if there
/// is no such name.
pub fn type_at(linked: &Linked, path: &str) -> Option<TypeId> {
    let (within, rest) = path.split_once('.')?;
    let (name, member) = match rest.split_once('.') {
        Some((name, member)) => (name, Some(member)),
        None => (rest, None),
    };
    match (linked.find(within, name), member) {
        (Some(Referent::TypeNamed(id)), None) => Some(id),
        (Some(Referent::TypeNamed(id)), Some(member)) => member_type(linked, id, member),
        _ => None,
    }
}

/// The answer about modules whose constraints have their meanings.
fn answer_bounded(
    alloc: Global,
    row: &Row,
    texts: &[Vec<u8>],
    bounded: &Bounded<'_>,
) -> Result<String, AllocError>
    requires sound { AreSound bounded.now.program.types }
{
    if row.command() == "bounds" {
        return lines(
            alloc,
            row,
            "bounded",
            |word| bounds::line(alloc, bounded, word),
        );
    }
    lines(
        alloc,
        row,
        "typed",
        |word| notations::line(alloc, texts, bounded, word),
    )
}

/// The answer about modules whose types have tags.
fn answer_tagged(
    alloc: Global,
    row: &Row,
    texts: &[Vec<u8>],
    tagged: &Tagged<'_>,
) -> Result<String, Refusal>
    requires sound { AreSound tagged.now.program.types }
{
    if row.command() == "tags" {
        return Ok(lines(
            alloc,
            row,
            "tagged",
            |word| paths::line(alloc, tagged, word),
        )?);
    }
    match bound(alloc, tagged) {
        Ok(bounded) => Ok(answer_bounded(alloc, row, texts, &bounded)?),
        Err(fault) => Ok(unbound(alloc, texts, &fault)?),
    }
}

/// The answer about linked modules.
fn answer_linked(
    alloc: Global,
    row: &Row,
    texts: &[Vec<u8>],
    linked: &Linked,
) -> Result<String, Refusal>
    requires sound { AreSound linked.now.program.types }
{
    if row.command() == "link" {
        return Ok(links::answer(alloc, row, linked)?);
    }
    match tag(alloc, linked) {
        Ok(tagged) => answer_tagged(alloc, row, texts, &tagged),
        Err(fault) => Err(refuse(alloc, &fault)),
    }
}

/// - `link NAME [WORD ..]`: how many modules, types and values there are, and what each name means.
/// - `tags NAME [WORD ..]`: the tags of each of these types.
/// - `bounds NAME [WORD ..]`: the values that the constraints of each type leave.
/// - `typed NAME [WORD ..]`: the value of each notation, or its fault.
pub fn answer(alloc: Global, row: &Row) -> Result<String, Refusal> {
    let texts = modules_of(alloc, row, false)?;
    let linked = linked(alloc, texts.as_slice())?;
    answer_linked(alloc, row, texts.as_slice(), &linked)
}
