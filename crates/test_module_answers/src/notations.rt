//! The values of notations, or their faults.

ghost use Rattle.std.specs.Prelude.{◌<◌, length};
ghost use Rattle.type_table.specs.Lists.{AreSound};

use crate::answers;
use crate::linking::type_at;
use crate::places::place;
use crate::shown::put;
use asn_base::schema::TypeId;
use asn_base::value::Value;
use constraints::Bounded;
use names::{Assigned, ValueAt};
use resolve::Linked;
use std::alloc::{AllocError, Global};
use trees::ValueSyntax;
use typed_values::{Cause, Defaults, ValueFault, ValueSite, read_with, typed};
use value_diagnostics::number;

/// More levels than a value has.
const LEVELS: u8 = 80;

/// The name of the value assignment with this number.
fn value_name(linked: &Linked, number: usize) -> &str {
    match linked.values().get(number) {
        Some(value) if value.assignment < linked.assignments().len() => {
            linked.assigned(value.assignment).name
        }
        _ => "?",
    }
}

/// Details of a fault that a user doesn't get: which value comes back to itself, and the places in lists.
fn detail(alloc: Global, linked: &Linked, cause: Cause<'_>) -> Result<String, AllocError> {
    let (kind, number) = match cause {
        Cause::Circular(number, _, _) => {
            let name = value_name(linked, number);
            return format!(in alloc; ", which is {name}");
        }
        Cause::UnknownField(field, _, _)
        | Cause::Repeated(field, _, _)
        | Cause::OutOfOrder(field, _, _) => ("field", field),
        Cause::Missing(component, _, _) => ("component", component),
        _ => return Ok(String::new(alloc)),
    };
    format!(in alloc; ", which is {kind} {number}")
}

/// The words for a fault: those for a user, the place of the wrong name or of the notation, its class, and the notation
/// with its type.
fn refused<'a>(
    alloc: Global,
    texts: &[Vec<u8>],
    bounded: &Bounded<'a>,
    fault: ValueFault<'a>,
) -> Result<String, AllocError> {
    let at = fault.at;
    let linked = bounded.linked();
    if at.ty.index >= linked.types().len() {
        return String::from_str(alloc, "no type");
    }
    let words = value_diagnostics::diagnostic(alloc, bounded, fault)?;
    let class = number(words.reason);
    let named = place(
        alloc,
        texts,
        words.source_location.module.as_str(),
        words.source_location.at,
    )?;
    let detail = detail(alloc, linked, fault.cause)?;
    let home = linked.home(at.ty);
    let (module, name) = (home.module, home.name);
    let notation = place(alloc, texts, at.within, at.notation.at)?;
    format!(in alloc; "{words}{named}{detail}; {class}, notation{notation} under {module}.{name}")
}

/// The words for a value, or for a fault.
fn described<'a>(
    alloc: Global,
    texts: &[Vec<u8>],
    bounded: &Bounded<'a>,
    answer: Result<Value, ValueFault<'a>>,
) -> Result<String, AllocError> {
    match answer {
        Ok(value) => {
            let mut text = String::new(alloc);
            put(&mut text, &value, LEVELS)?;
            Ok(text)
        }
        Err(fault) => refused(alloc, texts, bounded, fault),
    }
}

/// The value assignment with this name.
fn value_at<'a>(linked: &'a Linked, path: &str) -> Option<&'a ValueAt> {
    let (within, name) = path.split_once('.')?;
    match linked.meaning(within, name) {
        Some(Assigned::Value(number)) => linked.values().get(number),
        _ => None,
    }
}

/// The answer for a notation that is read a second time with one table of DEFAULTs.
fn twice<'a>(
    alloc: Global,
    bounded: &Bounded<'a>,
    at: ValueSite<'a>,
) -> Result<Result<Value, ValueFault<'a>>, AllocError>
    requires there { at.ty.index < length bounded.now.program.types }
    requires sound { AreSound bounded.now.program.types }
{
    let mut defaults = Defaults::of(alloc, bounded)?;
    let first = read_with(alloc, bounded, &mut defaults, at);
    drop(first);
    Ok(read_with(alloc, bounded, &mut defaults, at))
}

/// The answer for a notation that is read alone and with a table of DEFAULTs.
fn answer<'a>(
    alloc: Global,
    texts: &[Vec<u8>],
    bounded: &Bounded<'a>,
    at: ValueSite<'a>,
) -> Result<String, AllocError>
    requires there { at.ty.index < length bounded.now.program.types }
    requires sound { AreSound bounded.now.program.types }
{
    let alone = typed(alloc, bounded, at.ty, at.within, at.notation);
    let alone = described(alloc, texts, bounded, alone)?;
    let shared = twice(alloc, bounded, at)?;
    let shared = described(alloc, texts, bounded, shared)?;
    if alone == shared {
        Ok(alone)
    } else {
        format!(in alloc; "{alone}, and with a table {shared}")
    }
}

/// The line for `M.v` or `M.v=M.T`.
pub fn line(
    alloc: Global,
    texts: &[Vec<u8>],
    bounded: &Bounded<'_>,
    word: &str,
) -> Result<String, AllocError>
    requires sound { AreSound bounded.now.program.types }
{
    let linked = bounded.linked();
    let (name, under) = match word.split_once('=') {
        Some((name, under)) => (name, Some(under)),
        None => (word, None),
    };
    let Some(value) = value_at(linked, name) else {
        return answers::line(alloc, word, "no value");
    };
    let ty = match under {
        None => TypeId { index: value.ty },
        Some(path) => match type_at(linked, path) {
            Some(ty) => ty,
            None => return answers::line(alloc, word, "no type"),
        },
    };
    if !bounded.has(ty) || value.assignment >= linked.assignments().len() {
        return answers::line(alloc, word, "no number of a type");
    }
    let at = ValueSite {
        ty,
        within: linked.assigned(value.assignment).module,
        notation: &value.syntax,
    };
    let answer = answer(alloc, texts, bounded, at)?;
    answers::line(alloc, word, answer.as_str())
}
