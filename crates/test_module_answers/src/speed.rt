//! The times to settle long modules and to compare their types.

ghost use Rattle.std.specs.Prelude.{IfOk, map, string_bytes};
ghost use Rattle.front_end.specs.Accepted.{IsCheckedProgram};
ghost use Rattle.row_format.specs.Rows.{IsEntry};

use crate::linking::type_at;
use asn_base::schema::TypeId;
use constraints::{Bounded, bound};
use extensions::settle;
use front_end::{CheckedModules, open};
use later_versions::later;
use resolve::Linked;
use row_format::words::{asked, word};
use row_format::{Row, RowText};
use std::alloc::{AllocError, Global};
use std::time::{Duration, Instant};
use std::{io, slice};
use tagging::tag;

/// The time to settle bounded modules, or None if an allocation fails.
fn settling(rt: &HostRuntime, bounded: &Bounded<'_>) -> io::Result<Option<Duration>>
    requires { IsCheckedProgram bounded.now.program }
{
    let start = Instant::now(rt)?;
    if settle(rt.alloc(), bounded).is_err() {
        return Ok(None);
    }
    Ok(Some(start.elapsed(rt)?))
}

/// The time to settle linked modules, or None if an allocation fails.
fn settling_linked(rt: &HostRuntime, linked: &Linked) -> io::Result<Option<Duration>>
    requires { IsCheckedProgram linked.now.program }
{
    let Ok(tagged) = tag(rt.alloc(), linked) else {
        return Ok(None);
    };
    match bound(rt.alloc(), &tagged) {
        Ok(bounded) => settling(rt, &bounded),
        Err(_) => Ok(None),
    }
}

/// Opens and settles a module, and writes how many types it has. The times are written to standard error.
fn measure_settling(
    rt: &HostRuntime,
    out: &mut String,
    name: &str,
    text: &RowText,
) -> io::Result<()> {
    let count = text.name.as_str();
    let octets = text.octets.len();
    let start = Instant::now(rt)?;
    let front = match open(rt.alloc(), slice::from_ref(&text.octets)) {
        Ok(front) => front,
        Err(fault) => return Ok(write!(out, "{count}: {fault}\n")?),
    };
    let opening = start.elapsed(rt)?.as_micros();
    let types = front.schema.types().len();
    write!(out, "{count}: {types} types\n")?;
    front.modules.lemma_kept();
    let Some(settling) = settling_linked(rt, front.modules.linked())? else {
        return Ok(());
    };
    let settling = settling.as_micros();
    eprintln!(rt; "{name}: {octets} octets, opened {opening} us, settled {settling} us")
}

/// A module with a circle of lists. Each list holds itself and the next list, and the last holds the first. Each also
/// has the text `more`.
fn circle(alloc: Global, count: usize, more: &str) -> Result<Vec<u8>, AllocError> {
    let mut out = String::from_str(alloc, "M DEFINITIONS AUTOMATIC TAGS ::= BEGIN\n")?;
    for number in 0..count {
        let next = number.wrapping_add(1);
        let next = if next < count { next } else { 0 };
        write!(
            out,
            "T{number} ::= SEQUENCE {{a T{number} OPTIONAL, b T{next} OPTIONAL, ...{more}}}\n"
        )?;
    }
    out.push_str("END\n")?;
    Ok(out.into_bytes())
}

/// The program of such a module, with its first type. The result is None if an allocation fails.
fn opened(alloc: Global, count: usize, more: &str) -> Option<(CheckedModules, TypeId)> {
    let text = circle(alloc, count, more).ok()?;
    let front = open(alloc, slice::from_ref(&text)).ok()?;
    let first = type_at(front.modules.linked(), "M.T0")?;
    Some((front, first))
}

/// Compares two circles of lists, and writes whether the second is later. Each list of the second circle has one more
/// addition, so its first type is a later version of the first type of the first circle. The time is written to
/// standard error.
fn measure_later(
    rt: &HostRuntime,
    out: &mut String,
    name: &str,
    count: usize,
    later_count: usize,
) -> io::Result<()> {
    let first = opened(rt.alloc(), count, "");
    let second = opened(rt.alloc(), later_count, ", c NULL");
    let (Some((first, one)), Some((second, other))) = (first, second) else {
        return Ok(write!(out, "{count} and {later_count}: refused\n")?);
    };
    let start = Instant::now(rt)?;
    let is_later = later(rt.alloc(), &first.schema, one, &second.schema, other)?;
    let comparing = start.elapsed(rt)?.as_micros();
    write!(out, "{count} and {later_count}: {is_later}\n")?;
    eprintln!(rt; "{name}: {count} and {later_count} types, compared {comparing} us")
}

/// The lines of the answer to a row.
fn measured(rt: &HostRuntime, row: &Row) -> io::Result<String> {
    let mut lines = String::new(rt.alloc());
    let words = asked(rt.alloc(), row)?;
    let name = word(&words, 0);
    if name == "later" {
        let count = word(&words, 1).parse::<usize>().unwrap_or(0);
        let later_count = word(&words, 2).parse::<usize>().unwrap_or(0);
        measure_later(rt, &mut lines, name, count, later_count)?;
        return Ok(lines);
    }
    for text in &row.texts {
        measure_settling(rt, &mut lines, name, text)?;
    }
    Ok(lines)
}

/// `speed NAME WORD`: opens and settles each text of the row by itself. `speed NAME later NUMBER NUMBER`: compares the
/// first types of two modules with these numbers of lists by `later`. The result is the entry of the row. The times are
/// written to standard error.
pub fn measure(rt: &HostRuntime, row: &Row) -> io::Result<String>
    ensures { IfOk result (λ s. IsEntry (map string_bytes row.now.words.items) (string_bytes s)) }
{
    let lines = measured(rt, row)?;
    Ok(row.entry(rt.alloc(), lines.as_str())?)
}
