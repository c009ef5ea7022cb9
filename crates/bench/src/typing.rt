//! The values that the command line names.

use crate::calls::{Call, measure};
use crate::lines::{Work, print_count, print_since, refused};
use crate::modules::Target;
use asn_base::value::Value;
use ber_reader::read_ber;
use resolve::Referent;
use std::time::Instant;
use std::{fs, io};
use value_text::print;

/// The value that a word names. The time that it takes to type or to decode it is printed.
pub fn value_of(rt: &HostRuntime, target: Target<'_>, word: &str) -> io::Result<Value> {
    match word.strip_prefix('@') {
        Some(file) => decoded(rt, target, word, file),
        None => typed(rt, target, word),
    }
}

/// The value that the message in a file encodes. It prints how many octets the message has, and how many members the
/// value, which are components or elements.
fn decoded(rt: &HostRuntime, target: Target<'_>, name: &str, file: &str) -> io::Result<Value> {
    let message = fs::read(rt, file)?;
    let octets = message.as_slice();
    let Ok(read) = read_ber(rt.alloc(), &target.kit.code, target.id, octets) else {
        return refused(rt, name, "no message of the type");
    };
    print_count(rt, name, octets.len(), "octets")?;
    print_count(rt, name, read.view.top().count(), "members")?;
    let work = Work {
        times: 1,
        octets: octets.len(),
    };
    measure(rt, name, Call::Read(target, octets), work)?;
    Ok(read.view.to_value(rt.alloc())?)
}

/// The value with the name `Module.value`.
fn typed(rt: &HostRuntime, target: Target<'_>, word: &str) -> io::Result<Value> {
    let modules = &target.kit.modules;
    let (within, name) = word.split_once('.').unwrap_or((word, ""));
    let Some(Referent::ValueNamed(syntax)) = modules.linked().find(within, name) else {
        return refused(rt, word, "no value");
    };
    if target.id.index >= modules.linked().types().len() {
        return refused(rt, word, "no type");
    }
    let start = Instant::now(rt)?;
    let Ok(value) = modules.typed(rt.alloc(), target.id, within, syntax) else {
        return refused(rt, word, "no value of the type");
    };
    print_since(rt, start, word, "typed")?;
    Ok(value)
}

/// Prints a value once, and prints how many octets its notation has, and the time.
pub fn measure_printing(
    rt: &HostRuntime,
    target: Target<'_>,
    name: &str,
    value: &Value,
) -> io::Result<()> {
    let start = Instant::now(rt)?;
    let Ok(text) = print(rt.alloc(), &target.kit.schema, target.id, value) else {
        return refused(rt, name, "not printed");
    };
    print_since(rt, start, name, "printed")?;
    print_count(rt, name, text.len(), "octets printed")
}
