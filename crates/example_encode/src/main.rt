//! A program that calls the library: it makes values by names, encodes, decodes and packs them, prints their parts by
//! names, and says where octets and bits are refused.
#![tactic(auto)]

mod packed;
mod report;

use anyhow::{Context, Result};
use asnc::{InMemory, Kit, Rules, TypeId, Value};
use named_views::NamedValueRef;
use std::alloc::Global;
use value_builders::{Fields, item};

/// The text of the module that the program opens.
const MODULE: &str = "Weather DEFINITIONS AUTOMATIC TAGS ::= BEGIN
Reading ::= SEQUENCE {station INTEGER, sky Sky, note UTF8String OPTIONAL, gusts SEQUENCE OF INTEGER}
Sky ::= ENUMERATED {clear, cloudy, rain}
Report ::= SEQUENCE {sensor OBJECT IDENTIFIER, serial OCTET STRING, calibrated BOOLEAN, faults Faults, news News}
Faults ::= BIT STRING {battery(0), clock(1), antenna(2), heater(3)}
News ::= CHOICE {remark UTF8String, battery INTEGER (0..100)} END";

/// A message that is no reading: its sky has the number 9, which no item has.
const WRONG: [u8; 10] = [0x30, 0x08, 0x80, 0x01, 0x07, 0x81, 0x01, 0x09, 0xA3, 0x00];

/// The number of the type with a name, as `Weather.Sky`.
pub fn type_of(kit: &Kit, name: &str) -> Result<TypeId> {
    kit.type_named(name)
        .context("the module has no type of this name")
}

/// Prints what octets are, and then the octets.
pub fn print_octets(rt: &HostRuntime, what: &str, octets: &[u8]) -> Result<()> {
    print!(rt; "{what} ")?;
    for octet in octets {
        print!(rt; "{octet:02X}")?;
    }
    println!(rt; "")?;
    Ok(())
}

/// Makes a reading by the names of its components, in any order, and encodes it.
fn encoded(alloc: Global, kit: &Kit, reading: TypeId) -> Result<Vec<u8>> {
    let sky = type_of(kit, "Weather.Sky")?;
    let gusts = vec![in alloc; Value::Int(12), Value::Int(250)]?;
    let value = Fields::of(alloc, kit.schema(), reading)?
        .set("sky", item(alloc, kit.schema(), sky, "rain")?)?
        .set("gusts", Value::List(gusts))?
        .set("station", Value::Int(4097))?
        .finish()?;
    let mut sink = InMemory::of(Vec::new(alloc));
    kit.encode_to(alloc, reading, &value, &mut sink)?;
    Ok(sink.into_octets())
}

/// Prints what a reading holds, by the names of its components.
fn show(rt: &HostRuntime, reading: &NamedValueRef<'_, '_>) -> Result<()> {
    let station = reading.field("station").and_then(|part| part.as_int());
    println!(rt; "station {}", station.unwrap_or(0))?;
    let sky = reading.field("sky").and_then(|part| part.item_name());
    println!(rt; "sky {}", sky.unwrap_or("unknown"))?;
    if let Some(fields) = reading.fields() {
        for (name, _part) in fields {
            println!(rt; "has {name}")?;
        }
    }
    if let Some(gusts) = reading.field("gusts").and_then(|part| part.elements()) {
        for gust in gusts {
            println!(rt; "gust {}", gust.as_int().unwrap_or(0))?;
        }
    }
    Ok(())
}

/// Prints why octets are no reading, and where, or that they are one.
fn explain(rt: &HostRuntime, kit: &Kit, reading: TypeId, octets: &[u8]) -> Result<()> {
    match kit.decode(rt.alloc(), reading, octets, Rules::Ber) {
        Ok(_read) => println!(rt; "a reading")?,
        Err(fault) => {
            let error = kit.locate(rt.alloc(), reading, octets, fault)?;
            println!(rt; "{error}, in {}", error.path)?;
        }
    }
    Ok(())
}

fn main(rt: HostRuntime) -> Result<()> {
    let alloc = rt.alloc();
    let kit = Kit::open(alloc, &[Vec::from_slice(alloc, MODULE.as_bytes())?])?;
    let reading = type_of(&kit, "Weather.Reading")?;
    let octets = encoded(alloc, &kit, reading)?;
    print_octets(&rt, "reading", octets.as_slice())?;
    let read = kit.decode(alloc, reading, octets.as_slice(), Rules::Der)?;
    show(&rt, &NamedValueRef::of(&read.view, kit.schema(), reading))?;
    explain(&rt, &kit, reading, &WRONG)?;
    report::run(&rt, &kit)
}
