//! A value of more kinds: named bits, a choice, a text, octets, a truth and an object identifier.

use crate::packed::{explain_bits, pack_again, pack_part};
use crate::{print_octets, type_of};
use anyhow::Result;
use asnc::{Kit, Rules, TypeId, Value};
use named_views::NamedValueRef;
use std::alloc::Global;
use value_builders::{Fields, alternative, named_bits};

/// Makes a report: the bits of its faults and the alternative of its news are chosen by names.
fn made(alloc: Global, kit: &Kit, report: TypeId, news: TypeId) -> Result<Value> {
    let schema = kit.schema();
    let faults = type_of(kit, "Weather.Faults")?;
    let remark = Value::Text(String::from_str(alloc, "windy")?);
    let value = Fields::of(alloc, schema, report)?
        .set("sensor", Value::Oid(vec![in alloc; 2, 999, 7]?))?
        .set("serial", Value::Octets(vec![in alloc; 0xC0, 0xFE]?))?
        .set("calibrated", Value::Bool(true))?
        .set(
            "faults",
            named_bits(alloc, schema, faults, &["clock", "heater"])?,
        )?
        .set("news", alternative(alloc, schema, news, "remark", remark)?)?
        .finish()?;
    Ok(value)
}

/// Prints the leaves of a report. A leaf for which a named part has no call, as an object identifier, is found in the
/// part without its type.
fn show_leaves(rt: &HostRuntime, report: &NamedValueRef<'_, '_>) -> Result<()> {
    if let Some(sensor) = report.field("sensor") {
        if let Some(arcs) = sensor.part().as_oid() {
            for arc in arcs {
                println!(rt; "arc {arc}")?;
            }
        }
    }
    if let Some(serial) = report.field("serial").and_then(|part| part.as_octets()) {
        print_octets(rt, "serial", serial)?;
    }
    let calibrated = report.field("calibrated").and_then(|part| part.as_bool());
    println!(rt; "calibrated {}", calibrated.unwrap_or(false))?;
    Ok(())
}

/// Prints the name of the alternative of a report's news and its text, and packs the news alone.
fn show_news(rt: &HostRuntime, kit: &Kit, report: &NamedValueRef<'_, '_>) -> Result<()> {
    if let Some(news) = report.field("news") {
        if let Some((name, inner)) = news.alternative() {
            println!(rt; "{name} {}", inner.as_str().unwrap_or("without a text"))?;
        }
        pack_part(rt, kit, &news)?;
    }
    Ok(())
}

/// Makes a report, encodes it to octets in memory, and decodes, prints and packs it.
pub fn run(rt: &HostRuntime, kit: &Kit) -> Result<()> {
    let alloc = rt.alloc();
    let report = type_of(kit, "Weather.Report")?;
    let news = type_of(kit, "Weather.News")?;
    let value = made(alloc, kit, report, news)?;
    let (octets, _account) = kit.encode(alloc, report, &value)?;
    print_octets(rt, "report", octets.as_slice())?;
    let read = kit.decode(alloc, report, octets.as_slice(), Rules::Der)?;
    let text = kit.print(alloc, report, &read.view)?;
    println!(rt; "{text}")?;
    let whole = NamedValueRef::of(&read.view, kit.schema(), report);
    show_leaves(rt, &whole)?;
    show_news(rt, kit, &whole)?;
    pack_again(rt, kit, report, &value)?;
    explain_bits(rt, kit, news)
}
