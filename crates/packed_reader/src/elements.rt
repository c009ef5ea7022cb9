//! The elements of SEQUENCE OF and SET OF types: their number, in fragments if they are many, and their values.

ghost use Rattle.asn_base.specs.Abstract.{abstract};
ghost use Rattle.asn_base.specs.Schemas.{AreBounds, IsSize};
ghost use Rattle.asn_base.specs.Seen.{constraint_of};
ghost use Rattle.bits.specs.Left.{bits_left};
ghost use Rattle.packed_reader.specs.proving.Code.{HasRoom, IsGot, IsLess, IsPart, IsStop, Advanced, gathered};
ghost use Rattle.packed_reader.specs.proving.Running.{no_elements, run_each, run_element, run_elements, run_list};
ghost use Rattle.packed_reader.specs.proving.Running.{run_parts, run_value};
ghost use Rattle.packed_readings.specs.Counts.{size_fault};
ghost use Rattle.packed_writer.specs.proving.Values.{IsList};
ghost use Rattle.std.specs.Prelude.{◌≡◌, ◌+◌, ◌≤◌, ◌<◌, IfErr, IfOk, OnOk, suc, true, ℕ};

use crate::list::{Gathered, Next, Size, at_most, read_total};
use crate::part::Part;
use crate::reader::{Progress, Reader};
use crate::stop::Stop;
use crate::value::read_value;
use asn_base::constraint::Constraint;
use asn_base::law::lemma_abstract_values;
use asn_base::schema::TypeId;
use asn_base::value::Value;
use bits::cursor::Bits;
use decode_faults::Refusal;
use packed_readings::law::count_laws;
use packed_readings::{Count, Sizing, read_size};
use packed_writer::size_of;

/// The elements of a SEQUENCE OF or SET OF (20 and 22).
#[cycle(reads)]
#[tactic(none)]
#[inline(never)]
pub(crate) fn read_each(
    reader: Reader<'_>,
    progress: &mut Progress,
    bits: &mut Bits<'_>,
    element: TypeId,
    sorted: bool,
) -> Result<Value, Stop>
    requires few { reader.levels ≤ 63 }
    requires room { HasRoom progress.old (bits_left bits.old) }
    requires list { IsList reader.code.now reader.id.index }
    ensures ok { IfOk result (λ v. IsGot
        (run_each reader.entry.code.now (run_value reader.entry.code.now reader.entry.levels) reader.entry.id.index
        sorted element.index progress.old.skipped progress.old.left (bits_left bits.old))
        (abstract v) progress.new (bits_left bits.new)) }
    ensures err { IfErr result (λ e. IsStop
        (run_each reader.entry.code.now (run_value reader.entry.code.now reader.entry.levels) reader.entry.id.index
        sorted element.index progress.old.skipped progress.old.left (bits_left bits.old))
        e (bits_left bits.new)) }
    ensures advanced { IfOk result (λ v. Advanced progress.old (bits_left bits.old) progress.new (bits_left bits.new)) }
{
    lemma_abstract_values();
    let constraint = size_of(reader.code.schema(), reader.id);
    let mut list = Gathered::new(reader.alloc, bits);
    let listed = Listed { constraint, sorted };
    match read_list(
        Reader {
            id: element,
            ..reader
        },
        progress,
        bits,
        &mut list,
        listed,
    ) {
        Ok(()) => Ok(Value::List(list.values)),
        Err(stop) => Err(stop),
    }
}

/// What SIZE allows of a list, and whether its elements come in ascending order of their bits.
#[derive(Clone, Copy)]
struct Listed<'a> {
    constraint: &'a Constraint,
    sorted: bool,
}

/// Elements of the reader's type after their number, as SIZE bounds it.
#[cycle(reads)]
#[tactic(none)]
fn read_list<'a>(
    reader: Reader<'_>,
    progress: &mut Progress,
    bits: &mut Bits<'a>,
    list: &mut Gathered<'a>,
    listed: Listed<'_>,
) -> Result<(), Stop>
    requires few { reader.levels ≤ 63 }
    requires room { HasRoom progress.old (bits_left bits.old) }
    requires bounds { AreBounds IsSize (constraint_of listed.constraint.now) }
    requires none { gathered list.old ≡ no_elements }
    ensures ok { OnOk result (IsGot
        (run_list (run_value reader.entry.code.now reader.entry.levels reader.entry.id.index) listed.entry.sorted
        (constraint_of listed.entry.constraint.now) progress.old.skipped progress.old.left (bits_left bits.old))
        (gathered list.new) progress.new (bits_left bits.new)) }
    ensures err { IfErr result (λ e. IsStop
        (run_list (run_value reader.entry.code.now reader.entry.levels reader.entry.id.index) listed.entry.sorted
        (constraint_of listed.entry.constraint.now) progress.old.skipped progress.old.left (bits_left bits.old))
        e (bits_left bits.new)) }
    ensures advanced { OnOk result (Advanced progress.old (bits_left bits.old) progress.new (bits_left bits.new)) }
{
    count_laws();
    match read_size(listed.constraint, bits) {
        Ok(Sizing::AtOnce(count)) => {
            let batch = Batch {
                count,
                sorted: listed.sorted,
            };
            read_elements(reader, progress, bits, list, batch)
        }
        Ok(Sizing::Counted(outside)) => {
            let size = Size {
                constraint: listed.constraint,
                outside,
                sorted: listed.sorted,
            };
            read_parts(reader, progress, bits, list, size)
        }
        Err(refusal) => Err(Stop::at(reader.alloc, refusal)),
    }
}

/// Elements of the reader's type after their number, in fragments if they are many (11.9.3).
#[cycle(reads)]
#[tactic(none)]
fn read_parts<'a>(
    reader: Reader<'_>,
    progress: &mut Progress,
    bits: &mut Bits<'a>,
    list: &mut Gathered<'a>,
    size: Size<'_>,
) -> Result<(), Stop>
    requires few { reader.levels ≤ 63 }
    requires room { HasRoom progress.old (bits_left bits.old) }
    ensures ok { OnOk result (IsGot
        (run_parts (run_value reader.entry.code.now reader.entry.levels reader.entry.id.index) size.entry.sorted
        (size_fault (constraint_of size.entry.constraint.now) size.entry.outside) (suc progress.old.left) true
        (gathered list.old) progress.old.skipped progress.old.left (bits_left bits.old))
        (gathered list.new) progress.new (bits_left bits.new)) }
    ensures err { IfErr result (λ e. IsStop
        (run_parts (run_value reader.entry.code.now reader.entry.levels reader.entry.id.index) size.entry.sorted
        (size_fault (constraint_of size.entry.constraint.now) size.entry.outside) (suc progress.old.left) true
        (gathered list.old) progress.old.skipped progress.old.left (bits_left bits.old))
        e (bits_left bits.new)) }
    ensures advanced { OnOk result (Advanced progress.old (bits_left bits.old) progress.new (bits_left bits.new)) }
{
    let mut full = true;
    let mut more = true;
    while more {
        match read_part(reader, progress, bits, list, Fragment { size, full }) {
            Ok(Next::Nothing) => more = false,
            Ok(Next::More(next)) => full = next,
            Err(stop) => return Err(stop),
        }
    }
    Ok(())
}

/// The elements of one number. A number may be that of a fragment only if `full` is true.
#[derive(Clone, Copy)]
struct Fragment<'a> {
    size: Size<'a>,
    full: bool,
}

/// The elements of one number, and what follows them.
#[cycle(reads)]
#[tactic(none)]
fn read_part<'a>(
    reader: Reader<'_>,
    progress: &mut Progress,
    bits: &mut Bits<'a>,
    list: &mut Gathered<'a>,
    fragment: Fragment<'_>,
) -> Result<Next, Stop>
    requires few { reader.levels ≤ 63 }
    requires room { HasRoom progress.old (bits_left bits.old) }
    ensures ok { IfOk result (λ x. IsPart
        (run_value reader.entry.code.now reader.entry.levels reader.entry.id.index) fragment.entry
        (gathered list.old) progress.old (bits_left bits.old) x (gathered list.new) progress.new (bits_left bits.new)) }
    ensures err { IfErr result (λ e. (f : ℕ) → IsStop
        (run_parts (run_value reader.entry.code.now reader.entry.levels reader.entry.id.index)
        fragment.entry.size.sorted
        (size_fault (constraint_of fragment.entry.size.constraint.now) fragment.entry.size.outside) (suc f)
        fragment.entry.full (gathered list.old) progress.old.skipped progress.old.left (bits_left bits.old))
        e (bits_left bits.new)) }
    ensures advanced { IfOk result (λ x. Advanced progress.old (bits_left bits.old) progress.new (bits_left bits.new)) }
    ensures fewer { IfOk result (λ x. IsLess x progress.new.left progress.old.left) }
{
    let before = list.values.len() as u128;
    let sorted = fragment.size.sorted;
    match read_total(fragment.size, before, fragment.full, bits) {
        Ok(Count::Last(count)) => {
            match read_elements(reader, progress, bits, list, Batch { count, sorted }) {
                Ok(()) => {}
                Err(stop) => return Err(stop),
            }
            Ok(Next::Nothing)
        }
        Ok(Count::Part(times)) => {
            let count = 16384 * times;
            match read_elements(reader, progress, bits, list, Batch { count, sorted }) {
                Ok(()) => {}
                Err(stop) => return Err(stop),
            }
            Ok(Next::More(times == 4))
        }
        Err(refusal) => Err(Stop::at(reader.alloc, refusal)),
    }
}

/// So many elements, and whether they come in ascending order.
#[derive(Clone, Copy)]
struct Batch {
    count: usize,
    sorted: bool,
}

/// Elements of the reader's type, one after the other.
#[cycle(reads)]
#[tactic(none)]
#[inline(never)]
fn read_elements<'a>(
    reader: Reader<'_>,
    progress: &mut Progress,
    bits: &mut Bits<'a>,
    list: &mut Gathered<'a>,
    batch: Batch,
) -> Result<(), Stop>
    requires few { reader.levels ≤ 63 }
    requires room { HasRoom progress.old (bits_left bits.old) }
    ensures ok { OnOk result (IsGot
        (run_elements (run_value reader.entry.code.now reader.entry.levels reader.entry.id.index) batch.sorted
        batch.count (gathered list.old) progress.old.skipped progress.old.left (bits_left bits.old))
        (gathered list.new) progress.new (bits_left bits.new)) }
    ensures err { IfErr result (λ e. IsStop
        (run_elements (run_value reader.entry.code.now reader.entry.levels reader.entry.id.index) batch.sorted
        batch.count (gathered list.old) progress.old.skipped progress.old.left (bits_left bits.old))
        e (bits_left bits.new)) }
    ensures advanced { OnOk result (Advanced progress.old (bits_left bits.old) progress.new (bits_left bits.new)) }
    ensures fewer { OnOk result (progress.new.left + batch.count ≤ progress.old.left) }
{
    for _i in 0..batch.count {
        match read_element(reader, progress, bits, list, batch.sorted) {
            Ok(()) => {}
            Err(stop) => return Err(stop),
        }
    }
    Ok(())
}

/// One more element. `NotCanonical`: elements come in ascending order, and its bits are below those of the one before
/// (22.1).
#[cycle(reads)]
#[tactic(none)]
#[inline(always)]
fn read_element<'a>(
    reader: Reader<'_>,
    progress: &mut Progress,
    bits: &mut Bits<'a>,
    list: &mut Gathered<'a>,
    sorted: bool,
) -> Result<(), Stop>
    requires few { reader.levels ≤ 63 }
    requires room { HasRoom progress.old (bits_left bits.old) }
    ensures ok { OnOk result (IsGot
        (run_element (run_value reader.entry.code.now reader.entry.levels reader.entry.id.index) sorted
        (gathered list.old) progress.old.skipped progress.old.left (bits_left bits.old))
        (gathered list.new) progress.new (bits_left bits.new)) }
    ensures err { IfErr result (λ e. IsStop
        (run_element (run_value reader.entry.code.now reader.entry.levels reader.entry.id.index) sorted
        (gathered list.old) progress.old.skipped progress.old.left (bits_left bits.old))
        e (bits_left bits.new)) }
    ensures advanced { OnOk result (Advanced progress.old (bits_left bits.old) progress.new (bits_left bits.new)) }
    ensures fewer { OnOk result (progress.new.left < progress.old.left) }
{
    let start = *bits;
    let number = list.values.len();
    let value = match read_value(reader, progress, bits) {
        Ok(value) => value,
        Err(stop) => return Err(stop.within(Part::Element(number))),
    };
    let own = start.front(start.len() - bits.len());
    if sorted && !at_most(list.before, own) {
        *bits = start;
        let stop = Stop::at(reader.alloc, Refusal::NotCanonical);
        return Err(stop.within(Part::Element(number)));
    }
    list.values.push(value)?;
    list.before = own;
    Ok(())
}
