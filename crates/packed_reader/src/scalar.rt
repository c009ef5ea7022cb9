//! Values of few bits: truth values, numbers between two numbers, and items of enumerations.

ghost use Rattle.asn_base.specs.Abstract.{abstract};
ghost use Rattle.asn_base.specs.Seen.{constraint_of, item_of, kind_of};
ghost use Rattle.asn_base.specs.Types.{a_boolean, an_enumerated, an_integer};
ghost use Rattle.bits.specs.Left.{bits_left};
ghost use Rattle.packed_code.specs.Routines.{routine_at};
ghost use Rattle.packed_reader.specs.Code.{scalar_value};
ghost use Rattle.packed_reader.specs.Readings.{read, taken};
ghost use Rattle.packed_reader.specs.proving.Code.{Advanced, IsGot};
ghost use Rattle.packed_reader.specs.proving.Running.{RunsValue, run_steps, run_value};
ghost use Rattle.packed_readings.specs.Leaves.{leaf_from};
ghost use Rattle.packed_readings.specs.Outcome.{found};
ghost use Rattle.std.specs.Prelude.{◌≡◌, ◌≤◌, IfSome, false, length, map, ℕ};

use crate::laws_of_running::running_laws;
use crate::reader::{Progress, Reader};
use asn_base::constraint::{Bounds, Constraint};
use asn_base::law::lemma_abstract_values;
use asn_base::schema::{Core, Items};
use asn_base::value::Value;
use bits::cursor::Bits;
use packed_readings::law::leaf_laws;
use packed_readings::{read_bit, read_integer, read_item};
use std::alloc::Global;

/// A value of few bits: a BOOLEAN, an INTEGER, or the number of an item of an ENUMERATED.
#[derive(Clone, Copy)]
pub(crate) enum Scalar {
    Truth(bool),
    Number(i128),
    Item(i128),
}

impl Scalar {
    /// The value.
    #[inline(always)]
    pub(crate) fn value(self) -> Value
        ensures { abstract result ≡ scalar_value self }
    {
        lemma_abstract_values();
        match self {
            Scalar::Truth(truth) => Value::Bool(truth),
            Scalar::Number(number) => Value::Int(number),
            Scalar::Item(number) => Value::Enum(number),
        }
    }
}

/// Takes a truth value (X.691, 12).
#[inline(always)]
fn take_truth(bits: &mut Bits<'_>) -> Option<Scalar>
    ensures { IfSome result
        (λ v. leaf_from (a_boolean) (bits_left bits.old) ≡ found (scalar_value v) (bits_left bits.new)) }
{
    match read_bit(bits) {
        Ok(truth) => Some(Scalar::Truth(truth)),
        Err(_) => None,
    }
}

/// Whether numbers of these bounds are sent in as many bits as the bounds give (X.691, 13.2.2).
#[inline(always)]
fn are_short(bounds: &Bounds) -> bool {
    !bounds.extensible && bounds.least.is_some() && bounds.greatest.is_some()
}

/// Takes a number between two numbers (X.691, 13).
#[inline(always)]
fn take_number(alloc: Global, constraint: &Constraint, bits: &mut Bits<'_>) -> Option<Scalar>
    ensures { IfSome result
        (λ v. leaf_from (an_integer (constraint_of constraint.now)) (bits_left bits.old)
        ≡ found (scalar_value v) (bits_left bits.new)) }
{
    if !are_short(&constraint.visible) {
        return None;
    }
    match read_integer(alloc, constraint, bits) {
        Ok(number) => Some(Scalar::Number(number)),
        Err(_) => None,
    }
}

/// Takes an item (X.691, 14).
#[inline(always)]
fn take_item(items: &Items, bits: &mut Bits<'_>) -> Option<Scalar>
    ensures { IfSome result
        (λ v. leaf_from (an_enumerated (map item_of items.now.root.items)
        items.now.extensible (map item_of items.now.additions.items)) (bits_left bits.old)
        ≡ found (scalar_value v) (bits_left bits.new)) }
{
    match read_item(items, bits) {
        Ok(number) => Some(Scalar::Item(number)),
        Err(_) => None,
    }
}

/// Takes a BOOLEAN, an INTEGER between two numbers, or an ENUMERATED. None: the kind is another one, or the bits have a
/// fault. The cursor may then have moved on.
#[inline(always)]
fn take_scalar(alloc: Global, core: &Core, bits: &mut Bits<'_>) -> Option<Scalar>
    ensures { IfSome result
        (λ v. leaf_from (kind_of core.now) (bits_left bits.old) ≡ found (scalar_value v) (bits_left bits.new)) }
{
    match core {
        Core::Boolean => take_truth(bits),
        Core::Integer(constraint) => take_number(alloc, constraint, bits),
        Core::Enumerated(items) => take_item(items, bits),
        _ => None,
    }
}

/// A BOOLEAN, an INTEGER between two numbers, or an ENUMERATED, if the reader's type is one. None: it is another type,
/// or the bits have a fault. The cursor may then have moved on.
#[inline(always)]
pub(crate) fn read_scalar(reader: Reader<'_>, bits: &mut Bits<'_>) -> Option<Scalar>
    ensures steps { IfSome result (λ v. (l k n : ℕ) (value : RunsValue)
        → run_steps reader.entry.code.now l value reader.entry.id.index
        (routine_at reader.entry.code.now reader.entry.id.index) k n (bits_left bits.old)
        ≡ read (taken (scalar_value v) k n) (bits_left bits.new)) }
    ensures shorter { IfSome result (λ v. length (bits_left bits.new) ≤ length (bits_left bits.old)) }
{
    leaf_laws();
    if !reader.code.has(reader.id) {
        return None;
    }
    let core = reader.code.schema().core(reader.id);
    match take_scalar(reader.alloc, core, bits) {
        Some(scalar) => Some(scalar),
        None => None,
    }
}

/// The next value, if the reader's type is a BOOLEAN, an INTEGER between two numbers, or an ENUMERATED, and `others` is
/// false. None: it is another type, no value may begin, or the bits have a fault. The cursor may then have moved on.
#[inline(always)]
pub(crate) fn next_scalar(
    reader: Reader<'_>,
    others: bool,
    progress: &mut Progress,
    bits: &mut Bits<'_>,
) -> Option<Scalar>
    ensures got { IfSome result (λ v. IsGot
        (run_value reader.entry.code.now reader.entry.levels reader.entry.id.index
        progress.old.skipped progress.old.left (bits_left bits.old))
        (scalar_value v) progress.new (bits_left bits.new)) }
    ensures advanced { IfSome result
        (λ v. Advanced progress.old (bits_left bits.old) progress.new (bits_left bits.new)) }
    ensures none { IfSome result (λ v. others ≡ false) }
{
    running_laws();
    if others {
        return None;
    }
    if reader.levels == 0 {
        return None;
    }
    if progress.left == 0 {
        return None;
    }
    match read_scalar(reader, bits) {
        Some(scalar) => {
            progress.left -= 1;
            Some(scalar)
        }
        None => None,
    }
}
