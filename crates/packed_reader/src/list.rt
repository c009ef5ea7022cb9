//! Elements that were read, their number and their order (X.691, 20 and 22).

ghost use Rattle.asn_base.specs.Seen.{constraint_of};
ghost use Rattle.bits.specs.Left.{bits_left};
ghost use Rattle.packed_reader.specs.Lists as lists;
ghost use Rattle.packed_reader.specs.proving.Code.{IsFewParts, gathered};
ghost use Rattle.packed_reader.specs.proving.Running.{no_elements};
ghost use Rattle.packed_readings.specs.Counts.{count_from, size_fault, total};
ghost use Rattle.packed_readings.specs.Outcome.{bad, good, judging, outcome};
ghost use Rattle.std.specs.Prelude.{◌≡◌, ◌≤◌, ◌^◌, IfErr, IfOk, length};

use crate::open::all_clear;
use asn_base::constraint::Constraint;
use asn_base::value::Value;
use bits::cursor::Bits;
use decode_faults::Refusal;
use packed_readings::law::count_laws;
use packed_readings::{Count, read_count};
use std::alloc::Global;

/// Elements, and the bits of the last one.
#[derive(Drop)]
pub(crate) struct Gathered<'a> {
    pub values: Vec<Value>,
    pub before: Bits<'a>,
}

impl<'a> Gathered<'a> {
    /// No elements.
    pub(crate) fn new(alloc: Global, bits: &Bits<'a>) -> Self
        ensures { gathered result ≡ no_elements }
    {
        Gathered {
            values: Vec::new(alloc),
            before: bits.front(0),
        }
    }
}

/// What follows the elements of one number: nothing, or those of a further number. `More` is true if that may be the
/// number of a fragment.
#[derive(Clone, Copy)]
pub(crate) enum Next {
    Nothing,
    More(bool),
}

/// What SIZE allows, whether the number of elements is given as one outside its root, and whether the elements come in
/// ascending order.
#[derive(Clone, Copy)]
pub(crate) struct Size<'a> {
    pub constraint: &'a Constraint,
    pub outside: bool,
    pub sorted: bool,
}

/// Whether the first bits are at most the second, where the shorter ones are filled with zeros (22.1).
pub(crate) fn at_most(first: Bits<'_>, second: Bits<'_>) -> bool
    ensures { result ≡ lists.at_most (bits_left first.entry) (bits_left second.entry) }
{
    let mut one = first;
    let mut two = second;
    while one.len() > 0 {
        let n = one.len().min(two.len()).min(64);
        if n == 0 {
            return all_clear(one);
        }
        let left = one.take(n);
        let right = two.take(n);
        if left != right {
            return left < right;
        }
    }
    true
}

/// The number, if that of all elements is allowed.
fn judged(size: Size<'_>, before: u128, count: Count) -> Result<Count, Refusal>
    requires before { before ≤ 2 ^ 100 }
    requires few { IsFewParts count }
    ensures few { IfOk result IsFewParts }
    ensures ok { IfOk result (λ c.
        total (size_fault (constraint_of size.entry.constraint.now) size.entry.outside) before count ≡ good c) }
    ensures err { IfErr result (λ e.
        total (size_fault (constraint_of size.entry.constraint.now) size.entry.outside) before count ≡ bad e) }
{
    match count {
        Count::Part(times) => Ok(Count::Part(times)),
        Count::Last(last) => match packed_readings::size_fault(
            size.constraint,
            size.outside,
            before + last as u128,
        ) {
            Some(refusal) => Err(refusal),
            None => Ok(Count::Last(last)),
        },
    }
}

/// Takes the number of the next elements, after `before` elements.
pub(crate) fn read_total(
    size: Size<'_>,
    before: u128,
    full: bool,
    bits: &mut Bits<'_>,
) -> Result<Count, Refusal>
    requires { before ≤ 2 ^ 100 }
    ensures few { IfOk result IsFewParts }
    ensures is { judging (total (size_fault (constraint_of size.entry.constraint.now) size.entry.outside) before)
        (count_from full) (bits_left bits.old)
        ≡ outcome result (bits_left bits.new) }
    ensures shorter { IfOk result (λ c. length (bits_left bits.new) ≤ length (bits_left bits.old)) }
{
    count_laws();
    let start = *bits;
    let count = match read_count(bits, full) {
        Ok(count) => count,
        Err(refusal) => return Err(refusal),
    };
    match judged(size, before, count) {
        Ok(count) => Ok(count),
        Err(refusal) => {
            *bits = start;
            Err(refusal)
        }
    }
}
