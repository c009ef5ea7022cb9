//! Where reading of a message stops.

ghost use Rattle.ber_reader.specs.Messages.{IsRead, budget_of};
ghost use Rattle.ber_reader.specs.Opened.{opens};
ghost use Rattle.ber_reader.specs.Paths.{AreOpenBefore, BeginsBefore, begun_in};
ghost use Rattle.ber_reader.specs.Stops.{IsAt, IsEntered, IsStop};
ghost use Rattle.decode_faults.specs.declared.read_fault.ReadFault.TheVariants.{Memory};
ghost use Rattle.std.specs.Prelude.{◌≡◌, ◌<◌, ◌≤◌, [], false, IfOk, length, OnOk};

use crate::follower::Follower;
use crate::open::{OpenValue, enter};
use asn_base::schema::TypeId;
use codec_code::Code;
use codec_source::read;
use decode_faults::ReadFault;
use laws_reading::law::lemma_stops_in_place;
use limits::{MAX_MESSAGE, MAX_OPEN};
use octet_answers::law::lemma_one_answer;
use std::alloc::{AllocError, Global};

/// Where reading of a message stops: the offset of the first octet that isn't read, from 0, and the values that are
/// open there. They are in order, the outermost first, each with the part of it that was being read.
#[derive(Drop)]
pub struct ErrorPosition {
    pub place: usize,
    pub values: Vec<OpenValue>,
}

impl ErrorPosition {
    /// Marks that a part of the innermost open value begins: the part that a token named, or else the next element.
    /// `AllocError` comes only if an allocation fails.
    pub(crate) fn enter(&mut self) -> Result<(), AllocError>
        ensures { OnOk result (IsEntered self.old self.new) }
    {
        enter(&mut self.values)
    }
}

/// The most values that can begin in a message: each octet except the last begins at most one header, and at most 64
/// values are nested.
pub(crate) fn most_values(octets: &[u8]) -> usize
    ensures { length octets.now ≤ 16777216 → result ≡ budget_of (length octets.now) }
{
    octets.len().min(MAX_MESSAGE) * MAX_OPEN + MAX_OPEN
}

/// The first octet after the 16,777,216 that a message may have. No value is open there.
fn past_limit(alloc: Global) -> ErrorPosition
    ensures place { result.place ≡ 16777216 }
    ensures values { result.values.items ≡ [] }
{
    ErrorPosition {
        place: MAX_MESSAGE,
        values: Vec::new(alloc),
    }
}

/// Returns where reading of the message stops, if at most `most` values may begin. `AllocError` comes only if an
/// allocation fails.
///
/// If the message has more than 16,777,216 octets, the place is the first octet after these. If it is read to its end,
/// the place is its end.
pub(crate) fn stop_before(
    alloc: Global,
    code: &Code,
    id: TypeId,
    octets: &[u8],
    most: usize,
) -> Result<ErrorPosition, AllocError>
    ensures is { IfOk result (λ w. IsStop code.now id octets.now most w) }
    ensures place { IfOk result (λ w. w.place ≤ length octets.now) }
    // If the message would be read to its end, and more than `most` values begin in it, reading stops before the first
    // value that may not begin.
    ensures before { (r : IsRead code.now id octets.now)
        → length octets.now ≤ 16777216
        → most < begun_in r.last.emitted
        → IfOk result (λ w. AreOpenBefore r.last.emitted most w.values.items) }
    // If the message is read to its end, and as many values may begin as can be in it, reading stops at its end.
    ensures whole { (r : IsRead code.now id octets.now)
        → length octets.now ≤ 16777216
        → most ≡ budget_of (length octets.now)
        → IfOk result (λ w. IsAt octets.now w r.last) }
{
    lemma_one_answer();
    lemma_stops_in_place();
    let mut follower = match Follower::new(alloc, code, octets, &[], most) {
        Ok(follower) => follower,
        Err(_) => return Ok(past_limit(alloc)),
    };
    match read(alloc, code, id, &mut follower) {
        Ok(()) => stopped(follower),
        Err(fault) => {
            if is_memory(fault) {
                return Err(AllocError);
            }
            stopped(follower)
        }
    }
}

/// Whether the fault is want of memory.
pub(crate) fn is_memory(fault: ReadFault) -> bool
    ensures { result ≡ false → fault ≡ Memory → ⊥ }
{
    fault == ReadFault::Memory
}

/// The offset of the first octet that isn't read, and the values that are open there.
fn stopped(follower: Follower<'_, '_, '_>) -> Result<ErrorPosition, AllocError>
    ensures place { IfOk result (λ w. w.place ≡ follower.entry.state.here.at) }
    ensures values { IfOk result (λ w. w.values.items ≡ opens follower.entry.state.emitted) }
{
    let place = follower.at();
    let values = follower.into_values()?;
    Ok(ErrorPosition { place, values })
}

/// Returns the number of values that begin in the message before the first one to which the way leads, or of all that
/// begin, if the way leads to none of them. `AllocError` comes only if an allocation fails.
pub(crate) fn begun_before(
    alloc: Global,
    code: &Code,
    id: TypeId,
    octets: &[u8],
    path: &[OpenValue],
) -> Result<usize, AllocError>
    ensures { (r : IsRead code.now id octets.now)
        → length octets.now ≤ 16777216
        → IfOk result (BeginsBefore path.now [] r.last.emitted) }
{
    let most = most_values(octets);
    let mut follower = match Follower::new(alloc, code, octets, path, most) {
        Ok(follower) => follower,
        Err(_) => return Ok(most),
    };
    match read(alloc, code, id, &mut follower) {
        Ok(()) => follower.number(),
        Err(fault) => {
            if is_memory(fault) {
                return Err(AllocError);
            }
            Ok(most)
        }
    }
}
