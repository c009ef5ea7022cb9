//! Open types (X.691, 11.2).

ghost use Rattle.bits.specs.Left.{bits_left};
ghost use Rattle.bits.specs.Words.{octet_bits};
ghost use Rattle.packed_encodings.specs.Lengths.{Bits as Bits'};
ghost use Rattle.packed_reader.specs.Readings.{read};
ghost use Rattle.packed_reader.specs.Structures as structures;
ghost use Rattle.packed_reader.specs.Structures.{contents_from, is_filling};
ghost use Rattle.packed_reader.specs.proving.Code.{HasRoom, IsBare, IsStop};
ghost use Rattle.packed_reader.specs.proving.Running.{run_unknown};
ghost use Rattle.packed_readings.specs.Outcome.{found};
ghost use Rattle.std.specs.Prelude.{◌≡◌, ◌++◌, ◌+◌, ◌*◌, ◌≤◌, ◌<◌, ◌^◌, nat_lt};
ghost use Rattle.std.specs.Prelude.{if◌then◌else◌, IfErr, IfOk, List, OnOk, length, ℕ};

use crate::reader::Progress;
use crate::stop::Stop;
use bits::cursor::Bits;
use decode_faults::Refusal;
use packed_readings::law::octets_laws;
use packed_readings::{read_bit, read_octets};
use std::alloc::Global;

/// Whether all bits are 0.
pub(crate) fn all_clear(bits: Bits<'_>) -> bool
    ensures { result ≡ structures.all_clear (bits_left bits.entry) }
{
    let mut rest = bits;
    while rest.len() > 0 {
        let n = rest.len().min(64);
        let number = rest.take(n);
        if number != 0 {
            return false;
        }
    }
    true
}

/// Whether bits are those that fill octets, after so many others: zeros, and fewer than eight; eight after none (11.1).
pub(crate) fn fills(used: usize, bits: Bits<'_>) -> bool
    ensures { result ≡ is_filling used (bits_left bits.entry) }
{
    let fits = if used == 0 {
        bits.len() == 8
    } else {
        bits.len() < 8
    };
    fits && all_clear(bits)
}

/// Takes the octets of an open type, after their number. `Truncated`: there are none (11.2.1).
pub(crate) fn take_octets(alloc: Global, bits: &mut Bits<'_>) -> Result<Vec<u8>, Stop>
    ensures ok { IfOk result (λ o. contents_from (bits_left bits.old) ≡ found o.items (bits_left bits.new)) }
    ensures err { IfErr result (IsBare (contents_from (bits_left bits.old)) (bits_left bits.new)) }
    ensures shorter { IfOk result (λ o.
        8 * length o.items + length (bits_left bits.new) < length (bits_left bits.old)) }
{
    octets_laws();
    match read_octets(alloc, bits) {
        Ok(octets) => {
            if octets.is_empty() {
                return Err(Stop::at(alloc, Refusal::Truncated));
            }
            Ok(octets)
        }
        Err(fault) => Err(Stop::of(alloc, fault)),
    }
}

/// Where a fault is within the octets of an open type, of which so many bits are left: there, if the octets are in one
/// piece; else after them.
pub(crate) fn fault_place<'a>(
    start: Bits<'a>,
    after: Bits<'a>,
    octets: usize,
    left: usize,
) -> Bits<'a>
    requires { left + length (bits_left after) ≤ length (bits_left start) }
    ensures { (o : List ℕ) (y z : Bits')
        → contents_from (bits_left start.entry) ≡ found o (bits_left after.entry)
        → length o ≡ octets
        → octet_bits o ≡ y ++ z
        → length z ≡ left
        → bits_left result ≡ (if nat_lt octets 16384 then z ++ bits_left after.entry else bits_left after.entry) }
{
    octets_laws();
    if octets >= 16384 {
        return after;
    }
    let mut place = start;
    place.skip(start.len() - (left + after.len()));
    place
}

/// Skips the open types of additions that the type lacks, and counts them.
pub(crate) fn skip_unknown(
    alloc: Global,
    map: &[bool],
    progress: &mut Progress,
    bits: &mut Bits<'_>,
) -> Result<(), Stop>
    requires { HasRoom progress.old (bits_left bits.old) }
    ensures ok { OnOk result (run_unknown progress.old.skipped map.now (bits_left bits.old)
        ≡ read progress.new.skipped (bits_left bits.new)) }
    ensures err { IfErr result (λ e. IsStop (run_unknown progress.old.skipped map.now (bits_left bits.old)) e
        (bits_left bits.new)) }
    ensures left { progress.new.left ≡ progress.old.left }
    ensures room { OnOk result (progress.new.skipped + length (bits_left bits.new)
        ≤ progress.old.skipped + length (bits_left bits.old)) }
{
    for i in 0..map.len() {
        if map[i] {
            match take_octets(alloc, bits) {
                Ok(_octets) => {}
                Err(stop) => return Err(stop),
            }
            progress.skipped += 1;
        }
    }
    Ok(())
}
