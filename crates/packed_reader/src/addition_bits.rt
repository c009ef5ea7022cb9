//! Steps of additions, and the bits that say which are present (X.691, 19.8).

ghost use Rattle.packed_reader.specs.proving.Running as running;
ghost use Rattle.std.specs.Prelude.{◌≡◌};

use packed_code::PackedStep;

/// Whether the step is that of an addition: a component by itself, or a group.
pub(crate) fn is_addition(step: PackedStep) -> bool
    ensures { result ≡ running.is_addition step }
{
    matches!(step, PackedStep::Added(_) | PackedStep::Group(_))
}

/// The bit of the next addition, 0 after the last one.
pub(crate) fn first_bit(map: &[bool]) -> bool
    ensures { result ≡ running.first_bit map.now }
{
    !map.is_empty() && map[0]
}

/// The bits of the other additions.
pub(crate) fn other_bits(map: &[bool]) -> &[bool]
    ensures { result.now ≡ running.other_bits map.now }
{
    if map.is_empty() { map } else { &map[1..] }
}
