//! Components that are absent.

ghost use Rattle.asn_base.specs.Types.{Component as Component'};
ghost use Rattle.packed_reader.specs.Levels as levels_of;
ghost use Rattle.packed_reader.specs.Levels.{is_within};
ghost use Rattle.packed_writer.specs.proving.Values.{HasComponent};
ghost use Rattle.std.specs.Prelude.{◌≡◌, ◌≤◌};

use asn_base::decide::may_be_absent;
use asn_base::schema::TypeId;
use packed_code::PackedCode;

/// Whether the component at this place of the type may be absent: it isn't mandatory, and its DEFAULT, if it has one,
/// has at most so many levels.
#[inline(always)]
pub(crate) fn may_lack(code: &PackedCode, id: TypeId, place: usize, levels: u8) -> bool
    requires there { (c : Component') × HasComponent code.now id.index place c }
    requires few { levels ≤ 63 }
    ensures { (c : Component')
        → HasComponent code.now id.index place c
        → result ≡ levels_of.may_lack (is_within code.now levels) c }
{
    code.lemma_invariant();
    may_be_absent(code.schema(), id, place, levels)
}
