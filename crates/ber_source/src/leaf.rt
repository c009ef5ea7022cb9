//! Values that hold no others.

ghost use Rattle.asn_base.specs.Abstract.{AbstractValue, bits};
ghost use Rattle.ber_source.specs.PrimitiveValue.{IsValueOfToken};
ghost use Rattle.ber_source.specs.Shown.{IsShownAs};
ghost use Rattle.ber_source.specs.Wants.{AreHeld};
ghost use Rattle.encodings.specs.Strings.{WholeBits};
ghost use Rattle.primitive_reader.specs.Leaves.{ReadsContents};
ghost use Rattle.octets.specs.Forms.{is_constructed};
ghost use Rattle.segmented_strings.specs.Joining.{HasFewUnused, Denotes as DenotesJoined};
ghost use Rattle.std.specs.Prelude.{◌≡◌, ◌+◌, ◌≤◌, Bool, false, true, length, List, OnOk, ℕ};
ghost use Rattle.views.specs.Building.{Building, with_leaf};
ghost use Rattle.views.specs.Seen.{HasBuilt};
ghost use Rattle.views.specs.Tree.{Leaf as Leaf', leaf_value};

use crate::arcs::{object_arcs, relative_arcs};
use crate::{PrimitiveToken, PrimitiveValue};
use primitive_reader::Leaf;
use primitive_reader::law::lemma_one_reading;
use segmented_strings::Reassembled;
use segmented_strings::law::lemma_one_joining;
use std::alloc::AllocError;
use views::Builder;

/// Adds the value of contents octets, as the component with this number.
#[inline(always)]
pub(crate) fn push_held<'a>(
    builder: &mut Builder<'a>,
    number: u32,
    held: PrimitiveToken<'a>,
    decoded: PrimitiveValue<'a>,
) -> Result<(), AllocError>
    requires { IsValueOfToken held decoded }
    ensures { (v : AbstractValue) (b : Building)
        → AreHeld held.entry.kind (is_constructed held.entry.form) held.entry.octets.now held.entry.at v
        → HasBuilt builder.old b
        → OnOk result ((l : Leaf')
        × (leaf_value l ≡ v)
        × IsShownAs (is_constructed held.entry.form) held.entry.octets.now held.entry.at l
        × HasBuilt builder.new (with_leaf number l b)) }
{
    lemma_one_joining();
    match decoded {
        PrimitiveValue::Whole(leaf) => push_whole(builder, number, held, leaf),
        PrimitiveValue::Reassembled(joined) => push_joined(builder, number, joined),
    }
}

/// Adds the value of primitive contents octets, which were read already.
#[inline(always)]
fn push_whole<'a>(
    builder: &mut Builder<'a>,
    number: u32,
    held: PrimitiveToken<'a>,
    leaf: Leaf<'a>,
) -> Result<(), AllocError>
    requires short { held.at + length held.octets.now ≤ 16777216 }
    requires read { ReadsContents held.kind held.octets.now leaf }
    ensures { (v : AbstractValue) (b : Building)
        → AreHeld held.entry.kind false held.entry.octets.now held.entry.at v
        → HasBuilt builder.old b
        → OnOk result ((l : Leaf')
        × (leaf_value l ≡ v)
        × IsShownAs false held.entry.octets.now held.entry.at l
        × HasBuilt builder.new (with_leaf number l b)) }
{
    lemma_one_reading();
    match leaf {
        Leaf::Bits(_, _) => push_bits(builder, number, held.octets, held.at),
        Leaf::Octets(_) => builder.push_octets(number, held.octets, held.at),
        Leaf::Text(text) => builder.push_text(number, text, held.at),
        Leaf::Bool(truth) => builder.push_bool(number, truth),
        Leaf::Int(value) => builder.push_int(number, value),
        Leaf::Enum(item) => builder.push_enum(number, item),
        Leaf::Null => builder.push_null(number),
        Leaf::Oid(octets) => {
            let from = builder.lists.arcs.len();
            object_arcs(&mut builder.lists.arcs, octets)?;
            builder.push_oid(number, from)
        }
        Leaf::RelativeOid(octets) => {
            let from = builder.lists.arcs.len();
            relative_arcs(&mut builder.lists.arcs, octets)?;
            builder.push_relative_oid(number, from)
        }
    }
}

/// Adds bits: the first contents octet is the number of unused bits.
fn push_bits<'a>(
    builder: &mut Builder<'a>,
    number: u32,
    octets: &'a [u8],
    at: usize,
) -> Result<(), AllocError>
    requires whole { (s : List Bool) × WholeBits s octets.now }
    requires small { at + length octets.now ≤ 16777216 }
    ensures { (s : List Bool) (b : Building)
        → WholeBits s octets.now
        → HasBuilt builder.old b
        → OnOk result ((l : Leaf')
        × (leaf_value l ≡ bits s)
        × IsShownAs false octets.now at l
        × HasBuilt builder.new (with_leaf number l b)) }
{
    match octets.split_first() {
        Some((unused, following)) => builder.push_bits(number, *unused, following, at + 1),
        None => Ok(()),
    }
}

/// Adds a string that was joined from segments.
fn push_joined<'a>(
    builder: &mut Builder<'a>,
    number: u32,
    joined: Reassembled,
) -> Result<(), AllocError>
    requires { HasFewUnused joined }
    ensures { (v : AbstractValue) (b : Building) (x : List ℕ) (at : ℕ)
        → DenotesJoined joined v
        → HasBuilt builder.old b
        → OnOk result ((l : Leaf')
        × (leaf_value l ≡ v)
        × IsShownAs true x at l
        × HasBuilt builder.new (with_leaf number l b)) }
{
    match joined {
        Reassembled::Bits(unused, octets) => builder.push_joined_bits(
            number,
            unused,
            octets.as_slice(),
        ),
        Reassembled::Octets(octets) => builder.push_joined_octets(number, octets.as_slice()),
        Reassembled::Text(text) => builder.push_joined_text(number, text),
    }
}
