//! Values that hold no others, judged while they are read.

ghost use Rattle.asn_base.specs.Abstract.{AbstractValue};
ghost use Rattle.asn_base.specs.Seen.{kind_of};
ghost use Rattle.asn_base.specs.Typed.{IsPrimitive};
ghost use Rattle.asn_base.specs.Types.{Resolved, a_relative_oid, an_object_identifier};
ghost use Rattle.ber_source.specs.PrimitiveValue.{IsValueOfToken};
ghost use Rattle.ber_source.specs.Seen.{as_token, value_token};
ghost use Rattle.ber_source.specs.Fits.{AllowsNone, IsJudge, IsOfType, MayBeEmpty};
ghost use Rattle.octet_answers.specs.States.{Token as Token', begun, ended};
ghost use Rattle.octets.specs.Forms.{is_constructed};
ghost use Rattle.primitive_reader.specs.Leaves.{Denotes, bits_but};
ghost use Rattle.std.specs.Prelude.{◌≡◌, ◌<◌, ◌^◌, ◌++◌, ◌∷◌, ◌↔◌, [], IsTrue, List, length, true};

use crate::{PrimitiveToken, PrimitiveValue, StructToken};
use asn_base::allowed::is_allowed_size;
use asn_base::leaf::{
    fits_bits, fits_boolean, fits_enumerated, fits_integer, fits_null, fits_octets, fits_text,
};
use asn_base::schema::{Core, TypeId};
use codec_code::Code;
use primitive_reader::Leaf;
use primitive_reader::law::lemma_one_reading;

/// Whether all values so far fit: each one that holds no others is one of its type, and each list that must not be
/// empty has an element. `last` is the type of the value that began last, and `fresh` is true if it began just now.
#[derive(Clone, Copy)]
pub struct Judge {
    pub(crate) last: TypeId,
    pub(crate) fresh: bool,
    pub(crate) fits: bool,
}

/// The number of bits in octets, without the `unused` ones of the last octet.
fn bit_count(unused: u8, octets: &[u8]) -> u128
    ensures count { result ≡ length (bits_but unused octets.now) }
    ensures small { result < 2 ^ 127 }
{
    (octets.len() as u128 * 8).saturating_sub(u128::from(unused))
}

/// Whether values of the kind are object identifiers.
fn is_object_identifier(core: &Core) -> bool
    ensures { IsTrue result → kind_of core.now ≡ an_object_identifier }
{
    match core {
        Core::ObjectIdentifier => true,
        _ => false,
    }
}

/// Whether values of the kind are relative object identifiers.
fn is_relative_oid(core: &Core) -> bool
    ensures { IsTrue result → kind_of core.now ≡ a_relative_oid }
{
    match core {
        Core::RelativeOid => true,
        _ => false,
    }
}

/// Whether a value that was read, of primitive contents octets, is one of the kind. An object identifier that was read
/// is one whatever its numbers are.
#[inline(always)]
fn fits_whole(core: &Core, leaf: Leaf<'_>) -> bool
    ensures { IsTrue result → (v : AbstractValue) → Denotes leaf.entry v → IsPrimitive (kind_of core.now) v }
{
    match leaf {
        Leaf::Bool(truth) => fits_boolean(core, truth),
        Leaf::Int(number) => fits_integer(core, number),
        Leaf::Enum(number) => fits_enumerated(core, number),
        Leaf::Bits(unused, octets) => fits_bits(core, bit_count(unused, octets)),
        Leaf::Octets(octets) => fits_octets(core, octets),
        Leaf::Text(text) => fits_text(core, text),
        Leaf::Null => fits_null(core),
        Leaf::Oid(_) => is_object_identifier(core),
        Leaf::RelativeOid(_) => is_relative_oid(core),
    }
}

/// Whether what was read is a value of the type. The result is false for strings in segments, which may be of the type.
#[inline(always)]
fn fits_type(
    code: &Code,
    id: TypeId,
    held: PrimitiveToken<'_>,
    decoded: &PrimitiveValue<'_>,
) -> bool
    requires { IsValueOfToken held decoded.now }
    ensures { IsTrue result → IsOfType code.now id held.entry.kind
        (is_constructed held.entry.form) held.entry.octets.now }
{
    lemma_one_reading();
    match code.core(id) {
        Some(core) => match decoded {
            PrimitiveValue::Whole(leaf) => fits_whole(core, *leaf),
            PrimitiveValue::Reassembled(_) => false,
        },
        None => false,
    }
}

/// Whether a list of the type may be empty. The result is true for any other type, and false if there is no such type.
fn may_be_empty(code: &Code, id: TypeId) -> bool
    ensures { IsTrue result → MayBeEmpty code.now id }
{
    match code.core(id) {
        Some(core) => allows_none(core),
        None => false,
    }
}

/// Whether a list of the kind may be empty. The result is true for any other kind.
fn allows_none(core: &Core) -> bool
    ensures { IsTrue result ↔ AllowsNone (kind_of core.now) }
{
    match core {
        Core::SequenceOf(size, _) => is_allowed_size(size, 0),
        Core::SetOf(size, _) => is_allowed_size(size, 0),
        Core::Boolean | Core::Integer(_) | Core::Enumerated(_) | Core::BitString(_) => true,
        Core::NamedBits(_) | Core::OctetString(_) | Core::Null => true,
        Core::ObjectIdentifier | Core::RelativeOid => true,
        Core::Utf8String(_) | Core::RestrictedString(_, _, _) => true,
        Core::Sequence(_, _) | Core::Set(_, _) | Core::Choice(_) => true,
    }
}

/// Whether both are true.
#[inline(always)]
fn both(first: bool, second: bool) -> bool
    ensures { IsTrue result → (first ≡ true) × (second ≡ true) }
{
    first && second
}

/// A judge before any token.
pub(crate) fn at_first() -> Judge
    ensures { (s : List Resolved) → IsJudge s result [] }
{
    Judge {
        last: TypeId { index: 0 },
        fresh: false,
        fits: true,
    }
}

/// Takes the token that a value of the type begins.
#[inline(always)]
pub(crate) fn follow_begin(judge: &mut Judge, id: TypeId)
    ensures { (s : List Resolved) (ts : List Token')
        → IsJudge s judge.old ts
        → IsJudge s judge.new (ts ++ begun id ∷ []) }
{
    judge.last = id;
    judge.fresh = true;
}

/// Takes the token that a value ends.
#[inline(always)]
fn follow_end(judge: &mut Judge, code: &Code)
    ensures { (ts : List Token')
        → IsJudge code.now judge.old ts
        → IsJudge code.now judge.new (ts ++ ended ∷ []) }
{
    if !judge.fresh {
        return;
    }
    let may = may_be_empty(code, judge.last);
    judge.fresh = false;
    judge.fits = both(judge.fits, may);
}

/// Takes one more token, which has no contents octets.
#[inline(always)]
pub(crate) fn follow(judge: &mut Judge, code: &Code, mark: StructToken)
    ensures { (ts : List Token')
        → IsJudge code.now judge.old ts
        → IsJudge code.now judge.new (ts ++ as_token mark ∷ []) }
{
    match mark {
        StructToken::Begun(id) => follow_begin(judge, id),
        StructToken::Ended => follow_end(judge, code),
        StructToken::Component(_) => {}
        StructToken::Chosen(_) => {}
        StructToken::Passed => {}
    }
}

/// Takes the contents octets of a value that holds no others.
#[inline(always)]
pub(crate) fn follow_held(
    judge: &mut Judge,
    code: &Code,
    held: PrimitiveToken<'_>,
    decoded: &PrimitiveValue<'_>,
)
    requires { IsValueOfToken held decoded.now }
    ensures { (ts : List Token')
        → IsJudge code.now judge.old ts
        → IsJudge code.now judge.new (ts ++ value_token held.entry ∷ []) }
{
    let fits = fits_type(code, judge.last, held, decoded);
    judge.fresh = false;
    judge.fits = both(judge.fits, fits);
}
