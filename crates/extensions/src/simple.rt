//! Types that hold no other types.

ghost use Rattle.std.specs.Prelude.{◌≡◌, ◌<◌, ◌≤◌, IfOk, length, map};
ghost use Rattle.asn_base.specs.Seen.{kind_of, named_bit_of};
ghost use Rattle.trees.specs.Types.{a_bit_string, a_restricted_string, a_utf8_string, an_integer, an_octet_string, bit_of, numbered_name, plain_of};
ghost use Rattle.trees.specs.Values.{Name};
ghost use Rattle.type_table.specs.Lists.{IsSoundPlain};
ghost use Rattle.type_table.specs.Table.{simple as simple'};
ghost use Rattle.range_ends.specs.Ends.{IsTypeOfKind};
ghost use Rattle.settled.specs.schema_of.SchemaOf.{schema_bit as named_bit'};
ghost use Rattle.extensions.specs.proving.Cores.{IsCoreOf};

use crate::items::enumeration;
use asn_base::schema::{Core, NamedBit, TypeId};
use asn_base::strings::StringKind;
use constraints::{Bounded, codes, constraint};
use std::alloc::{AllocError, Global};
use trees::{NamedBit as WrittenBit, NamedNumber, Simple};

/// An INTEGER.
fn integer(
    alloc: Global,
    bounded: &Bounded<'_>,
    ty: TypeId,
    numbers: &[NamedNumber],
) -> Result<Core, AllocError>
    requires there { ty.index < length bounded.now.program.types }
    requires is { IsTypeOfKind bounded.now.program.types ty.index
        (simple' (an_integer (map numbered_name numbers.now))) }
    ensures { (M : Name) → IfOk result (λ c.
        IsCoreOf bounded.now.program ty.index M (simple' (an_integer (map numbered_name numbers.now))) (kind_of c)) }
{
    match constraint(alloc, bounded, ty) {
        Ok(allowed) => Ok(Core::Integer(allowed)),
        Err(fault) => Err(fault),
    }
}

/// A named bit. `AllocError` only if an allocation fails.
fn named_bit(bit: &WrittenBit) -> Result<NamedBit, AllocError>
    requires { bit.now.place ≤ 65535 }
    ensures { IfOk result (λ b. named_bit_of b ≡ named_bit' (bit_of bit.now)) }
{
    Ok(NamedBit {
        name: bit.name.it.clone()?,
        place: bit.place as usize,
    })
}

/// The named bits in the order of their notation.
fn named_bits(alloc: Global, bits: &[WrittenBit]) -> Result<Vec<NamedBit>, AllocError>
    requires { IsSoundPlain (a_bit_string (map bit_of bits.now)) }
    ensures { IfOk result (λ v. map named_bit_of v.items ≡ map named_bit' (map bit_of bits.now)) }
{
    let mut all = Vec::new(alloc);
    for at in 0..bits.len() {
        all.push(named_bit(&bits[at])?)?;
    }
    Ok(all)
}

/// A BIT STRING, with or without named bits.
fn bit_string(
    alloc: Global,
    bounded: &Bounded<'_>,
    ty: TypeId,
    bits: &[WrittenBit],
) -> Result<Core, AllocError>
    requires there { ty.index < length bounded.now.program.types }
    requires sound { IsSoundPlain (a_bit_string (map bit_of bits.now)) }
    requires is { IsTypeOfKind bounded.now.program.types ty.index (simple' (a_bit_string (map bit_of bits.now))) }
    ensures { (M : Name) → IfOk result (λ c.
        IsCoreOf bounded.now.program ty.index M (simple' (a_bit_string (map bit_of bits.now))) (kind_of c)) }
{
    if bits.is_empty() {
        return match constraint(alloc, bounded, ty) {
            Ok(size) => Ok(Core::BitString(size)),
            Err(fault) => Err(fault),
        };
    }
    match named_bits(alloc, bits) {
        Ok(named) => Ok(Core::NamedBits(named)),
        Err(fault) => Err(fault),
    }
}

/// An OCTET STRING.
fn octet_string(alloc: Global, bounded: &Bounded<'_>, ty: TypeId) -> Result<Core, AllocError>
    requires there { ty.index < length bounded.now.program.types }
    requires is { IsTypeOfKind bounded.now.program.types ty.index (simple' an_octet_string) }
    ensures { (M : Name) → IfOk result (λ c. IsCoreOf bounded.now.program ty.index M (simple' an_octet_string)
        (kind_of c)) }
{
    match constraint(alloc, bounded, ty) {
        Ok(size) => Ok(Core::OctetString(size)),
        Err(fault) => Err(fault),
    }
}

/// A UTF8String.
fn utf8_string(alloc: Global, bounded: &Bounded<'_>, ty: TypeId) -> Result<Core, AllocError>
    requires there { ty.index < length bounded.now.program.types }
    requires is { IsTypeOfKind bounded.now.program.types ty.index (simple' a_utf8_string) }
    ensures { (M : Name) → IfOk result (λ c. IsCoreOf bounded.now.program ty.index M (simple' a_utf8_string)
        (kind_of c)) }
{
    match constraint(alloc, bounded, ty) {
        Ok(size) => Ok(Core::Utf8String(size)),
        Err(fault) => Err(fault),
    }
}

/// A string of one of the four types with one octet a character.
fn restricted_string(
    alloc: Global,
    bounded: &Bounded<'_>,
    ty: TypeId,
    kind: StringKind,
) -> Result<Core, AllocError>
    requires there { ty.index < length bounded.now.program.types }
    requires is { IsTypeOfKind bounded.now.program.types ty.index (simple' (a_restricted_string kind)) }
    ensures { (M : Name) → IfOk result (λ c.
        IsCoreOf bounded.now.program ty.index M (simple' (a_restricted_string kind)) (kind_of c)) }
{
    match codes(alloc, bounded, ty) {
        Err(fault) => Err(fault),
        Ok(alphabet) => match constraint(alloc, bounded, ty) {
            Ok(size) => Ok(Core::RestrictedString(kind, alphabet, size)),
            Err(fault) => Err(fault),
        },
    }
}

/// The kind in a schema of a type that holds no other types, with the values that its constraints leave.
pub(crate) fn simple_core(
    alloc: Global,
    bounded: &Bounded<'_>,
    ty: TypeId,
    simple: &Simple,
) -> Result<Core, AllocError>
    requires there { ty.index < length bounded.now.program.types }
    requires sound { IsSoundPlain (plain_of simple.now) }
    requires is { IsTypeOfKind bounded.now.program.types ty.index (simple' (plain_of simple.now)) }
    ensures { (M : Name) → IfOk result (λ c.
        IsCoreOf bounded.now.program ty.index M (simple' (plain_of simple.now)) (kind_of c)) }
{
    match simple {
        Simple::Boolean => Ok(Core::Boolean),
        Simple::Integer(numbers) => integer(alloc, bounded, ty, numbers),
        Simple::BitString(bits) => bit_string(alloc, bounded, ty, bits),
        Simple::OctetString => octet_string(alloc, bounded, ty),
        Simple::Null => Ok(Core::Null),
        Simple::ObjectIdentifier => Ok(Core::ObjectIdentifier),
        Simple::RelativeOid => Ok(Core::RelativeOid),
        Simple::Enumerated(given) => enumeration(alloc, given),
        Simple::Utf8String => utf8_string(alloc, bounded, ty),
        Simple::Restricted(kind) => restricted_string(alloc, bounded, ty, *kind),
    }
}
