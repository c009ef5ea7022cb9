//! The first place at which octets that encode a value by BER break a rule of DER, in words (X.690, 10 and 11).

ghost use Rattle.broken_rules.specs.Broken.{IsExpected, IsExplained, IsViolation, SaysWhatBreaks};
ghost use Rattle.encodings.specs.Encoding.{EncodesTo};
ghost use Rattle.encodings.specs.Reading.{Encodes};
ghost use Rattle.encodings.specs.Rules.{Basic, Distinguished};
ghost use Rattle.std.specs.Prelude.{◌≡◌, ◌↔◌, ◌<◌, ◌≤◌, IfOk, IfSome, None, length, string_bytes, ℕ};
ghost use Rattle.views.specs.Tree.{value_of};

use crate::parts::type_at;
use crate::rule::{expected, found};
use crate::site::find_site;
use asn_base::schema::{Schema, TypeId};
use asn_base::value::Value;
use codec_code::Code;
use der_check::{Breach, first_broken};
use header_listing::kind_word;
use std::alloc::{AllocError, Global};
use views::ValueRef;

/// Octets that encode a value of a type by the basic rules. The code is that of the schema.
#[derive(Clone, Copy)]
pub struct Encoded<'a> {
    pub schema: &'a Schema,
    pub code: &'a Code,
    pub ty: TypeId,
    pub value: &'a Value,
    pub octets: &'a [u8],
}

/// A broken rule of DER, in words: what was found and what was expected in its place. It is broken at this octet, whose
/// offset counts from 0, by a part of the value, whose type is of this kind, as `BOOLEAN`. The path of the part is as
/// `a.b[2].c`, cut off after 60 characters; it is empty if it is the whole value.
#[derive(Debug, Drop)]
pub struct Violation {
    pub offset: usize,
    pub path: String,
    pub kind: &'static str,
    pub found: String,
    pub expected: String,
}

/// The word for the kind of a type.
fn kind_of(schema: &Schema, ty: TypeId) -> &'static str {
    match type_at(schema, ty) {
        Some(resolved) => kind_word(&*resolved.core),
        None => "",
    }
}

/// The words for a broken rule.
fn describe(alloc: Global, encoded: Encoded<'_>, breach: Breach) -> Result<Violation, AllocError>
    ensures offset { IfOk result (λ b. b.offset ≡ breach.offset) }
    ensures words { IfOk result (λ b. SaysWhatBreaks breach.rule (string_bytes b.found)) }
    ensures expected { IfOk result (λ b. IsExpected breach.rule (string_bytes b.expected)) }
{
    let site = find_site(alloc, encoded, breach)?;
    let found = found(alloc, breach.rule, &site)?;
    let expected = expected(alloc, breach.rule, &site)?;
    Ok(Violation {
        offset: breach.offset,
        path: site.path,
        kind: kind_of(encoded.schema, site.ty),
        found,
        expected,
    })
}

/// Returns which rule of DER octets break that encode a value by BER, and where. Of several it is the first one in the
/// order of the octets, as `der_check` finds it: fewest length octets, strings in primitive form, TRUE as `FF`, zeros
/// as unused bits, no zero at the end of named bits, the order of SET and SET OF, and no encoding of a DEFAULT. An
/// addition that the type lacks isn't judged. The part is the value, as it was read.
///
/// The result is None exactly if the octets break no rule. `AllocError`: an allocation failed. Once a rule is found,
/// the headers before it are read once more for the words.
pub fn broken_rule(
    alloc: Global,
    encoded: Encoded<'_>,
    part: &ValueRef<'_, '_>,
) -> Result<Option<Violation>, AllocError>
    // The offset is that of an octet.
    ensures offset { IfOk result (λ o. IfSome o (λ b. b.offset < length encoded.entry.octets.now)) }
    // The rule that the words name is broken there by the encoding of this value of the type, and none before.
    ensures broken { (k : ℕ)
        → Encodes encoded.entry.code.now Basic encoded.entry.ty.index (value_of part.now) k encoded.entry.octets.now
        → length encoded.entry.octets.now ≤ 16777216
        → IfOk result (λ o. IfSome o (λ b. IsViolation encoded.entry.code.now encoded.entry.ty.index (value_of part.now)
        encoded.entry.octets.now b.offset (string_bytes b.found))) }
    // The other words say what this rule asks.
    ensures explained { (k : ℕ)
        → Encodes encoded.entry.code.now Basic encoded.entry.ty.index (value_of part.now) k encoded.entry.octets.now
        → length encoded.entry.octets.now ≤ 16777216
        → IfOk result (λ o. IfSome o (λ b. IsExplained encoded.entry.code.now encoded.entry.ty.index (value_of part.now)
        encoded.entry.octets.now b.offset (string_bytes b.found) (string_bytes b.expected))) }
    // None exactly if the octets encode the value by the distinguished rules too.
    ensures none { (k : ℕ)
        → Encodes encoded.entry.code.now Basic encoded.entry.ty.index (value_of part.now) k encoded.entry.octets.now
        → length encoded.entry.octets.now ≤ 16777216
        → IfOk result (λ o. o ≡ None ↔ EncodesTo encoded.entry.code.now Distinguished encoded.entry.ty.index
        (value_of part.now) k encoded.entry.octets.now) }
{
    match first_broken(alloc, encoded.code, encoded.ty, part, encoded.octets)? {
        Some(breach) if breach.offset < encoded.octets.len() => {
            Ok(Some(describe(alloc, encoded, breach)?))
        }
        _ => Ok(None),
    }
}
