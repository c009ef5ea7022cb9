//! Encodings, one after the other.

ghost use Rattle.asn_base.specs.declared.tag.Tag.{Tag as Tag'};
ghost use Rattle.std.specs.Prelude.{◌-◌, ◌≡◌, ◌↔◌, ◌++◌, ◌≤◌, IfNone, IfSome, IsTrue, List, length, ℕ};
ghost use Rattle.der_check.specs.Units.{IsUnit};

use asn_base::tag::Tag;
use next_tags::next_unit;

/// The encoding at the start of octets, with its outermost tag, and what follows it.
#[derive(Clone, Copy)]
pub(crate) struct Next<'a> {
    pub tag: Tag,
    pub octets: &'a [u8],
    pub rest: &'a [u8],
}

/// The encoding at the start of octets, whatever its rules. The call takes no memory.
pub(crate) fn next_encoding(octets: &[u8]) -> Option<Next<'_>>
    ensures whole { IfSome result (λ n. octets.now ≡ n.octets.now ++ n.rest.now) }
    ensures unit { IfSome result (λ n. IsUnit n.tag n.octets.now) }
    ensures none { IfNone result ((g : Tag') (x r : List ℕ)
        → IsUnit g x
        → octets.now ≡ x ++ r
        → length octets.now ≤ 16777216
        → ⊥) }
{
    match next_unit(octets) {
        Ok(unit) => {
            let (front, rest) = octets.split_at(unit.count + unit.contents.len());
            Some(Next {
                tag: unit.tag,
                octets: front,
                rest,
            })
        }
        Err(_) => None,
    }
}

/// The distance between the starts of octets and of their end.
#[inline(always)]
pub(crate) fn distance(octets: &[u8], end: &[u8]) -> usize
    ensures { result ≡ length octets.now - length end.now }
{
    octets.len().saturating_sub(end.len())
}

/// Whether both are true.
#[inline(always)]
pub(crate) fn both(one: bool, other: bool) -> bool
    ensures { IsTrue result ↔ (IsTrue one × IsTrue other) }
{
    one && other
}
