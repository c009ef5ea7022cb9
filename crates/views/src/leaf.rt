//! Values that hold no others.

ghost use Rattle.asn_base.specs.Abstract.{AbstractValue, abstract};
ghost use Rattle.std.specs.Prelude.{◌≡◌, IfOk};
ghost use Rattle.views.specs.Nodes.{a_leaf};
ghost use Rattle.views.specs.Seen.{IsContentWithin, side_lists, content_of};
ghost use Rattle.views.specs.Tree.{Leaf, leaf_value as leaf_value'};

use crate::node::{Lists, NodeContent};
use asn_base::law::lemma_abstract_values;
use asn_base::value::{BitString, Value};
use std::alloc::{AllocError, Global};

/// The value of a leaf. The value of any other node is a NULL.
pub(crate) fn leaf_value(
    alloc: Global,
    lists: &Lists,
    content: NodeContent<'_>,
) -> Result<Value, AllocError>
    requires { IsContentWithin (side_lists lists.now) content }
    ensures { (l : Leaf)
        → content_of (side_lists lists.now) content.entry ≡ a_leaf l
        → IfOk result (λ v. abstract v ≡ leaf_value' l) }
{
    lemma_abstract_values();
    match content {
        NodeContent::Bool(truth) => Ok(Value::Bool(truth)),
        NodeContent::Int(number) => Ok(Value::Int(number.number())),
        NodeContent::Enum(number) => Ok(Value::Enum(number.number())),
        NodeContent::Bits {
            unused,
            at: _,
            octets,
        } => Ok(Value::Bits(BitString::of(copied(alloc, octets)?, unused))),
        NodeContent::JoinedBits { unused, from, to } => {
            Ok(Value::Bits(BitString::of(copied(alloc, lists.octets_in(from, to))?, unused)))
        }
        NodeContent::Octets { at: _, octets } => Ok(Value::Octets(copied(alloc, octets)?)),
        NodeContent::JoinedOctets { from, to } => Ok(Value::Octets(copied(
            alloc,
            lists.octets_in(from, to),
        )?)),
        NodeContent::Text { at: _, text } => Ok(Value::Text(String::from_str(alloc, text)?)),
        NodeContent::JoinedText(place) => Ok(Value::Text(String::from_str(
            alloc,
            lists.text_at(place),
        )?)),
        NodeContent::Null => Ok(Value::Null),
        NodeContent::Oid { from, to } => Ok(Value::Oid(copied_arcs(
            alloc,
            lists.arcs_in(from, to),
        )?)),
        NodeContent::RelativeOid { from, to } => {
            Ok(Value::RelativeOid(copied_arcs(alloc, lists.arcs_in(from, to))?))
        }
        _ => Ok(Value::Null),
    }
}

/// The same octets in memory of their own.
fn copied(alloc: Global, octets: &[u8]) -> Result<Vec<u8>, AllocError>
    ensures { IfOk result (λ v. v.items ≡ octets.now) }
{
    let mut copy = Vec::new(alloc);
    copy.extend_from_slice(octets)?;
    Ok(copy)
}

/// The same numbers in memory of their own.
fn copied_arcs(alloc: Global, arcs: &[u64]) -> Result<Vec<u64>, AllocError>
    ensures { IfOk result (λ v. v.items ≡ arcs.now) }
{
    let mut copy = Vec::new(alloc);
    copy.extend_from_slice(arcs)?;
    Ok(copy)
}
