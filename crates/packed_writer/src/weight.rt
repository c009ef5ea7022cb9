//! How much of a message's limit a value takes.

ghost use Rattle.asn_base.specs.Abstract.{abstract, row_of_list, row_of_options};
ghost use Rattle.packed_encodings.specs.Weights.{row_weight, weight};
ghost use Rattle.std.specs.Prelude.{◌≡◌, ◌<◌, ◌≤◌, ◌-◌, IsTrue, false, map, option_map};

use asn_base::law::lemma_abstract_values;
use asn_base::value::Value;
use limits::MAX_NODES;

/// Whether the nodes of a value and the octets of its character strings are together at most 16,777,216. The function
/// takes no memory, and calls itself once for each level of the value.
pub(crate) fn is_light(value: &Value) -> bool
    ensures light { IsTrue result → weight (abstract value.now) ≤ 16777216 }
    ensures heavy { result ≡ false → 16777216 < weight (abstract value.now) }
{
    let mut left = MAX_NODES as usize + 1;
    weigh(value, &mut left);
    left > 0
}

/// Subtracts the weight of a value, to no less than 0.
#[cycle(weighs)]
#[inline(always)]
fn weigh(value: &Value, left: &mut usize)
    ensures { left.new ≡ left.old - weight (abstract value.now) }
{
    lemma_abstract_values();
    *left = left.saturating_sub(1);
    match value {
        Value::Bool(_) | Value::Int(_) | Value::Enum(_) | Value::Bits(_) => {}
        Value::Octets(_) | Value::Null | Value::Oid(_) | Value::RelativeOid(_) => {}
        Value::Text(text) => *left = left.saturating_sub(text.len()),
        Value::Fields(values) => weigh_fields(values.as_slice(), left),
        Value::List(values) => weigh_elements(values.as_slice(), left),
        Value::Alt(_, inner) => weigh(inner, left),
    }
}

/// Subtracts the weights of components; an absent one has none.
#[cycle(weighs)]
#[inline(never)]
fn weigh_fields(values: &[Option<Value>], left: &mut usize)
    ensures { left.new ≡ left.old - row_weight (row_of_options (map (option_map abstract) values.now)) }
{
    for i in 0..values.len() {
        match &values[i] {
            Some(value) => weigh(value, left),
            None => {}
        }
    }
}

/// Subtracts the weights of elements.
#[cycle(weighs)]
#[inline(never)]
fn weigh_elements(values: &[Value], left: &mut usize)
    ensures { left.new ≡ left.old - row_weight (row_of_list (map abstract values.now)) }
{
    for i in 0..values.len() {
        weigh(&values[i], left);
    }
}
