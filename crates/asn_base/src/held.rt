//! What values hold.

ghost use Rattle.asn_base.specs.Abstract.{Row, abstract, fields, list, row_of_list, row_of_options};
ghost use Rattle.std.specs.Prelude.{◌≡◌, map, option_map};

use crate::law::lemma_abstract_values;
use crate::value::Value;

/// The components of a value of a SEQUENCE or SET, none of other values.
pub(crate) fn fields_of(value: &Value) -> &[Option<Value>]
    ensures { (vs : Row) → abstract value.now ≡ fields vs → row_of_options (map (option_map abstract) result.now) ≡ vs }
{
    lemma_abstract_values();
    match value {
        Value::Fields(values) => values.as_slice(),
        _ => &[],
    }
}

/// The elements of a value of a SEQUENCE OF or SET OF, none of other values.
pub(crate) fn elements_of(value: &Value) -> &[Value]
    ensures { (vs : Row) → abstract value.now ≡ list vs → row_of_list (map abstract result.now) ≡ vs }
{
    lemma_abstract_values();
    match value {
        Value::List(values) => values.as_slice(),
        _ => &[],
    }
}
