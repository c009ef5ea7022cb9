//! What is made of a notation that stands for a value: the value, or nothing at all.

ghost use Rattle.std.specs.Prelude.{◌≡◌, ℕ, List, Option, IfOk, IfSome};
ghost use Rattle.std.specs.List.{AllZip};
ghost use Rattle.asn_base.specs.Abstract.{AbstractValue, abstract, alternative, fields, list, row_of_list, row_of_options};
ghost use Rattle.typed_values.specs.proving.Outcomes.{ShowsOption};

use asn_base::law::lemma_abstract_values;
use asn_base::value::Value;
use std::alloc::{AllocError, Global};

/// What the reading of a notation makes of the value that the notation stands for.
pub(crate) trait Outcome: Sized + Drop {
    /// The outcome is one for this value.
    ghost shows: { Self → AbstractValue → Type 0 };

    /// The outcome for a value that holds no others.
    fn leaf(value: Value) -> Self
        ensures { shows result (abstract value) };

    /// The outcome for a value of a SEQUENCE OF or SET OF.
    fn list(elements: Vec<Self>) -> Self
        ensures { (vs : List AbstractValue) → AllZip shows elements.items vs → shows result (list (row_of_list vs)) };

    /// The outcome for a value of a SEQUENCE or SET.
    fn fields(components: Vec<Option<Self>>) -> Self
        ensures { (vs : List (Option AbstractValue)) → AllZip (ShowsOption shows) components.items vs →
            shows result (fields (row_of_options vs)) };

    /// The outcome for a value of a CHOICE.
    fn alternative(alloc: Global, number: usize, chosen: Self) -> Result<Self, AllocError>
        ensures { IfOk result (λ r. (v : AbstractValue) → shows chosen v → shows r (alternative number v)) };

    /// The outcome for any value, if no value is built; otherwise None.
    fn unbuilt() -> Option<Self>
        ensures { IfSome result (λ r. (v : AbstractValue) → shows r v) };
}

/// The value itself.
impl Outcome for Value {
    ghost shows = { λ x v. abstract x ≡ v };

    fn leaf(value: Value) -> Value
        ensures { abstract result ≡ abstract value }
    {
        value
    }

    fn list(elements: Vec<Value>) -> Value
        ensures { (vs : List AbstractValue) → AllZip (λ x v. abstract x ≡ v) elements.items vs →
            abstract result ≡ list (row_of_list vs) }
    {
        lemma_abstract_values();
        Value::List(elements)
    }

    fn fields(components: Vec<Option<Value>>) -> Value
        ensures { (vs : List (Option AbstractValue)) →
            AllZip (ShowsOption (λ x v. abstract x ≡ v)) components.items vs →
            abstract result ≡ fields (row_of_options vs) }
    {
        lemma_abstract_values();
        Value::Fields(components)
    }

    fn alternative(alloc: Global, number: usize, chosen: Value) -> Result<Value, AllocError>
        ensures { IfOk result (λ r. (v : AbstractValue) → abstract chosen ≡ v → abstract r ≡ alternative number v) }
    {
        lemma_abstract_values();
        Ok(Value::Alt(number, Box::new(alloc, chosen)?))
    }

    fn unbuilt() -> Option<Value>
        ensures { IfSome result (λ r. (v : AbstractValue) → abstract r ≡ v) }
    {
        None
    }
}

/// That there is a value, which takes no memory.
#[derive(Drop)]
pub(crate) struct CheckedOnly;

impl Outcome for CheckedOnly {
    ghost shows = { λ x v. Unit {0} };

    fn leaf(value: Value) -> CheckedOnly
        ensures { Unit {0} }
    {
        CheckedOnly
    }

    fn list(elements: Vec<CheckedOnly>) -> CheckedOnly
        ensures { (vs : List AbstractValue) → AllZip (λ x v. Unit {0}) elements.items vs → Unit {0} }
    {
        CheckedOnly
    }

    fn fields(components: Vec<Option<CheckedOnly>>) -> CheckedOnly
        ensures { (vs : List (Option AbstractValue)) → AllZip (ShowsOption (λ x v. Unit {0})) components.items vs →
            Unit {0} }
    {
        CheckedOnly
    }

    fn alternative(
        alloc: Global,
        number: usize,
        chosen: CheckedOnly,
    ) -> Result<CheckedOnly, AllocError>
        ensures { IfOk result (λ r. (v : AbstractValue) → Unit {0} → Unit {0}) }
    {
        Ok(CheckedOnly)
    }

    fn unbuilt() -> Option<CheckedOnly>
        ensures { IfSome result (λ r. (v : AbstractValue) → Unit {0}) }
    {
        Some(CheckedOnly)
    }
}
