//! What the form of a notation says.

ghost use Rattle.std.specs.Prelude.{◌≡◌, IfSome, Some, map, option_map};
ghost use Rattle.trees.specs.Values.{tree_of, trees, items};
ghost use Rattle.value_notations.specs.Written.{braced_values};
ghost use Rattle.value_notations.specs.proving.Forms.{truth_in, number_in, name_in, binary_in, hex_in, text_in, numbers_in, items_in, alone_in, is_null, is_nothing};

use trees::{ValueForm, ValueSyntax};

/// The truth value that a notation is.
pub(crate) fn truth_in(notation: &ValueSyntax) -> Option<bool>
    ensures { result ≡ truth_in (tree_of notation.now) }
{
    match &notation.form {
        ValueForm::True => Some(true),
        ValueForm::False => Some(false),
        _ => None,
    }
}

/// The number that a notation is.
pub(crate) fn number_in(notation: &ValueSyntax) -> Option<i128>
    ensures { result ≡ number_in (tree_of notation.now) }
{
    match &notation.form {
        ValueForm::Number(number) => Some(*number),
        _ => None,
    }
}

/// The name that a notation is, with no module's name before it.
pub(crate) fn name_in(notation: &ValueSyntax) -> Option<&str>
    ensures { option_map (λ x. x.now) result ≡ name_in (tree_of notation.now) }
{
    match &notation.form {
        ValueForm::Reference(reference) => match reference.module() {
            None => Some(reference.name()),
            Some(_) => None,
        },
        _ => None,
    }
}

/// The digits of a binary text.
pub(crate) fn binary_in(notation: &ValueSyntax) -> Option<&[u8]>
    ensures { option_map (λ d. d.now) result ≡ binary_in (tree_of notation.now) }
{
    match &notation.form {
        ValueForm::BinaryString(digits) => Some(digits.as_slice()),
        _ => None,
    }
}

/// The digits of a hexadecimal text.
pub(crate) fn hex_in(notation: &ValueSyntax) -> Option<&[u8]>
    ensures { option_map (λ d. d.now) result ≡ hex_in (tree_of notation.now) }
{
    match &notation.form {
        ValueForm::HexString(digits) => Some(digits.as_slice()),
        _ => None,
    }
}

/// The octets of a text in quotes.
pub(crate) fn text_in(notation: &ValueSyntax) -> Option<&[u8]>
    ensures { option_map (λ o. o.now) result ≡ text_in (tree_of notation.now) }
{
    match &notation.form {
        ValueForm::CharacterString(octets) => Some(octets.as_slice()),
        _ => None,
    }
}

/// The numbers in braces, two at least.
pub(crate) fn numbers_in(notation: &ValueSyntax) -> Option<&[u128]>
    ensures { option_map (λ ns. ns.now) result ≡ numbers_in (tree_of notation.now) }
{
    match &notation.form {
        ValueForm::Numbers(numbers) => Some(numbers.as_slice()),
        _ => None,
    }
}

/// The values in braces, one at least.
pub(crate) fn items_in(notation: &ValueSyntax) -> Option<&[ValueSyntax]>
    ensures tree { option_map (λ ts. trees (map tree_of ts.now)) result ≡ items_in (tree_of notation.now) }
    ensures text { IfSome result (λ ts. braced_values notation.now ≡ Some ts.now) }
{
    match &notation.form {
        ValueForm::Items(values) => Some(values.as_slice()),
        _ => None,
    }
}

/// Whether the notation is `NULL`.
pub(crate) fn is_null(notation: &ValueSyntax) -> bool
    ensures { result ≡ is_null (tree_of notation.now) }
{
    match &notation.form {
        ValueForm::Null => true,
        _ => false,
    }
}

/// Whether the notation is `{}`.
pub(crate) fn is_nothing(notation: &ValueSyntax) -> bool
    ensures { result ≡ is_nothing (tree_of notation.now) }
{
    match &notation.form {
        ValueForm::Empty => true,
        _ => false,
    }
}

/// The number that some notations are, if there is only one and it is a number of 0 or more.
fn only_number(values: &[ValueSyntax]) -> Option<u128>
    ensures { result ≡ alone_in (items (trees (map tree_of values.now))) }
{
    match values {
        [] => None,
        [only] => match number_in(only) {
            Some(number) => {
                if number < 0 {
                    return None;
                }
                Some(number as u128)
            }
            None => None,
        },
        [_, _, ..] => None,
    }
}

/// The one number in braces, which is read as a list of one value.
pub(crate) fn alone_in(notation: &ValueSyntax) -> Option<u128>
    ensures { result ≡ alone_in (tree_of notation.now) }
{
    match items_in(notation) {
        Some(values) => only_number(values),
        None => None,
    }
}
