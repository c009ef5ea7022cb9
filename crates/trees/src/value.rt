//! Trees of values as they are written.

use crate::location::{At, Reference};

/// A value as it is written (X.680, clause 17.1). Its meaning depends on its type.
pub struct ValueSyntax {
    /// The offset of its first octet in the module's text.
    pub at: usize,
    pub form: ValueForm<ValueSyntax>,
}

/// The forms of values. `T` is the type of the values inside a value.
pub enum ValueForm<T> {
    /// `TRUE`
    True,
    /// `FALSE`
    False,
    /// `NULL`
    Null,
    /// A number, with its sign.
    Number(i128),
    /// `'..'B`: the digits in order, each 0 or 1.
    BinaryString(Vec<u8>),
    /// `'..'H`: the digits in order, each from 0 to 15.
    HexString(Vec<u8>),
    /// `".."`: the octets of the text in UTF-8. Two quotes in the notation are one in the text.
    CharacterString(Vec<u8>),
    /// The name of a value, of an item or of a number.
    Reference(Reference),
    /// An alternative: `name : value`.
    Chosen(String, Box<T>),
    /// `{}`
    Empty,
    /// Numbers in braces without commas, at least two: `{1 2 840}`.
    Numbers(Vec<u128>),
    /// Values in braces, at least one: `{1, 2}`.
    Items(Vec<T>),
    /// Values in braces, each after a name, at least one: `{a 1, b TRUE}`.
    Fields(Vec<Named<T>>),
}

/// Something after its name.
#[derive(Drop)]
pub struct Named<T> {
    pub name: At<String>,
    pub value: T,
}

impl Drop for ValueSyntax {
    fn drop(self) {
        let ValueSyntax { at: _, form: _ } = self;
    }
}

impl<T: Drop> Drop for ValueForm<T> {
    fn drop(self) {
        match self {
            ValueForm::True => {}
            ValueForm::False => {}
            ValueForm::Null => {}
            ValueForm::Number(_) => {}
            ValueForm::BinaryString(_) => {}
            ValueForm::HexString(_) => {}
            ValueForm::CharacterString(_) => {}
            ValueForm::Reference(_) => {}
            ValueForm::Chosen(_, _) => {}
            ValueForm::Empty => {}
            ValueForm::Numbers(_) => {}
            ValueForm::Items(_) => {}
            ValueForm::Fields(_) => {}
        }
    }
}
