//! Which values are open after some tokens, and which of their parts are being read.

ghost use Rattle.ber_reader.specs.Opened.{after_part, but_last, entered as entered', on_last, opened, opens_after, part_or, with_part};
ghost use Rattle.ber_source.specs.Seen.{token_of};
ghost use Rattle.std.specs.List.{AllByRecursion};
ghost use Rattle.std.specs.Prelude.{◌≡◌, ◌++◌, ◌∷◌, ◌<◌, [], OnOk, Some, suc};

use asn_base::schema::TypeId;
use ber_source::Token;
use std::alloc::AllocError;

/// A part of a value.
#[derive(Clone, Copy, PartialEq, Eq, Debug)]
pub enum Part {
    /// The component at this place in order of definition, from 0.
    Component(usize),
    /// The alternative with this number in order of definition, from 0.
    Alternative(usize),
    /// The element with this number, from 0.
    Element(usize),
}

/// A value that is open: its type, the part of it that is being read, if any, and the number of its parts that ended.
#[derive(Clone, Copy, PartialEq, Eq, Debug)]
pub struct OpenValue {
    pub ty: TypeId,
    pub part: Option<Part>,
    pub read: usize,
}

fn push_open(list: &mut Vec<OpenValue>, one: OpenValue) -> Result<(), AllocError>
    ensures { OnOk result (list.new.items ≡ list.old.items ++ one ∷ []) }
{
    list.push(one)?;
    Ok(())
}

/// The part that begins: the one that a token named, or else the next element.
fn part_of(value: OpenValue) -> Option<Part>
    ensures { result ≡ part_or value.part value.read }
{
    match value.part {
        Some(part) => Some(part),
        None => Some(Part::Element(value.read)),
    }
}

/// The value, with the part of it that begins.
pub(crate) fn entered(value: OpenValue) -> OpenValue
    ensures { result ≡ entered' value }
{
    OpenValue {
        ty: value.ty,
        part: part_of(value),
        read: value.read,
    }
}

/// Sets the part of the innermost open value, as a token named it.
fn name_part(list: &mut Vec<OpenValue>, part: Part) -> Result<(), AllocError>
    ensures { OnOk result (list.new.items ≡ on_last (with_part (Some part)) list.old.items) }
{
    match list.pop() {
        Some(last) => push_open(
            list,
            OpenValue {
                ty: last.ty,
                part: Some(part),
                read: last.read,
            },
        ),
        None => Ok(()),
    }
}

/// A part of the innermost open value begins: the one that a token named, or else its next element.
pub(crate) fn enter(list: &mut Vec<OpenValue>) -> Result<(), AllocError>
    ensures { OnOk result (list.new.items ≡ on_last entered' list.old.items) }
{
    match list.pop() {
        Some(last) => push_open(list, entered(last)),
        None => Ok(()),
    }
}

/// The number after this one, or the same if there is none.
fn next(number: usize) -> usize
    ensures { number < 18446744073709551615 → result ≡ suc number }
{
    if number < usize::MAX {
        number + 1
    } else {
        number
    }
}

/// Ends the part of the innermost open value that was being read.
fn pass(list: &mut Vec<OpenValue>) -> Result<(), AllocError>
    ensures { AllByRecursion (λ o. o.read < 18446744073709551615) list.old.items
        → OnOk result (list.new.items ≡ on_last after_part list.old.items) }
{
    match list.pop() {
        Some(last) => push_open(
            list,
            OpenValue {
                ty: last.ty,
                part: None,
                read: next(last.read),
            },
        ),
        None => Ok(()),
    }
}

/// Ends the innermost open value.
fn leave(list: &mut Vec<OpenValue>) -> Result<(), AllocError>
    ensures { AllByRecursion (λ o. o.read < 18446744073709551615) list.old.items
        → OnOk result (list.new.items ≡ on_last after_part (but_last list.old.items)) }
{
    match list.pop() {
        Some(_) => pass(list),
        None => Ok(()),
    }
}

/// Begins a value of the type, within the innermost open value.
fn begin(list: &mut Vec<OpenValue>, id: TypeId) -> Result<(), AllocError>
    ensures { OnOk result (list.new.items ≡ on_last entered' list.old.items ++ opened id ∷ []) }
{
    enter(list)?;
    push_open(
        list,
        OpenValue {
            ty: id,
            part: None,
            read: 0,
        },
    )
}

/// Changes the list of open values as one more token requires.
pub(crate) fn take(list: &mut Vec<OpenValue>, token: Token<'_>) -> Result<(), AllocError>
    ensures { AllByRecursion (λ o. o.read < 18446744073709551615) list.old.items
        → OnOk result (list.new.items ≡ opens_after list.old.items (token_of token.entry)) }
{
    match token {
        Token::Component(place) => name_part(list, Part::Component(place)),
        Token::Chosen(index) => name_part(list, Part::Alternative(index)),
        Token::Begun(id) => begin(list, id),
        Token::Ended => leave(list),
        Token::PrimitiveToken {
            kind: _,
            form: _,
            octets: _,
            at: _,
        } => Ok(()),
        Token::Passed => Ok(()),
    }
}
