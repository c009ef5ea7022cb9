//! A fault of a value, with copies of names and with an offset.

ghost use Rattle.std.specs.Prelude.{◌≡◌, ◌<◌, [], length, IfOk, MatchOption};
ghost use Rattle.typed_values.specs.declared.fault.Cause.TheVariants.{Memory as Memory'};
ghost use Rattle.value_diagnostics.specs.Diagnosed.{IsOfCause, IsDiagnostic, begins, field_name, field_place, notation_form, has_prefix, unknown_as, notation_name, number_of};
ghost use Rattle.value_diagnostics.specs.proving.ErrorSite.{IsErrorSite};

use crate::expected::expected;
use crate::naming::{component_name, field_at, name_in, prefix_in};
use names::fault::source_location;
use resolve::Linked;
use std::alloc::{AllocError, Global};
use thiserror::Error;
use trees::{SourceLocation, ValueSyntax};
use typed_values::constraints::Bounded;
use typed_values::{Cause, ValueFault, ValueSite};

/// Why a notation stands for no value of a type.
#[derive(Clone, Copy, Debug, PartialEq, Eq, Error)]
pub enum Reason {
    /// The notation is nested deeper than 64 levels.
    #[error("2 Limit(Depth)")]
    Depth,
    /// The value has more than 2^24 parts.
    #[error("2 Limit(Nodes)")]
    Nodes,
    /// An object identifier, relative or not, has more than 64 numbers, or one of 2^64 or more.
    #[error("2 Limit(Oid)")]
    Oid,
    /// A name after the name of a module means no value.
    #[error("31 UnknownName")]
    NoSuchName,
    /// A name alone means neither something of the type nor a value.
    #[error("62 UnknownItem")]
    NoSuchItem,
    /// A value comes back to itself.
    #[error("33 Circular")]
    Circular,
    /// The notation is of another form than the type's.
    #[error("60 NotOfType")]
    NotOfType,
    /// A name in braces is no bit of the type.
    #[error("62 UnknownItem")]
    UnknownBit,
    /// The CHOICE has no alternative of the name that the notation chooses.
    #[error("62 UnknownItem")]
    UnknownAlternative,
    /// No component has this name.
    #[error("62 UnknownItem")]
    UnknownField,
    /// A component has a value a second time.
    #[error("64 Repeated")]
    Repeated,
    /// A component that must be present has no value.
    #[error("63 Missing")]
    Missing,
    /// A component comes after one that it must come before.
    #[error("60 NotOfType")]
    OutOfOrder,
    /// The constraints of the type don't allow the value.
    #[error("61 OutsideConstraint")]
    Outside,
}

/// What is wrong with a notation of a value.
#[derive(Debug, Drop, Error)]
#[error("{reason}: {source_location}, expected {expected}")]
pub struct ValueDiagnostic {
    pub reason: Reason,
    /// The module, the name that is wrong (empty if the notation itself is), and the offset in the module's text, in
    /// octets from 0.
    pub source_location: SourceLocation,
    /// What was expected there.
    pub expected: String,
}

/// The number of a reason's class: 2 Limit, 31 UnknownName, 33 Circular, 60 NotOfType, 61 OutsideConstraint, 62
/// UnknownItem, 63 Missing, 64 Repeated.
pub fn number(reason: Reason) -> u8
    ensures { result ≡ number_of reason }
{
    match reason {
        Reason::Depth | Reason::Nodes | Reason::Oid => 2,
        Reason::NoSuchName => 31,
        Reason::Circular => 33,
        Reason::NotOfType | Reason::OutOfOrder => 60,
        Reason::Outside => 61,
        Reason::NoSuchItem | Reason::UnknownBit => 62,
        Reason::UnknownAlternative | Reason::UnknownField => 62,
        Reason::Missing => 63,
        Reason::Repeated => 64,
    }
}

/// The reason for a name that means nothing: `NoSuchName` if a module's name comes before it, else `NoSuchItem`.
fn unknown(notation: &ValueSyntax) -> Reason
    ensures { result ≡ unknown_as (has_prefix (notation_form notation.now)) }
{
    if prefix_in(notation) {
        Reason::NoSuchName
    } else {
        Reason::NoSuchItem
    }
}

/// What is reported of a notation, or of a name in it.
#[derive(Clone, Copy)]
struct ErrorSite<'a> {
    reason: Reason,
    within: &'a str,
    name: &'a str,
    at: usize,
}

/// Points at the notation itself.
fn itself<'a>(reason: Reason, at: ValueSite<'a>) -> ErrorSite<'a>
    ensures { IsErrorSite result reason at.entry.within.now [] (begins at.entry.notation.now) }
{
    ErrorSite {
        reason,
        within: at.within,
        name: "",
        at: at.notation.at,
    }
}

/// Points at the name that a notation is.
fn named<'a>(reason: Reason, within: &'a str, notation: &'a ValueSyntax) -> ErrorSite<'a>
    ensures { IsErrorSite result reason within.now (notation_name (notation_form notation.now)) (begins notation.now) }
{
    ErrorSite {
        reason,
        within,
        name: name_in(notation),
        at: notation.at,
    }
}

/// Points at a field of a notation.
fn of_field<'a>(
    reason: Reason,
    field: usize,
    within: &'a str,
    notation: &'a ValueSyntax,
) -> ErrorSite<'a>
    ensures { IsErrorSite result reason within.now (field_name (notation_form notation.now) field)
        (field_place notation.now field) }
{
    let (name, at) = field_at(notation, field);
    ErrorSite {
        reason,
        within,
        name,
        at,
    }
}

/// What a fault points at; None exactly if the fault is `Memory`.
fn error_site<'a>(linked: &'a Linked, at: ValueSite<'a>, cause: Cause<'a>) -> Option<ErrorSite<'a>>
    requires { at.ty.index < length linked.now.program.types }
    ensures { MatchOption result (cause.entry ≡ Memory')
        (λ q. IsOfCause (IsErrorSite q) linked.now.program at.entry cause.entry) }
{
    match cause {
        Cause::Memory => None,
        Cause::Depth => Some(itself(Reason::Depth, at)),
        Cause::Nodes => Some(itself(Reason::Nodes, at)),
        Cause::Oid => Some(itself(Reason::Oid, at)),
        Cause::NotOfType => Some(itself(Reason::NotOfType, at)),
        Cause::UnknownAlternative => Some(itself(Reason::UnknownAlternative, at)),
        Cause::Outside => Some(itself(Reason::Outside, at)),
        Cause::NoMeaning(within, name) => Some(named(unknown(name), within, name)),
        Cause::Circular(_, within, name) => Some(named(Reason::Circular, within, name)),
        Cause::UnknownBit(within, bit) => Some(named(Reason::UnknownBit, within, bit)),
        Cause::UnknownField(field, within, notation) => {
            Some(of_field(Reason::UnknownField, field, within, notation))
        }
        Cause::Repeated(field, within, notation) => {
            Some(of_field(Reason::Repeated, field, within, notation))
        }
        Cause::OutOfOrder(field, within, notation) => {
            Some(of_field(Reason::OutOfOrder, field, within, notation))
        }
        Cause::Missing(component, within, notation) => Some(ErrorSite {
            reason: Reason::Missing,
            within,
            name: component_name(linked, at.ty, component),
            at: notation.at,
        }),
    }
}

/// What a user reads about a fault. The reason, the module, the name and the offset are the fault's own; what was
/// expected is put into words. The error is that there was not enough memory, here or in the fault.
pub fn diagnostic<'a>(
    alloc: Global,
    bounded: &Bounded<'a>,
    fault: ValueFault<'a>,
) -> Result<ValueDiagnostic, AllocError>
    requires { fault.at.ty.index < length bounded.now.program.types }
    ensures { IfOk result (IsDiagnostic bounded.now.program fault.entry) }
{
    let Some(points) = error_site(bounded.linked(), fault.at, fault.cause) else {
        return Err(AllocError);
    };
    let expected = expected(alloc, bounded, fault)?;
    let source_location = source_location(alloc, points.within, points.name, points.at)?;
    Ok(ValueDiagnostic {
        reason: points.reason,
        source_location,
        expected,
    })
}
