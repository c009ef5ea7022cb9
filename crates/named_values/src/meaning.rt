//! The value that the name of a type and a value that is given mean.

ghost use Rattle.std.specs.Prelude.{◌≡◌, ◌<◌, ℕ, List, IfOk, IfErr, length, true};
ghost use Rattle.asn_base.specs.Abstract.{abstract};
ghost use Rattle.names.specs.Faults.{fault_module};
ghost use Rattle.resolve.specs.Program.{Program};
ghost use Rattle.written_values.specs.Written.{IsNoNotation};
ghost use Rattle.named_values.specs.Given.{as_given, named, written};
ghost use Rattle.named_values.specs.Meant.{IsMeant, IsNotMeant, NamesType, DenotesNoValue};
ghost use Rattle.named_values.specs.Named.{IsInModule, TypeNamed, ValueNamed};

use crate::given::ValueGiven;
use crate::naming::{module_in, named_type, notation_at, value_number};
use asn_base::schema::TypeId;
use asn_base::value::Value;
use messages::front_end::{Modules, ValueError};
use messages::value_diagnostics::ValueDiagnostic;
use messages::{Fault, NotationFault};
use std::alloc::{AllocError, Global};
use written_values::{ValueTextFault, parse_value};

/// The value of a name under a type.
fn of_name(
    alloc: Global,
    modules: &Modules,
    ty: &str,
    id: TypeId,
    value: &str,
) -> Result<Value, Fault>
    requires there { id.index < length modules.now.types }
    requires typed { TypeNamed modules.now ty.now id.index }
    ensures meant { IfOk result (λ v. IsMeant modules.now ty.now (named value.now) id.index (abstract v)) }
    ensures refused { IfErr result (IsNotMeant modules.now ty.now (named value.now)) }
{
    let Some(number) = value_number(modules, value) else {
        return Err(Fault::NoValue(String::from_str(alloc, value)?));
    };
    let (within, notation) = notation_at(modules.linked(), number);
    match modules.typed(alloc, id, within, notation) {
        Ok(value) => Ok(value),
        Err(ValueError::Memory) => Err(Fault::Memory),
        Err(ValueError::Diagnosed(diagnostic)) => Err(Fault::Value(diagnostic)),
    }
}

/// A fault of a text that is no notation.
fn unread(fault: ValueTextFault) -> Fault
    ensures { (p : Program) (first x : List ℕ) →
        NamesType p first →
        IsNoNotation x fault →
        IsNotMeant p first (written x) result }
{
    match fault {
        ValueTextFault::Memory => Fault::Memory,
        ValueTextFault::Octets(fault) => Fault::Notation(NotationFault::Octets(fault)),
        ValueTextFault::Tokens(fault) => Fault::Notation(NotationFault::Tokens(fault)),
    }
}

/// A text that is read as the notation of a value of a type, and the module in which it is read.
#[derive(Clone, Copy)]
struct TypedText<'a> {
    modules: &'a Modules,
    id: TypeId,
    within: &'a str,
    text: &'a [u8],
    ghost there: { id.index < length modules.now.types },
}

/// The place of the fault of a notation that stands for no value, if a space is put before its text. There is none if
/// that text is too long.
fn moved(alloc: Global, typed: TypedText<'_>) -> Result<Option<usize>, AllocError> {
    let mut spaced = Vec::new(alloc);
    spaced.push(b' ')?;
    spaced.extend_from_slice(typed.text)?;
    let notation = match parse_value(alloc, spaced.as_slice()) {
        Ok(notation) => notation,
        Err(ValueTextFault::Memory) => return Err(AllocError),
        Err(_) => return Ok(None),
    };
    match typed
        .modules
        .typed(alloc, typed.id, typed.within, &notation)
    {
        Ok(_) => Ok(None),
        Err(ValueError::Memory) => Err(AllocError),
        Err(ValueError::Diagnosed(diagnostic)) => Ok(Some(diagnostic.source_location.at)),
    }
}

/// Whether a fault of a notation is in the notation's own text, and not in that of a module with a value that the
/// notation names. It is exactly if a space before the text moves it.
fn is_in_text(
    alloc: Global,
    typed: TypedText<'_>,
    diagnostic: &ValueDiagnostic,
) -> Result<bool, AllocError>
    ensures within { IfOk result (λ b.
        b ≡ true → fault_module diagnostic.now.source_location ≡ typed.entry.within.now) }
    ensures at { IfOk result (λ b. b ≡ true → diagnostic.now.source_location.at < length typed.entry.text.now) }
{
    if diagnostic.source_location.module.as_str() != typed.within
        || diagnostic.source_location.at >= typed.text.len()
    {
        return Ok(false);
    }
    match moved(alloc, typed)? {
        Some(at) => Ok(at != diagnostic.source_location.at),
        None => Ok(true),
    }
}

/// A fault of a notation that is given as a text, with its place in that text or in that of a module.
fn placed(alloc: Global, typed: TypedText<'_>, diagnostic: ValueDiagnostic) -> Fault
    ensures { (first : List ℕ) →
        IsInModule first typed.entry.within.now →
        DenotesNoValue typed.entry.modules.now first (written typed.entry.text.now) diagnostic →
        IsNotMeant typed.entry.modules.now first (written typed.entry.text.now) result }
{
    match is_in_text(alloc, typed, &diagnostic) {
        Ok(true) => Fault::Notation(NotationFault::Value(diagnostic)),
        Ok(false) => Fault::Value(diagnostic),
        Err(_) => Fault::Memory,
    }
}

/// The value of a text under a type.
fn of_text(
    alloc: Global,
    modules: &Modules,
    ty: &str,
    id: TypeId,
    text: &[u8],
) -> Result<Value, Fault>
    requires there { id.index < length modules.now.types }
    requires typed { TypeNamed modules.now ty.now id.index }
    ensures meant { IfOk result (λ v. IsMeant modules.now ty.now (written text.now) id.index (abstract v)) }
    ensures refused { IfErr result (IsNotMeant modules.now ty.now (written text.now)) }
{
    let within = module_in(modules, ty, id);
    let notation = match parse_value(alloc, text) {
        Ok(notation) => notation,
        Err(fault) => return Err(unread(fault)),
    };
    match modules.typed(alloc, id, within, &notation) {
        Ok(value) => Ok(value),
        Err(ValueError::Memory) => Err(Fault::Memory),
        Err(ValueError::Diagnosed(diagnostic)) => {
            let typed = TypedText {
                modules,
                id,
                within,
                text,
            };
            Err(placed(alloc, typed, diagnostic))
        }
    }
}

/// The type that `ty` names, and the value that the notation of the value that is given stands for under it.
///
/// A named value has the notation of its assignment, which is read in the module of the assignment. A text is a
/// notation itself. It is read in the module that the name of the type begins with.
///
/// The error is the first fault in this order. `NoType`: `ty` is no type's name. For a name, `NoValue`: it is no
/// value's name. For a text, `Notation`: its octets are not those of tokens, or its tokens are not those of one value.
/// `Value`, or for a text also `Notation`: the notation stands for no value of the type. The place in `Notation` is
/// always one in the text that was given, and that in `Value` is in the text of the module that it names. `Memory`:
/// there is not enough memory.
pub fn meant(
    alloc: Global,
    modules: &Modules,
    ty: &str,
    value: ValueGiven<'_>,
) -> Result<(TypeId, Value), Fault>
    ensures meant { IfOk result (λ r. IsMeant modules.now ty.now (as_given value.entry) r.0.index (abstract r.1)) }
    ensures refused { IfErr result (IsNotMeant modules.now ty.now (as_given value.entry)) }
{
    let id = match named_type(alloc, modules, ty) {
        Ok(id) => id,
        Err(fault) => return Err(fault),
    };
    let found = match value {
        ValueGiven::Named(name) => of_name(alloc, modules, ty, id, name),
        ValueGiven::Written(text) => of_text(alloc, modules, ty, id, text),
    };
    match found {
        Ok(value) => Ok((id, value)),
        Err(fault) => Err(fault),
    }
}
