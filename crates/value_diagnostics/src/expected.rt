//! The words for what is expected of a notation.

ghost use Rattle.std.specs.Prelude.{◌<◌, length};

use crate::naming::field_at;
use asn_base::constraint::Range;
use asn_base::schema::TypeId;
use asn_base::strings::StringKind;
use std::alloc::{AllocError, Global};
use trees::{EnumeratedSyntax, ListKind, NamedBit, Simple, ValueSyntax};
use type_table::{ListMember, Shape};
use typed_values::constraints::{Bounded, alphabet, constraint, range};
use typed_values::{Cause, ValueFault};

/// The most characters of a list of words.
const SHOWN: usize = 60;

/// A list of words, cut off if it gets long.
#[derive(Drop)]
struct List {
    text: String,
    between: &'static str,
    full: bool,
}

impl List {
    fn new(alloc: Global, between: &'static str) -> List {
        List {
            text: String::new(alloc),
            between,
            full: false,
        }
    }

    /// Begins the list with a word, or with its first 60 characters and two dots.
    fn begin(&mut self, word: &str) -> Result<(), AllocError> {
        match word.get(..SHOWN) {
            Some(front) if front.len() < word.len() => {
                self.full = true;
                self.text.push_str(front)?;
                self.text.push_str("..")
            }
            _ => self.text.push_str(word),
        }
    }

    /// Adds a word, or two dots if there is no more room. The first word is cut if it is too long.
    fn add(&mut self, word: &str) -> Result<(), AllocError> {
        if self.full {
            return Ok(());
        }
        if self.text.is_empty() {
            return self.begin(word);
        }
        self.text.push_str(self.between)?;
        if self.text.len().saturating_add(word.len()) > SHOWN {
            self.full = true;
            return self.text.push_str("..");
        }
        self.text.push_str(word)
    }

    /// Adds a range, or two dots if there is no more room. The first range is whole: it has at most 82 characters, and
    /// a part of a number would be another number.
    fn add_range(&mut self, range: &str) -> Result<(), AllocError> {
        if self.text.is_empty() {
            return self.text.push_str(range);
        }
        self.add(range)
    }
}

/// A name, or its first 60 characters with two dots after them.
fn shown(alloc: Global, name: &str) -> Result<String, AllocError> {
    let mut list = List::new(alloc, "");
    list.begin(name)?;
    Ok(list.text)
}

fn component_names(alloc: Global, components: &[ListMember]) -> Result<String, AllocError> {
    let mut list = List::new(alloc, ", ");
    for component in components {
        list.add(component.name.it.as_str())?;
    }
    Ok(list.text)
}

fn bit_names(alloc: Global, bits: &[NamedBit]) -> Result<String, AllocError> {
    let mut list = List::new(alloc, ", ");
    for bit in bits {
        list.add(bit.name.it.as_str())?;
    }
    Ok(list.text)
}

fn item_names(alloc: Global, given: &EnumeratedSyntax) -> Result<String, AllocError> {
    let mut list = List::new(alloc, ", ");
    for item in &given.root {
        list.add(item.name.it.as_str())?;
    }
    if let Some(more) = &given.additions {
        for item in more {
            list.add(item.name.it.as_str())?;
        }
    }
    Ok(list.text)
}

/// The name of a string type.
fn called(kind: StringKind) -> &'static str {
    match kind {
        StringKind::Numeric => "NumericString",
        StringKind::Printable => "PrintableString",
        StringKind::Ia5 => "IA5String",
        StringKind::Visible => "VisibleString",
    }
}

/// The form of the values of a type that holds no others.
fn of_simple(alloc: Global, simple: &Simple) -> Result<String, AllocError> {
    let words = match simple {
        Simple::Boolean => "TRUE or FALSE",
        Simple::Integer(names) if names.is_empty() => "a number",
        Simple::Integer(_) => "a number, or one of the type's names of numbers",
        Simple::BitString(bits) if bits.is_empty() => "digits as '01'B or '0F'H",
        Simple::BitString(bits) => {
            let names = bit_names(alloc, bits)?;
            return format!(in alloc; "digits as '01'B or '0F'H, or bits in braces, of {names}");
        }
        Simple::OctetString => "digits as '0F'H or '01'B",
        Simple::Null => "NULL",
        Simple::ObjectIdentifier => {
            "at least two numbers in braces, as {1 2 840}: the first up to 2, after 0 or 1 the second below 40"
        }
        Simple::RelativeOid => "numbers in braces, as {8571 3 2}",
        Simple::Enumerated(given) => {
            let names = item_names(alloc, given)?;
            return format!(in alloc; "one of {names}");
        }
        Simple::Utf8String => "a text in quotes",
        Simple::Restricted(kind) => {
            let name = called(*kind);
            return format!(in alloc; "a text in quotes, of the characters of {name}");
        }
    };
    String::from_str(alloc, words)
}

/// The form of the values of a type.
fn of_shape(alloc: Global, shape: &Shape) -> Result<String, AllocError> {
    match shape {
        Shape::Simple(simple) => of_simple(alloc, simple),
        Shape::Elements(_, _) => String::from_str(alloc, "values in braces, as {a, b}"),
        Shape::Members(ListKind::Choice, _, components) => {
            let names = component_names(alloc, components)?;
            format!(in alloc; "an alternative and its value, as a : b, of {names}")
        }
        Shape::Members(_, _, components) if components.is_empty() => {
            String::from_str(alloc, "braces with nothing in them")
        }
        Shape::Members(_, _, components) => {
            let names = component_names(alloc, components)?;
            format!(in alloc; "components in braces, of {names}")
        }
        Shape::Reference(_) | Shape::Tagged(_, _, _) => String::from_str(alloc, "a value"),
    }
}

/// A range of numbers, in the notation of constraints.
fn of_range(alloc: Global, range: &Range) -> Result<String, AllocError> {
    match (range.least, range.greatest) {
        (Some(least), Some(greatest)) if least == greatest => format!(in alloc; "{least}"),
        (Some(least), Some(greatest)) => format!(in alloc; "{least}..{greatest}"),
        (Some(least), None) => format!(in alloc; "{least}..MAX"),
        (None, Some(greatest)) => format!(in alloc; "MIN..{greatest}"),
        (None, None) => String::from_str(alloc, "MIN..MAX"),
    }
}

/// Returns ranges in the notation of constraints, as `1..3 | 8`, cut off after 60 characters, but never within a range.
/// `AllocError`: an allocation failed.
pub fn of_ranges(alloc: Global, ranges: &[Range]) -> Result<String, AllocError> {
    let mut list = List::new(alloc, " | ");
    for range in ranges {
        let range = of_range(alloc, range)?;
        list.add_range(range.as_str())?;
    }
    Ok(list.text)
}

/// The characters between two codes in the notation of constraints, as `"a".."z"`.
fn of_characters(alloc: Global, first: u8, last: u8) -> Result<String, AllocError> {
    let first = char::from(first);
    let last = char::from(last);
    if first == last {
        return format!(in alloc; "\"{first}\"");
    }
    format!(in alloc; "\"{first}\"..\"{last}\"")
}

/// Whether a character is shown in quotation marks as it is: it is printed, and is no quotation mark.
fn is_plain(code: u8) -> bool {
    code >= b' ' && code <= b'~' && code != b'"'
}

/// The characters that the constraints of a type allow, in the notation of constraints, as `"a".."z" | " "`, cut off
/// after 60 characters. The result is None if one of them is a control character or a quotation mark.
fn of_alphabet(
    alloc: Global,
    bounded: &Bounded<'_>,
    ty: TypeId,
) -> Result<Option<String>, AllocError>
    requires { ty.index < length bounded.now.program.types }
{
    let Some(codes) = alphabet(bounded, ty) else {
        return Ok(None);
    };
    let mut list = List::new(alloc, " | ");
    let mut first: Option<u8> = None;
    for code in 0..128u8 {
        if !codes.has(u32::from(code)) {
            if let Some(begin) = first {
                list.add(of_characters(alloc, begin, code.saturating_sub(1))?.as_str())?;
            }
            first = None;
            continue;
        }
        if !is_plain(code) {
            return Ok(None);
        }
        first = Some(first.unwrap_or(code));
    }
    Ok(Some(list.text))
}

/// The words for the characters that the constraints of a type allow.
fn of_codes(alloc: Global, bounded: &Bounded<'_>, ty: TypeId) -> Result<String, AllocError>
    requires { ty.index < length bounded.now.program.types }
{
    match of_alphabet(alloc, bounded, ty)? {
        Some(characters) => format!(in alloc; "only characters of ({characters})"),
        None => String::from_str(alloc, "only characters that are allowed"),
    }
}

/// Whether a constraint on sizes allows every size.
fn allows_any_size(ranges: &[Range]) -> bool {
    match ranges.first() {
        Some(range) => range.least == Some(0) && range.greatest.is_none(),
        None => false,
    }
}

/// The words for what the constraints of a type allow: its numbers, or its sizes and characters.
fn of_constraints(alloc: Global, bounded: &Bounded<'_>, ty: TypeId) -> Result<String, AllocError>
    requires { ty.index < length bounded.now.program.types }
{
    let kept = constraint(alloc, bounded, ty)?;
    let Some(allowed) = &kept.allowed else {
        return String::from_str(alloc, "a value that the type's constraints allow");
    };
    let ranges = allowed.list(alloc)?;
    let shown = of_ranges(alloc, ranges.as_slice())?;
    if range(bounded, ty).is_some() {
        return format!(in alloc; "a number of ({shown})");
    }
    if alphabet(bounded, ty).is_none() {
        return format!(in alloc; "a size of ({shown})");
    }
    let characters = of_codes(alloc, bounded, ty)?;
    if allows_any_size(ranges.as_slice()) {
        return Ok(characters);
    }
    format!(in alloc; "a size of ({shown}), and {characters}")
}

/// The form of the values of a type, after its references and tags.
fn of_type(alloc: Global, bounded: &Bounded<'_>, ty: TypeId) -> Result<String, AllocError>
    requires { ty.index < length bounded.now.program.types }
{
    let linked = bounded.linked();
    let core = linked.core(ty);
    of_shape(alloc, &linked.types()[core.index].shape)
}

/// The words for the right order of a field and the one directly before it.
fn of_order(alloc: Global, notation: &ValueSyntax, field: usize) -> Result<String, AllocError> {
    let (name, _) = field_at(notation, field);
    let (before, _) = field_at(notation, field.saturating_sub(1));
    let name = shown(alloc, name)?;
    let before = shown(alloc, before)?;
    format!(in alloc; "{name} before {before}")
}

/// The words for what was expected at the place of a fault.
pub(crate) fn expected(
    alloc: Global,
    bounded: &Bounded<'_>,
    fault: ValueFault<'_>,
) -> Result<String, AllocError>
    requires { fault.at.ty.index < length bounded.now.program.types }
{
    match fault.cause {
        Cause::Memory => Ok(String::new(alloc)),
        Cause::Depth => String::from_str(alloc, "at most 64 levels"),
        Cause::Nodes => String::from_str(alloc, "at most 16777216 parts"),
        Cause::Oid => String::from_str(alloc, "at most 64 numbers, each below 2 to the 64"),
        Cause::Circular(_, _, _) => {
            String::from_str(alloc, "a value that does not come back to itself")
        }
        Cause::Repeated(_, _, _) => String::from_str(alloc, "each component once"),
        Cause::Missing(_, _, _) => String::from_str(alloc, "a value for it"),
        Cause::OutOfOrder(field, _, notation) => of_order(alloc, notation, field),
        Cause::Outside => of_constraints(alloc, bounded, fault.at.ty),
        Cause::NotOfType | Cause::UnknownAlternative => of_type(alloc, bounded, fault.at.ty),
        Cause::NoMeaning(_, _) | Cause::UnknownBit(_, _) | Cause::UnknownField(_, _, _) => {
            of_type(alloc, bounded, fault.at.ty)
        }
    }
}
