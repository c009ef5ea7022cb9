//! The types of the schema.

ghost use Rattle.std.specs.Prelude.{◌<◌};

use asn_base::constraint::{Bounds, Constraint, Range};
use asn_base::range_tree::RangeTree;
use asn_base::schema::{
    Addition, Alternative, Alternatives, Component, Core, Item, Items, NamedBit, Presence,
    Resolved, Schema, TypeId,
};
use asn_base::strings::StringKind;
use asn_base::tag::{Class, Tag};
use asn_base::value::Value;
use std::alloc::{AllocError, Global};

/// Adds a type after those that are there, with its number.
fn add(
    alloc: Global,
    types: &mut Vec<Resolved>,
    tags: Vec<Tag>,
    core: Core,
) -> Result<(), AllocError> {
    types.push(Resolved::of(alloc, tags, core)?)?;
    Ok(())
}

/// Adds a type with one tag, of the universal class.
fn add_universal(
    alloc: Global,
    types: &mut Vec<Resolved>,
    tag: u32,
    core: Core,
) -> Result<(), AllocError>
    requires some { 0 < tag }
    requires few { tag < 2147483648 }
{
    let tags = vec![in alloc; Tag::of(Class::Universal, tag)]?;
    add(alloc, types, tags, core)
}

/// Adds a type with one tag, of the context-specific class.
fn add_context(
    alloc: Global,
    types: &mut Vec<Resolved>,
    tag: u32,
    core: Core,
) -> Result<(), AllocError>
    requires few { tag < 2147483648 }
{
    let tags = vec![in alloc; Tag::of(Class::Context, tag)]?;
    add(alloc, types, tags, core)
}

/// INTEGER (1..3 | 8).
fn ranged(alloc: Global) -> Result<Core, AllocError> {
    let low = Range {
        least: Some(1),
        greatest: Some(3),
    };
    let high = Range {
        least: Some(8),
        greatest: Some(8),
    };
    Ok(Core::Integer(Constraint {
        allowed: Some(RangeTree::of(alloc, &[low, high])?),
        visible: Bounds {
            least: Some(1),
            greatest: Some(8),
            extensible: false,
        },
    }))
}

/// The numbers or sizes from the least to the greatest.
fn between(alloc: Global, least: i128, greatest: i128) -> Result<Constraint, AllocError> {
    let range = Range {
        least: Some(least),
        greatest: Some(greatest),
    };
    Ok(Constraint {
        allowed: Some(RangeTree::of(alloc, &[range])?),
        visible: Bounds {
            least: Some(least),
            greatest: Some(greatest),
            extensible: false,
        },
    })
}

/// OCTET STRING (SIZE (1..2, ...)).
fn extensible_size() -> Core {
    Core::OctetString(Constraint {
        allowed: None,
        visible: Bounds {
            least: Some(1),
            greatest: Some(2),
            extensible: true,
        },
    })
}

/// The name and the number in a word such as `low:-5`.
fn cut(word: &str) -> (&str, i128) {
    let (name, number) = word.split_once(':').unwrap_or((word, ""));
    (name, number.parse::<i128>().unwrap_or(0))
}

/// The items of an enumeration in words such as `low:-5 red:0`.
fn items(alloc: Global, words: &str) -> Result<Vec<Item>, AllocError> {
    let mut all = Vec::new(alloc);
    for word in words.split(' ') {
        let (name, number) = cut(word);
        let name = String::from_str(alloc, name)?;
        all.push(Item { name, number })?;
    }
    Ok(all)
}

/// BIT STRING {a(0)}.
fn named(alloc: Global) -> Result<Core, AllocError> {
    let bit = NamedBit {
        name: String::from_str(alloc, "a")?,
        place: 0,
    };
    Ok(Core::NamedBits(vec![in alloc; bit]?))
}

/// NumericString (FROM ("0".."2")).
fn digits(alloc: Global) -> Result<Core, AllocError> {
    let codes = vec![in alloc; 48, 49, 50]?;
    Ok(Core::RestrictedString(StringKind::Numeric, codes, Constraint::any_size()))
}

/// NumericString (SIZE (3)).
fn three_digits(alloc: Global) -> Result<Core, AllocError> {
    let codes = vec![in alloc; 32, 48, 49, 50, 51, 52, 53, 54, 55, 56, 57]?;
    Ok(Core::RestrictedString(StringKind::Numeric, codes, between(alloc, 3, 3)?))
}

/// The type with a number.
fn type_at(number: i128) -> TypeId {
    TypeId {
        index: usize::try_from(number).unwrap_or(usize::MAX),
    }
}

/// An addition, in version brackets or not.
fn addition(optional: bool, group: Option<usize>) -> Presence {
    Presence::Addition(Addition { optional, group })
}

/// When a component is there, by the mark before its name, and the word without the mark. `?` is OPTIONAL, `=` DEFAULT
/// 5, `+` an addition, `[` one in version brackets, and `]` an optional one there.
fn presence_of(alloc: Global, word: &str) -> Result<(Presence, &str), AllocError> {
    Ok(if let Some(rest) = word.strip_prefix('?') {
        (Presence::Optional, rest)
    } else if let Some(rest) = word.strip_prefix('=') {
        (Presence::default(alloc, Value::Int(5))?, rest)
    } else if let Some(rest) = word.strip_prefix('+') {
        (addition(false, None), rest)
    } else if let Some(rest) = word.strip_prefix('[') {
        (addition(false, Some(0)), rest)
    } else if let Some(rest) = word.strip_prefix(']') {
        (addition(true, Some(0)), rest)
    } else {
        (Presence::Mandatory, word)
    })
}

/// The components in words such as `a:1 ?b:0`: mark, name, and number of the type.
fn components(alloc: Global, words: &str) -> Result<Vec<Component>, AllocError> {
    let mut all = Vec::new(alloc);
    for word in words.split(' ') {
        let (presence, word) = presence_of(alloc, word)?;
        let (name, number) = cut(word);
        let ty = type_at(number);
        let name = String::from_str(alloc, name)?;
        all.push(Component { name, ty, presence })?;
    }
    Ok(all)
}

/// One component with a DEFAULT.
fn with_default(
    alloc: Global,
    name: &str,
    index: usize,
    value: Value,
) -> Result<Vec<Component>, AllocError> {
    let component = Component {
        name: String::from_str(alloc, name)?,
        ty: TypeId { index },
        presence: Presence::default(alloc, value)?,
    };
    Ok(vec![in alloc; component]?)
}

/// a SET OF INTEGER DEFAULT {1, 2}.
fn set_member(alloc: Global) -> Result<Vec<Component>, AllocError> {
    let numbers = vec![in alloc; Value::Int(1), Value::Int(2)]?;
    with_default(alloc, "a", 16, Value::List(numbers))
}

/// s of type 42, with DEFAULT {a 1}.
fn newer_member(alloc: Global) -> Result<Vec<Component>, AllocError> {
    let fields = vec![in alloc; Some(Value::Int(1)), None]?;
    with_default(alloc, "s", 42, Value::Fields(fields))
}

/// The alternatives in words such as `a:1 n:7`: name, and number of the type.
fn alternatives(alloc: Global, words: &str) -> Result<Vec<Alternative>, AllocError> {
    let mut all = Vec::new(alloc);
    for word in words.split_whitespace() {
        let (name, number) = cut(word);
        let ty = type_at(number);
        let name = String::from_str(alloc, name)?;
        all.push(Alternative { name, ty })?;
    }
    Ok(all)
}

/// Adds a SEQUENCE of these components.
fn add_sequence(
    alloc: Global,
    types: &mut Vec<Resolved>,
    extensible: bool,
    words: &str,
) -> Result<(), AllocError> {
    let list = components(alloc, words)?;
    add_universal(alloc, types, 16, Core::Sequence(extensible, list))
}

/// Adds a SET of these components.
fn add_set(
    alloc: Global,
    types: &mut Vec<Resolved>,
    extensible: bool,
    words: &str,
) -> Result<(), AllocError> {
    let list = components(alloc, words)?;
    add_universal(alloc, types, 17, Core::Set(extensible, list))
}

/// Adds a SEQUENCE OF the type with a number.
fn add_sequence_of(
    alloc: Global,
    types: &mut Vec<Resolved>,
    index: usize,
) -> Result<(), AllocError> {
    let list = Core::SequenceOf(Constraint::any_size(), TypeId { index });
    add_universal(alloc, types, 16, list)
}

/// Adds a SET OF the type with a number.
fn add_set_of(alloc: Global, types: &mut Vec<Resolved>, index: usize) -> Result<(), AllocError> {
    let list = Core::SetOf(Constraint::any_size(), TypeId { index });
    add_universal(alloc, types, 17, list)
}

/// Adds an extensible CHOICE with these alternatives and additions.
fn add_choice(
    alloc: Global,
    types: &mut Vec<Resolved>,
    root: &str,
    additions: &str,
) -> Result<(), AllocError> {
    let choice = Core::Choice(Alternatives {
        root: alternatives(alloc, root)?,
        extensible: true,
        additions: alternatives(alloc, additions)?,
    });
    add(alloc, types, Vec::new(alloc), choice)
}

/// Adds an extensible ENUMERATED with these items and additions.
fn add_enumeration(
    alloc: Global,
    types: &mut Vec<Resolved>,
    root: &str,
    additions: &str,
) -> Result<(), AllocError> {
    let enumeration = Core::Enumerated(Items {
        root: items(alloc, root)?,
        extensible: true,
        additions: items(alloc, additions)?,
    });
    add_universal(alloc, types, 10, enumeration)
}

/// Types 0 to 5.
fn first_types(alloc: Global, types: &mut Vec<Resolved>) -> Result<(), AllocError> {
    add_universal(alloc, types, 1, Core::Boolean)?;
    let number = Core::Integer(Constraint::any_number());
    add_universal(alloc, types, 2, number)?;
    add_universal(alloc, types, 2, ranged(alloc)?)?;
    add_enumeration(alloc, types, "low:-5 red:0", "new:2")?;
    let bits = Core::BitString(Constraint::any_size());
    add_universal(alloc, types, 3, bits)?;
    add_universal(alloc, types, 3, named(alloc)?)
}

/// Types 6 to 12.
fn more_leaves(alloc: Global, types: &mut Vec<Resolved>) -> Result<(), AllocError> {
    let octets = Core::OctetString(Constraint::any_size());
    add_universal(alloc, types, 4, octets)?;
    add_universal(alloc, types, 5, Core::Null)?;
    add_universal(alloc, types, 6, Core::ObjectIdentifier)?;
    add_universal(alloc, types, 13, Core::RelativeOid)?;
    let text = Core::Utf8String(Constraint::any_size());
    add_universal(alloc, types, 12, text)?;
    let short = Core::Utf8String(between(alloc, 1, 2)?);
    add_universal(alloc, types, 12, short)?;
    add_universal(alloc, types, 18, digits(alloc)?)
}

/// Types 13 to 17.
fn lists(alloc: Global, types: &mut Vec<Resolved>) -> Result<(), AllocError> {
    let none = Core::Sequence(false, Vec::new(alloc));
    add_universal(alloc, types, 16, none)?;
    add_sequence(alloc, types, false, "a:1 ?b:0 =c:1")?;
    add_sequence_of(alloc, types, 1)?;
    add_set_of(alloc, types, 1)?;
    add_set_of(alloc, types, 5)
}

/// Types 18 to 20.
fn choices(alloc: Global, types: &mut Vec<Resolved>) -> Result<(), AllocError> {
    let inner = Core::Choice(Alternatives {
        root: alternatives(alloc, "a:1 n:7")?,
        extensible: false,
        additions: Vec::new(alloc),
    });
    add_context(alloc, types, 0, inner)?;
    add_choice(alloc, types, "b-c:18", "d:0")?;
    add_sequence(alloc, types, true, "a:0 [b:1 ]c:7")
}

/// Types 21 to 23.
fn more_types(alloc: Global, types: &mut Vec<Resolved>) -> Result<(), AllocError> {
    add_sequence_of(alloc, types, 21)?;
    let tags = vec![in alloc; Tag::of(Class::Context, 0), Tag::of(Class::Universal, 1)]?;
    add(alloc, types, tags, Core::Boolean)?;
    let set = Core::Sequence(false, set_member(alloc)?);
    add_universal(alloc, types, 16, set)
}

/// Types 24 to 30.
fn tagged_types(alloc: Global, types: &mut Vec<Resolved>) -> Result<(), AllocError> {
    let tags = vec![in alloc; Tag::of(Class::Application, 30)]?;
    add(alloc, types, tags, Core::Null)?;
    let tags = vec![in alloc; Tag::of(Class::Application, 31)]?;
    add(alloc, types, tags, Core::Null)?;
    add_context(alloc, types, 128, Core::Null)?;
    add_context(alloc, types, 0, Core::Boolean)?;
    add_context(alloc, types, 1, Core::Boolean)?;
    // SET {a [1] BOOLEAN, b [0] BOOLEAN}
    add_set(alloc, types, false, "a:28 b:27")?;
    add_sequence_of(alloc, types, 0)
}

/// Types 31 to 36.
fn added_types(alloc: Global, types: &mut Vec<Resolved>) -> Result<(), AllocError> {
    add_set_of(alloc, types, 0)?;
    add_set_of(alloc, types, 6)?;
    let small = Core::Integer(between(alloc, 0, 7)?);
    add_context(alloc, types, 1, small)?;
    add_context(alloc, types, 2, Core::Null)?;
    add_sequence(alloc, types, true, "a:27 +b:33 +c:34")?;
    add_sequence(alloc, types, true, "a:27 [b:33 ]c:34")
}

/// Types 37 to 43.
fn newer_types(alloc: Global, types: &mut Vec<Resolved>) -> Result<(), AllocError> {
    let number = Core::Integer(Constraint::any_number());
    add_context(alloc, types, 0, number)?;
    // SEQUENCE {a [0] INTEGER OPTIONAL, b [1] INTEGER (0..7)}
    add_sequence(alloc, types, false, "?a:37 b:33")?;
    add_context(alloc, types, 1, Core::Null)?;
    // CHOICE {a [1] NULL, b [0] BOOLEAN, ...}
    add_choice(alloc, types, "a:39 b:27", "")?;
    // ENUMERATED {a, b(3), c, ..., d}: a is 0, c is 1, d is 2
    add_enumeration(alloc, types, "a:0 c:1 b:3", "d:2")?;
    // SEQUENCE {a [0] INTEGER, ..., b [1] BOOLEAN}
    let newer = Core::Sequence(true, components(alloc, "a:37 +b:28")?);
    add_context(alloc, types, 0, newer)?;
    let with_newer = Core::Sequence(false, newer_member(alloc)?);
    add_universal(alloc, types, 16, with_newer)
}

/// Types 44 to 49.
fn mixed_types(alloc: Global, types: &mut Vec<Resolved>) -> Result<(), AllocError> {
    let tags = vec![in alloc; Tag::of(Class::Context, 1), Tag::of(Class::Context, 2)]?;
    add(alloc, types, tags, Core::Boolean)?;
    add_universal(alloc, types, 18, three_digits(alloc)?)?;
    add_universal(alloc, types, 4, extensible_size())?;
    add_sequence_of(alloc, types, 14)?;
    add_set_of(alloc, types, 16)?;
    add_set(alloc, types, true, "?a:34 b:48 =c:37 +d:28")
}

/// Types 50 to 54.
fn short_lists(alloc: Global, types: &mut Vec<Resolved>) -> Result<(), AllocError> {
    add_context(alloc, types, 0, Core::Null)?;
    // SET {a [0] NULL, ...}, and SET {a [0] NULL OPTIONAL}
    add_set(alloc, types, true, "a:50")?;
    add_set(alloc, types, false, "?a:50")?;
    // SEQUENCE {a INTEGER, b INTEGER, ...}
    add_sequence(alloc, types, true, "a:1 b:1")?;
    // SEQUENCE {a OCTET STRING, b UTF8String}
    add_sequence(alloc, types, false, "a:6 b:10")
}

/// Types 55 to 60.
fn earlier_types(alloc: Global, types: &mut Vec<Resolved>) -> Result<(), AllocError> {
    // SEQUENCE {a [0] BOOLEAN, ...}, and the same SET
    add_sequence(alloc, types, true, "a:27")?;
    add_set(alloc, types, true, "a:27")?;
    // SEQUENCE {a SEQUENCE .., ...} of the newer type
    add_sequence(alloc, types, true, "a:42")?;
    // CHOICE {a SEQUENCE .., b [1] BOOLEAN, ...}
    add_choice(alloc, types, "a:42 b:28", "")?;
    add_sequence_of(alloc, types, 58)?;
    // SEQUENCE {a [0] INTEGER OPTIONAL, ...}
    add_sequence(alloc, types, true, "?a:37")
}

/// The schema of all these types. The error is that there is not enough memory, or that the types are no schema, which
/// each program with these types would show at once.
pub fn schema(alloc: Global) -> Result<Schema, AllocError> {
    let mut types = Vec::new(alloc);
    first_types(alloc, &mut types)?;
    more_leaves(alloc, &mut types)?;
    lists(alloc, &mut types)?;
    choices(alloc, &mut types)?;
    more_types(alloc, &mut types)?;
    tagged_types(alloc, &mut types)?;
    added_types(alloc, &mut types)?;
    newer_types(alloc, &mut types)?;
    mixed_types(alloc, &mut types)?;
    short_lists(alloc, &mut types)?;
    earlier_types(alloc, &mut types)?;
    match Schema::check(alloc, types) {
        Ok(schema) => Ok(schema),
        Err(_) => Err(AllocError),
    }
}

/// The names of the types, in order of their numbers, and one more.
const NAMES: &str = "\
    boolean integer one-to-three-or-eight items bits named-bits octets null oid relative-oid text \
    one-or-two-characters digits no-members three-members numbers set-of-numbers \
    set-of-named-bits inner-choice choice group levels tagged set-by-default application-30 \
    application-31 context-128 context-0-boolean context-1-boolean set truths set-of-truths \
    set-of-strings zero-to-seven context-2-null two-additions one-group context-0-integer \
    optional-first context-1-null not-in-order numbered-items newer with-newer twice-implicit \
    three-digits extensible-size rows set-of-sets mixed context-0-null open-set optional-null \
    two-numbers two-strings one-truth set-of-one-truth nested newer-or-truth newer-elements \
    optional-number none-such";

/// The number of the type with this name; `none-such` has the number after the last type.
pub fn type_named(name: &str) -> Option<TypeId> {
    let index = NAMES.split(' ').position(|other| other == name)?;
    Some(TypeId { index })
}
