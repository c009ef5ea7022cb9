//! The parts of a value that can come next (X.690, 8.6, 8.7, 8.9, 8.11 and 8.13).

use crate::presence::{components_of, is_mandatory, is_marked, present, push_named};
use asn_base::schema::{Alternative, Component, Core, Schema, TypeId};
use header_listing::push_tag;
use std::alloc::{AllocError, Global};

/// The most parts that are listed.
const LISTED: usize = 3;

/// A component or an alternative: which of them it is, in a word, its identifier and its type.
#[derive(Clone, Copy)]
struct NextPart<'s> {
    kind: &'static str,
    name: &'s str,
    ty: TypeId,
}

/// Parts that can come next, in words: how many are listed, and how many are not.
#[derive(Drop)]
struct Listing {
    words: String,
    listed: usize,
    others: usize,
}

/// Adds the outermost tag of a type. An untagged CHOICE has none.
fn push_first_tag(words: &mut String, schema: &Schema, ty: TypeId) -> Result<(), AllocError> {
    if let Some(resolved) = schema.types().get(ty.index) {
        if let Some(tag) = resolved.tags.first() {
            return push_tag(words, *tag);
        }
    }
    words.push_str("a tag")
}

impl Listing {
    /// Adds a part by its tag and its identifier, or counts it if enough are listed.
    fn add(&mut self, schema: &Schema, part: NextPart<'_>) -> Result<(), AllocError> {
        if self.listed >= LISTED {
            self.others = self.others.saturating_add(1);
            return Ok(());
        }
        if self.listed > 0 {
            self.words.push_str(" or ")?;
        }
        self.listed += 1;
        push_first_tag(&mut self.words, schema, part.ty)?;
        self.words.push_str(" of ")?;
        push_named(&mut self.words, part.kind, part.name)
    }

    /// Adds alternatives.
    fn add_alternatives(
        &mut self,
        schema: &Schema,
        alternatives: &[Alternative],
    ) -> Result<(), AllocError> {
        for alternative in alternatives {
            let part = NextPart {
                kind: "alternative",
                name: alternative.name.as_str(),
                ty: alternative.ty,
            };
            self.add(schema, part)?;
        }
        Ok(())
    }

    /// Adds a component.
    fn add_component(&mut self, schema: &Schema, component: &Component) -> Result<(), AllocError> {
        let part = NextPart {
            kind: "component",
            name: component.name.as_str(),
            ty: component.ty,
        };
        self.add(schema, part)
    }

    /// Adds the components of a SET that are not marked.
    fn add_unmarked(
        &mut self,
        schema: &Schema,
        components: &[Component],
        marks: &[bool],
    ) -> Result<(), AllocError> {
        for place in 0..components.len() {
            if !is_marked(marks, place) {
                self.add_component(schema, &components[place])?;
            }
        }
        Ok(())
    }

    /// Adds the components of a SEQUENCE after the last marked one, up to the first mandatory one.
    fn add_following(
        &mut self,
        schema: &Schema,
        components: &[Component],
        marks: &[bool],
    ) -> Result<(), AllocError> {
        for place in after_marks(marks)..components.len() {
            self.add_component(schema, &components[place])?;
            if is_mandatory(&components[place]) {
                break;
            }
        }
        Ok(())
    }

    /// All words: those for the parts, and how many are not listed.
    fn all_words(self) -> Result<String, AllocError> {
        let mut words = self.words;
        if self.listed == 0 {
            words.push_str("the end of the contents")?;
        }
        if self.others > 0 {
            let others = self.others;
            write!(words, " or one of {others} more")?;
        }
        Ok(words)
    }
}

/// The place after the last mark that is set.
fn after_marks(marks: &[bool]) -> usize {
    let mut after = 0;
    for place in 0..marks.len() {
        if marks[place] {
            after = place + 1;
        }
    }
    after
}

/// A list without parts.
fn no_parts(alloc: Global) -> Listing {
    Listing {
        words: String::new(alloc),
        listed: 0,
        others: 0,
    }
}

/// The words for the alternatives of a CHOICE.
pub(crate) fn all_alternatives(
    alloc: Global,
    schema: &Schema,
    core: &Core,
) -> Result<Option<String>, AllocError> {
    let Core::Choice(alternatives) = core else {
        return Ok(None);
    };
    let mut listing = no_parts(alloc);
    listing.add_alternatives(schema, alternatives.root.as_slice())?;
    listing.add_alternatives(schema, alternatives.additions.as_slice())?;
    Ok(Some(listing.all_words()?))
}

/// The words for the components of a SEQUENCE or SET that can come after contents octets.
fn next_components(
    alloc: Global,
    schema: &Schema,
    core: &Core,
    contents: &[u8],
) -> Result<Option<String>, AllocError> {
    let Some((components, is_set)) = components_of(core) else {
        return Ok(None);
    };
    let Some(found) = present(alloc, schema, components, is_set, contents)? else {
        return Ok(None);
    };
    if !is_set && found.has_unknown {
        let words = String::from_str(alloc, "no component after an unknown addition")?;
        return Ok(Some(words));
    }
    let mut listing = no_parts(alloc);
    if is_set {
        listing.add_unmarked(schema, components, found.marks.as_slice())?;
    } else {
        listing.add_following(schema, components, found.marks.as_slice())?;
    }
    Ok(Some(listing.all_words()?))
}

/// The words for a segment of a string: those of a BIT STRING are BIT STRINGs (X.690, 8.6.4), and those of any other
/// string are OCTET STRINGs (8.7.3 and 8.23.6).
fn segment(alloc: Global, tag: &str) -> Result<Option<String>, AllocError> {
    let words = format!(in alloc; "{tag} of a segment")?;
    Ok(Some(words))
}

/// The words for the parts that can come next in a value, after these contents octets: the components of a SEQUENCE or
/// SET, the alternatives of a CHOICE, or a segment of a string. None if that can't be said.
pub(crate) fn next_parts(
    alloc: Global,
    schema: &Schema,
    core: &Core,
    before: Option<&[u8]>,
) -> Result<Option<String>, AllocError> {
    match (core, before) {
        (Core::Choice(_), _) => all_alternatives(alloc, schema, core),
        (Core::BitString(_) | Core::NamedBits(_), _) => segment(alloc, "[UNIVERSAL 3]"),
        (Core::OctetString(_) | Core::Utf8String(_), _) => segment(alloc, "[UNIVERSAL 4]"),
        (Core::RestrictedString(_, _, _), _) => segment(alloc, "[UNIVERSAL 4]"),
        (_, Some(contents)) => next_components(alloc, schema, core, contents),
        (_, None) => Ok(None),
    }
}
