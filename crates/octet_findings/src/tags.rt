//! A tag that is not expected.

ghost use Rattle.asn_base.specs.Seen.{kind_of, resolved_of};
ghost use Rattle.asn_base.specs.Types.{Resolved as Resolved'};
ghost use Rattle.header_listing.specs.Words.{tag_words};
ghost use Rattle.octet_findings.specs.Contents.{Says, constructed_words};
ghost use Rattle.octet_findings.specs.Tags.{Expects, FindsTag, expected_form, expected_tag, form_word, found_tag};
ghost use Rattle.octet_findings.specs.Tags.{inner_tags, only_form};
ghost use Rattle.octets.specs.Forms.{is_constructed};
ghost use Rattle.std.specs.Prelude.{◌≡◌, ◌++◌, [], IfOk, None, OnOk, Some, option_map, slice_get, string_bytes};

use crate::headers::header_at;
use crate::next::{all_alternatives, next_parts};
use crate::presence::contents_ending;
use crate::site::Site;
use crate::words::found;
use asn_base::schema::{Core, Resolved, Schema, TypeId};
use asn_base::tag::Tag;
use header_listing::push_tag;
use messages::Finding;
use octets::Form;
use std::alloc::{AllocError, Global};

/// The words where it can't be said which tags are expected.
const ANY: &str = "one that is allowed here";

/// A tag in notation, as `[3]` or `[UNIVERSAL 16]` (X.680, 31).
fn tag_text(alloc: Global, tag: Tag) -> Result<String, AllocError>
    ensures { IfOk result (λ s. string_bytes s ≡ tag_words tag) }
{
    let mut words = String::new(alloc);
    push_tag(&mut words, tag)?;
    Ok(words)
}

/// The words for a form.
fn form_word(form: Form) -> &'static str
    ensures { result.now ≡ form_word (is_constructed form) }
{
    match form {
        Form::Primitive => "primitive",
        Form::Constructed => "constructed",
    }
}

/// The words for a tag and a form that were found.
fn found_tag(alloc: Global, tag: Tag, form: Form) -> Result<String, AllocError>
    ensures { IfOk result (λ s. string_bytes s ≡ found_tag tag (is_constructed form)) }
{
    let tag = tag_text(alloc, tag)?;
    let form = form_word(form);
    format!(in alloc; "the tag {tag} in {form} form")
}

/// The form of all values of a type, if they have one alone (X.690, 8.2 to 8.14, 8.19, 8.20 and 8.23).
fn only_form(core: &Core) -> Option<Form>
    ensures { option_map is_constructed result ≡ only_form (kind_of core.now) }
{
    match core {
        Core::Boolean | Core::Integer(_) | Core::Enumerated(_) | Core::Null => {
            Some(Form::Primitive)
        }
        Core::ObjectIdentifier | Core::RelativeOid => Some(Form::Primitive),
        Core::BitString(_) | Core::NamedBits(_) | Core::OctetString(_) => None,
        Core::Utf8String(_) | Core::RestrictedString(_, _, _) => None,
        Core::Sequence(_, _) | Core::Set(_, _) | Core::Choice(_) => Some(Form::Constructed),
        Core::SequenceOf(_, _) | Core::SetOf(_, _) => Some(Form::Constructed),
    }
}

/// The words after the last tag of a type whose values have this form.
fn expected_form(form: Option<Form>) -> &'static str
    ensures { result.now ≡ expected_form (option_map is_constructed form) }
{
    match form {
        Some(Form::Primitive) => " in primitive form",
        Some(Form::Constructed) => " in constructed form",
        None => "",
    }
}

/// Adds tags that are each in the one before it.
fn push_inner(words: &mut String, tags: &[Tag]) -> Result<(), AllocError>
    ensures { OnOk result (string_bytes words.new ≡ string_bytes words.old ++ inner_tags tags.now) }
{
    for i in 0..tags.len() {
        words.push_str(" in constructed form, in it ")?;
        push_tag(words, tags[i])?;
    }
    Ok(())
}

/// The words for the tags of a type, with the form of the last one if there is one form.
fn expected_tag(alloc: Global, resolved: &Resolved) -> Result<String, AllocError>
    ensures { IfOk result (λ s. string_bytes s ≡ expected_tag (resolved_of resolved.now)) }
{
    let mut words = String::new(alloc);
    match resolved.tags.split_first() {
        Some((tag, inner)) => {
            push_tag(&mut words, *tag)?;
            push_inner(&mut words, inner)?;
            words.push_str(expected_form(only_form(&*resolved.core)))?;
        }
        None => words.push_str(ANY)?,
    }
    Ok(words)
}

/// The words for the tags that are expected at the first header of a part of the type.
fn expected_first(alloc: Global, schema: &Schema, resolved: &Resolved) -> Result<String, AllocError>
    ensures { ((resolved_of resolved.now).tags ≡ [] → ⊥)
        → IfOk result (λ s. string_bytes s ≡ expected_tag (resolved_of resolved.now)) }
{
    if !resolved.tags.is_empty() {
        return expected_tag(alloc, resolved);
    }
    match all_alternatives(alloc, schema, &*resolved.core)? {
        Some(words) => Ok(words),
        None => String::from_str(alloc, ANY),
    }
}

/// The words for the tags that are expected after these contents octets of a value of the type.
fn expected_next(
    alloc: Global,
    schema: &Schema,
    core: &Core,
    contents: Option<&[u8]>,
) -> Result<String, AllocError> {
    match next_parts(alloc, schema, core, contents)? {
        Some(words) => Ok(words),
        None => String::from_str(alloc, ANY),
    }
}

/// The words for the tags that are expected where reading of a part of the type stops.
fn expected_at(
    alloc: Global,
    schema: &Schema,
    ty: TypeId,
    octets: &[u8],
    site: Site,
) -> Result<String, AllocError>
    ensures { (r : Resolved')
        → site.levels ≡ None
        → slice_get schema.now ty.index ≡ Some r
        → (r.tags ≡ [] → ⊥)
        → IfOk result (λ s. string_bytes s ≡ expected_tag r) }
{
    if !schema.has(ty) {
        return String::from_str(alloc, ANY);
    }
    let resolved = schema.get(ty);
    match site.levels {
        None => expected_first(alloc, schema, resolved),
        Some(levels) => {
            let contents = contents_ending(octets, site.at, levels);
            expected_next(alloc, schema, &*resolved.core, contents)
        }
    }
}

/// Returns what was found where a value has contents octets that are encodings, in words, if those of its type never
/// are. The result is None for the other types: strings, and those whose values hold others. `AllocError`: an
/// allocation failed.
#[tactic(auto, using(crate::proofs::Found::found_so))]
pub fn constructed(
    alloc: Global,
    schema: &Schema,
    ty: TypeId,
) -> Result<Option<Finding>, AllocError>
    ensures { (r : Resolved')
        → slice_get schema.now ty.index ≡ Some r
        → IfOk result (Says (constructed_words (only_form r.kind))) }
{
    if !schema.has(ty) {
        return Ok(None);
    }
    match only_form(&*schema.get(ty).core) {
        Some(Form::Primitive) => {
            let words = String::from_str(alloc, "contents octets of constructed form")?;
            Ok(found(alloc, words, "those of primitive form")?)
        }
        _ => Ok(None),
    }
}

/// Returns which tag and form a message has where they are not expected, and which are expected, in words. The type
/// `ty` is that of the part that was being read, or of the value in whose contents octets no part can begin there. Then
/// the parts that can begin there are listed. The result is None if no header is there. `AllocError`: an allocation
/// failed.
#[tactic(auto, using(crate::proofs::Found::tag_found, crate::proofs::Found::tag_expected))]
pub fn unexpected(
    alloc: Global,
    schema: &Schema,
    ty: TypeId,
    octets: &[u8],
    site: Site,
) -> Result<Option<Finding>, AllocError>
    // It says the tag and the form that are at the octet.
    ensures found { IfOk result (FindsTag octets.now site.at) }
    // At a header of a part whose type has tags it says these.
    ensures expected { (r : Resolved')
        → site.levels ≡ None
        → slice_get schema.now ty.index ≡ Some r
        → (r.tags ≡ [] → ⊥)
        → IfOk result (Expects (expected_tag r)) }
{
    let Some(header) = header_at(octets, site.at) else {
        return Ok(None);
    };
    let words = found_tag(alloc, header.tag, header.form)?;
    let expected = expected_at(alloc, schema, ty, octets, site)?;
    found(alloc, words, expected.as_str())
}
