//! Headers by the distinguished rules.

ghost use Rattle.asn_base.specs.declared.tag.Tag.{Tag as Tag'};
ghost use Rattle.codec_code.specs.Routines.{heads, is_constructed as is_row_constructed};
ghost use Rattle.codec_code.specs.declared.step.RowKind.{RowKind};
ghost use Rattle.encodings.specs.Encoding.{Framed};
ghost use Rattle.encodings.specs.Header.{Header, HeaderBy, identifier};
ghost use Rattle.encodings.specs.Rules.{Basic, Distinguished};
ghost use Rattle.octets.specs.Forms.{is_constructed};
ghost use Rattle.codec_code.specs.declared.step.Step.{Step as Step'};
ghost use Rattle.std.specs.Prelude.{◌≡◌, ◌≤◌, ◌++◌, Bool, IfErr, IfOk, IfSome, IsTrue, List, false, length, true, ℕ};
ghost use Rattle.der_check.specs.Heads.{FrameBreaks, HeaderBreaks, IsBare, IsInside, IsWithinHeaders};

use crate::refusal::NO_VALUE;
use crate::rule::{Breach, RuleOfDer, moved};
use crate::units::distance;
use asn_base::tag::{Tag, same_tag};
use codec_code::{Head, Step};
use encodings::header_laws;
use next_tags::{next_unit, short_unit};
use octets::law::lemma_shortest_headers;
use octets::{Form, header_len};

/// Whether the form is constructed, if `constructed` is true, or else primitive.
fn is_form(form: Form, constructed: bool) -> bool
    ensures yes { result ≡ true → is_constructed form ≡ constructed }
    ensures no { result ≡ false → is_constructed form ≡ constructed → ⊥ }
{
    match form {
        Form::Primitive => !constructed,
        Form::Constructed => constructed,
    }
}

/// How many identifier octets a tag has.
fn identifier_len(tag: Tag) -> usize
    ensures { (c : Bool) → length (identifier tag.class tag.number c) ≡ result }
{
    header_len(tag, 0).saturating_sub(1)
}

/// The contents of octets that are one header, with this tag and form and the fewest octets, and its contents. The
/// header of other octets breaks a rule.
fn inside(head: Head, octets: &[u8]) -> Result<&[u8], Breach>
    ensures ok { IfOk result (λ x. IsInside head x.now octets.now) }
    ensures none { IfErr result (λ b. (x : List ℕ) → IsInside head x octets.now → length octets.now ≤ 16777216 → ⊥) }
    ensures broken { IfErr result (λ b. (c : Bool) (x h : List ℕ)
        → Header head.tag c (length x) h
        → octets.now ≡ h ++ x
        → length octets.now ≤ 16777216
        → HeaderBreaks head c x h b.rule b.offset) }
{
    header_laws();
    lemma_shortest_headers();
    let Ok(unit) = next_unit(octets) else {
        return Err(NO_VALUE);
    };
    if !same_tag(unit.tag, head.tag) {
        return Err(NO_VALUE);
    }
    if !is_form(unit.form, head.constructed) {
        return Err(Breach {
            rule: RuleOfDer::PrimitiveString,
            offset: 0,
        });
    }
    if unit.count != header_len(unit.tag, unit.contents.len() as u64) {
        return Err(Breach {
            rule: RuleOfDer::FewestLengthOctets,
            offset: identifier_len(unit.tag),
        });
    }
    if !unit.rest.is_empty() {
        return Err(NO_VALUE);
    }
    Ok(unit.contents)
}

/// The form of a header that is constructed, if `constructed` is true, or else primitive.
#[inline(always)]
pub(crate) fn form_if(constructed: bool) -> Form
    ensures { is_constructed result ≡ constructed }
{
    if constructed {
        Form::Constructed
    } else {
        Form::Primitive
    }
}

/// The same as `first_inside`, for a header of any size.
fn long_inside(head: Head, octets: &[u8]) -> Option<(&[u8], &[u8])>
    ensures { IfSome result (λ r. (y : List ℕ) × IsInside head r.0.now y × (octets.now ≡ y ++ r.1.now)) }
{
    lemma_shortest_headers();
    let Ok(unit) = next_unit(octets) else {
        return None;
    };
    if !same_tag(unit.tag, head.tag) || !is_form(unit.form, head.constructed) {
        return None;
    }
    if header_len(unit.tag, unit.contents.len() as u64) != unit.count {
        return None;
    }
    Some((unit.contents, unit.rest))
}

/// The contents of the encoding at the start of octets, and what follows it, if its header has this tag and form and
/// the fewest octets. None decides nothing.
#[inline(always)]
pub(crate) fn first_inside(head: Head, octets: &[u8]) -> Option<(&[u8], &[u8])>
    ensures { IfSome result (λ r. (y : List ℕ) × IsInside head r.0.now y × (octets.now ≡ y ++ r.1.now)) }
{
    match short_unit(octets, head.tag, form_if(head.constructed)) {
        Some(found) => Some(found),
        None => long_inside(head, octets),
    }
}

/// The steps after the headers that steps begin with, and the contents that the octets have within these headers. The
/// result is the first breach if the octets don't have these headers by the distinguished rules.
pub(crate) fn within_heads<'s, 'o>(
    steps: &'s [Step],
    octets: &'o [u8],
) -> Result<(&'s [Step], &'o [u8]), Breach>
    ensures ok { IfOk result (λ r. IsWithinHeaders steps.now octets.now r.0.now r.1.now) }
    ensures none { IfErr result (λ b. (ss : List Step') (x : List ℕ)
        → IsWithinHeaders steps.now octets.now ss x
        → length octets.now ≤ 16777216
        → ⊥) }
    ensures broken { IfErr result (λ b. (tags : List Tag') (r : RowKind) (ss : List Step') (c : Bool) (x : List ℕ)
        → steps.now ≡ heads tags r ++ ss
        → IsBare ss
        → Framed Basic tags c x octets.now
        → length octets.now ≤ 16777216
        → FrameBreaks (is_row_constructed r) tags c x octets.now b) }
{
    header_laws();
    let Some((step, following)) = steps.split_first() else {
        return Ok((steps, octets));
    };
    let Step::Head(head) = *step else {
        return Ok((steps, octets));
    };
    let contents = match inside(head, octets) {
        Ok(contents) => contents,
        Err(breach) => return Err(breach),
    };
    match within_heads(following, contents) {
        Ok(found) => Ok(found),
        Err(breach) => Err(moved(breach, distance(octets, contents))),
    }
}

/// Whether the steps begin with no header.
#[inline(always)]
fn is_bare(steps: &[Step]) -> bool
    ensures { IsTrue result → IsBare steps.now }
{
    let Some((step, _)) = steps.split_first() else {
        return true;
    };
    match step {
        Step::Head(_) => false,
        _ => true,
    }
}

/// The same as `within_heads`, which isn't called if the steps begin with no header. Nothing is promised of a breach.
#[inline(always)]
pub(crate) fn unwrapped<'s, 'o>(
    steps: &'s [Step],
    octets: &'o [u8],
) -> Result<(&'s [Step], &'o [u8]), Breach>
    ensures { IfOk result (λ r. IsWithinHeaders steps.now octets.now r.0.now r.1.now) }
{
    if is_bare(steps) {
        return Ok((steps, octets));
    }
    within_heads(steps, octets)
}
