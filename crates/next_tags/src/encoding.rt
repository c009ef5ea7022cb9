//! An encoding at the start of octets.

ghost use Rattle.asn_base.specs.declared.tag.Tag.{Tag as Tag'};
ghost use Rattle.encodings.specs.Header.{class_bits, form_bit, identifier};
ghost use Rattle.octet_answers.specs.Units.{UnitAt};
ghost use Rattle.octets.specs.Forms.{is_constructed};
ghost use Rattle.octets.specs.Fronts.{HeaderAt, IsRightFault};
ghost use Rattle.std.specs.Prelude.{◌≡◌, ◌≤◌, ◌∷◌, [], Bool, false, IfErr, IfOk, IfSome, List, true, ℕ};

use asn_base::tag::{Class, Tag};
use octets::law::lemma_one_front;
use octets::{Form, Header, HeaderFault, read_header};

/// A header of `count` octets, its contents, and what follows them.
#[derive(Clone, Copy)]
pub struct Unit<'a> {
    pub tag: Tag,
    pub form: Form,
    pub count: usize,
    pub contents: &'a [u8],
    pub rest: &'a [u8],
}

/// The encoding at the start of octets (X.690, 8.1.1), or why none is there. The faults are those of `read_header`,
/// which reads the header. The call takes no memory.
#[inline(always)]
pub fn next_unit(octets: &[u8]) -> Result<Unit<'_>, HeaderFault>
    ensures ok { IfOk result (λ u. UnitAt u.tag (is_constructed u.form) u.count u.contents.now u.rest.now octets.now) }
    ensures none { IfErr result (λ e. (g : Tag') (c : Bool) (k : ℕ) (x r : List ℕ) → UnitAt g c k x r octets.now → ⊥) }
    ensures err { IfErr result (λ e. IsRightFault e octets.now) }
{
    lemma_one_front();
    match read_header(octets) {
        Ok(header) => Ok(split_unit(octets, header)),
        Err(fault) => Err(fault),
    }
}

/// Splits octets into the contents that a header promises, and what follows them.
#[inline(always)]
fn split_unit(octets: &[u8], header: Header) -> Unit<'_>
    requires { HeaderAt header.tag (is_constructed header.form) header.contents header.octets octets.now }
    ensures { UnitAt result.tag
        (is_constructed result.form) result.count result.contents.now result.rest.now octets.now }
{
    let (_, following) = octets.split_at(header.octets);
    let (contents, rest) = following.split_at(header.contents);
    Unit {
        tag: header.tag,
        form: header.form,
        count: header.octets,
        contents,
        rest,
    }
}

/// The bits of a class in the first identifier octet (X.690, 8.1.2.2).
#[inline(always)]
fn bits_of(class: Class) -> u32
    ensures is { result ≡ class_bits class }
    ensures few { result ≤ 192 }
{
    match class {
        Class::Universal => 0,
        Class::Application => 64,
        Class::Context => 128,
        Class::Private => 192,
    }
}

/// The bit of a form in the first identifier octet (X.690, 8.1.2.5).
#[inline(always)]
fn bit_of(form: Form) -> u32
    ensures is { result ≡ form_bit (is_constructed form) }
    ensures few { result ≤ 32 }
{
    match form {
        Form::Primitive => 0,
        Form::Constructed => 32,
    }
}

/// Whether the octet is all identifier octets of an encoding with this tag, in this form. False decides nothing.
#[tactic(auto, using(crate::proofs::Shorts::one_octet))]
#[inline(always)]
fn is_identifier(octet: u8, tag: Tag, form: Form) -> bool
    ensures { result ≡ true → identifier tag.class tag.number (is_constructed form) ≡ octet ∷ [] }
{
    if tag.number >= 31 {
        return false;
    }
    if octet as u32 != bits_of(tag.class) + bit_of(form) + tag.number {
        return false;
    }
    true
}

/// The contents of the encoding with this tag and form at the start of octets, and what follows it, if its header has
/// two octets. None decides nothing. The call takes no memory.
#[inline(always)]
pub fn short_unit(octets: &[u8], tag: Tag, form: Form) -> Option<(&[u8], &[u8])>
    ensures { IfSome result (λ r. UnitAt tag (is_constructed form) 2 r.0.now r.1.now octets.now) }
{
    let Some((first, following)) = octets.split_first() else {
        return None;
    };
    let Some((size, inner)) = following.split_first() else {
        return None;
    };
    if !is_identifier(*first, tag, form) {
        return None;
    }
    let count = *size as usize;
    if count >= 128 || count > inner.len() {
        return None;
    }
    let (contents, rest) = inner.split_at(count);
    Some((contents, rest))
}
