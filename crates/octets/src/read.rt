//! The header at the start of octets.

ghost use Rattle.encodings.specs.Header.{Octets, class_bits, form_bit, septets};
ghost use Rattle.octets.specs.Forms.{is_constructed};
ghost use Rattle.octets.specs.Fronts.{HeaderAt, IsRightFault};
ghost use Rattle.octets.specs.Scans.{IdentifierAt, NoIdentifier, NoNumber, NoSeptets, NoSize, SizeAt};
ghost use Rattle.encodings.specs.proving.Septets.{Septets};
ghost use Rattle.octets.specs.declared.header_fault.HeaderFault.{HeaderFault as Fault'};
ghost use Rattle.std.specs.Int.Digits.{number_from_digits_after};
ghost use Rattle.std.specs.Prelude.{◌≡◌, ◌+◌, ◌<◌, ◌≤◌, ◌++◌, ◌∷◌, Bool, Err, IfErr, IfNone, IfOk, IfSome, IsOk, IsTrue, List, length, ℕ};
ghost use Rattle.asn_base.specs.declared.tag.Tag.{Tag as Tag'};

use crate::form::Form;
use crate::header_fault::HeaderFault;
use crate::law::lemma_one_front;
use asn_base::tag::{Class, Tag};
use limits::MAX_LENGTH;

/// What a header says: the tag, the form, and `contents`, how many octets of contents follow it; and `octets`, how many
/// octets it has itself.
#[derive(Clone, Copy, Debug, PartialEq, Eq)]
pub struct Header {
    pub tag: Tag,
    pub form: Form,
    pub contents: usize,
    pub octets: usize,
}

/// Reads the header at the start of octets, in any of its definite forms (X.690, 8.1.2 and 8.1.3). The call takes no
/// memory, and reads nothing after the header.
///
/// `BadTag`: the first octets are no tag's identifier octets. After identifier octets come `Indefinite`, for the octet
/// `80`, and `BadLength`, for the octet `FF` or a length above 16,777,216 whose octets are there. `Truncated`: the
/// octets end within a header, or before the contents that it promises.
#[inline(always)]
pub fn read_header(octets: &[u8]) -> Result<Header, HeaderFault>
    ensures ok { IfOk result (λ h. HeaderAt h.tag (is_constructed h.form) h.contents h.octets octets.now) }
    ensures err { IfErr result (λ e. IsRightFault e octets.now) }
    // A header that is there is read, and each fault that is there is the error.
    ensures only { (t : Tag') (c : Bool) (n k : ℕ) → HeaderAt t c n k octets.now → IsOk result }
    ensures just { (e : Fault') → IsRightFault e octets.now → result ≡ Err e }
{
    lemma_one_front();
    header_at(octets)
}

/// The header at the start of octets, or why none is there.
#[inline(always)]
fn header_at(octets: &[u8]) -> Result<Header, HeaderFault>
    ensures ok { IfOk result (λ h. HeaderAt h.tag (is_constructed h.form) h.contents h.octets octets.now) }
    ensures err { IfErr result (λ e. IsRightFault e octets.now) }
{
    let (tag, form, sized) = match read_identifier(octets) {
        Ok(read) => read,
        Err(fault) => return Err(fault),
    };
    let (contents, after) = match read_size(sized) {
        Ok(read) => read,
        Err(fault) => return Err(fault),
    };
    if after.len() < contents {
        return Err(HeaderFault::Truncated);
    }
    Ok(Header {
        tag,
        form,
        contents,
        octets: octets.len() - after.len(),
    })
}

/// The class and form of a first identifier octet, and its last five bits.
#[inline(always)]
fn first_octet(octet: u8) -> (Class, Form, u8)
    ensures low { result.2 < 32 }
    ensures octet { octet ≡ class_bits result.0 + form_bit (is_constructed result.1) + result.2 }
{
    let class = match octet / 64 {
        0 => Class::Universal,
        1 => Class::Application,
        2 => Class::Context,
        _ => Class::Private,
    };
    let form = if octet / 32 % 2 == 0 {
        Form::Primitive
    } else {
        Form::Constructed
    };
    (class, form, octet % 32)
}

/// Reads the identifier octets.
#[tactic(auto, using(crate::proofs::Identified::none_there))]
#[inline(always)]
fn read_identifier(octets: &[u8]) -> Result<(Tag, Form, &[u8]), HeaderFault>
    ensures ok { IfOk result (λ r. IdentifierAt r.0 (is_constructed r.1) r.2.now octets.now) }
    ensures err { IfErr result (λ e. NoIdentifier octets.now e) }
{
    let Some((first, after)) = octets.split_first() else {
        return Err(HeaderFault::Truncated);
    };
    let (class, form, low) = first_octet(*first);
    if low < 31 {
        if low == 0 && class == Class::Universal {
            return Err(HeaderFault::BadTag);
        }
        return Ok((Tag::of(class, low as u32), form, after));
    }
    let (number, rest) = match read_number(after) {
        Ok(read) => read,
        Err(fault) => return Err(fault),
    };
    Ok((Tag::of(class, number), form, rest))
}

/// Reads the number of a tag in septets (the long form): a number above 30, without leading zeros.
fn read_number(octets: &[u8]) -> Result<(u32, &[u8]), HeaderFault>
    ensures above { IfOk result (λ r. 31 ≤ r.0) }
    ensures below { IfOk result (λ r. r.0 < 2147483648) }
    ensures ok { IfOk result (λ r. octets.now ≡ septets r.0 ++ r.1.now) }
    ensures err { IfErr result (λ e. NoNumber octets.now e) }
{
    if has_zeros_first(octets) {
        return Err(HeaderFault::BadTag);
    }
    let (number, rest) = match read_septets(octets, 0) {
        Ok(read) => read,
        Err(fault) => return Err(fault),
    };
    if number < 31 {
        return Err(HeaderFault::BadTag);
    }
    Ok((number, rest))
}

/// Whether the first octet is a septet of zeros with the top bit set.
fn has_zeros_first(octets: &[u8]) -> bool
    ensures yes { IsTrue result → (rest : List ℕ) × (octets.now ≡ 128 ∷ rest) }
    ensures no { (rest : List ℕ) → octets.now ≡ 128 ∷ rest → IsTrue result }
{
    match octets.split_first() {
        Some((first, _)) => *first == 128,
        None => false,
    }
}

/// Reads septets after some that are worth `high`.
#[tactic(auto, using(crate::proofs::Septets::one_last, crate::proofs::Septets::one_more, crate::proofs::Septets::no_more, crate::proofs::Septets::none_after, crate::proofs::Septets::too_many))]
fn read_septets(octets: &[u8], high: u32) -> Result<(u32, &[u8]), HeaderFault>
    requires { high < 16777216 }
    ensures below { IfOk result (λ r. r.0 < 2147483648) }
    ensures ok { IfOk result (λ r. Septets high octets.now r.0 r.1.now) }
    ensures err { IfErr result (λ e. NoSeptets high octets.now e) }
{
    let Some((octet, after)) = octets.split_first() else {
        return Err(HeaderFault::Truncated);
    };
    let octet = *octet;
    if octet < 128 {
        return Ok((high * 128 + octet as u32, after));
    }
    let worth = high * 128 + (octet - 128) as u32;
    if worth >= 16_777_216 {
        return Err(HeaderFault::BadTag);
    }
    read_septets(after, worth)
}

/// Reads the length octets.
#[tactic(auto, using(crate::proofs::Sizes::size_none, crate::proofs::Sizes::size_short))]
#[inline(always)]
fn read_size(octets: &[u8]) -> Result<(usize, &[u8]), HeaderFault>
    ensures ok { IfOk result (λ r. SizeAt r.0 r.1.now octets.now) }
    ensures err { IfErr result (λ e. NoSize octets.now e) }
{
    let Some((first, after)) = octets.split_first() else {
        return Err(HeaderFault::Truncated);
    };
    let first = *first;
    if first < 128 {
        return Ok((first as usize, after));
    }
    if first == 128 {
        return Err(HeaderFault::Indefinite);
    }
    if first == 255 {
        return Err(HeaderFault::BadLength);
    }
    let count = (first - 128) as usize;
    if after.len() < count {
        return Err(HeaderFault::Truncated);
    }
    let (digits, rest) = after.split_at(count);
    match number_of(digits, 0) {
        Some(number) => Ok((number, rest)),
        None => Err(HeaderFault::BadLength),
    }
}

/// The number that `high` and the octets after it are, in base 256, or None if it is above 16,777,216.
fn number_of(octets: &[u8], high: usize) -> Option<usize>
    requires { high ≤ 16777216 }
    ensures some { IfSome result (λ n. (n ≡ number_from_digits_after 256 high octets.now) × (n ≤ 16777216)) }
    ensures none { IfNone result (16777216 < number_from_digits_after 256 high octets.now) }
{
    let Some((octet, after)) = octets.split_first() else {
        return Some(high);
    };
    let worth = high as u64 * 256 + *octet as u64;
    if worth > MAX_LENGTH {
        return None;
    }
    number_of(after, worth as usize)
}
