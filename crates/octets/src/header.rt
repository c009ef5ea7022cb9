//! The header with the fewest octets.

ghost use Rattle.encodings.specs.Header.{HeaderBy, class_bits, form_bit, identifier};
ghost use Rattle.encodings.specs.Fewest.{shortest_header, shortest_size};
ghost use Rattle.encodings.specs.Rules.{Rules};
ghost use Rattle.octets.specs.Adds.{AddsHeader};
ghost use Rattle.octets.specs.Forms.{is_constructed};
ghost use Rattle.std.specs.Prelude.{◌≡◌, ◌+◌, ◌<◌, ◌≤◌, ◌++◌, Bool, List, OnErr, OnOk, length, ℕ};

use crate::digits::{octet_count, push_high_septets, push_octets, septet_count};
use crate::form::Form;
use crate::header_fault::Fault;
use asn_base::tag::{Class, Tag};
use encodings::header_laws;
use std::alloc::{AllocError, Global};

/// How many octets the shortest header has that promises `contents` octets of contents (X.690, 8.1.2, 8.1.3 and 10.1).
/// The number is the same in either form. The call takes no memory.
pub fn header_len(tag: Tag, contents: u64) -> usize
    ensures shortest { (c : Bool) → length (shortest_header tag c contents) ≡ result }
    // No header of this tag and length has fewer octets.
    ensures least { (r : Rules) (c : Bool) (h : List ℕ) → HeaderBy r tag c contents h → result ≤ length h }
{
    header_laws();
    identifier_len(tag) + size_len(contents)
}

/// How many identifier octets a tag has.
#[tactic(auto, using(crate::proofs::Lengths::identifier_long))]
fn identifier_len(tag: Tag) -> usize
    ensures count { (c : Bool) → length (identifier tag.class tag.number c) ≡ result }
    ensures most { result ≤ 6 }
{
    if tag.number < 31 {
        1
    } else {
        1 + septet_count(tag.number)
    }
}

/// How many length octets the shortest form has.
#[tactic(auto, using(crate::proofs::Lengths::size_long))]
fn size_len(contents: u64) -> usize
    ensures count { length (shortest_size contents) ≡ result }
    ensures most { result ≤ 9 }
{
    if contents < 128 {
        1
    } else {
        1 + octet_count(contents)
    }
}

/// Adds the one header with the fewest octets that has the tag and the form and promises `contents` octets of contents
/// (X.690, 8.1.2, 8.1.3 and 10.1).
///
/// The error is `Memory`; then nothing is added.
#[tactic(auto, unfolding(encodings::specs::Fewest::shortest_header))]
pub fn write_header(
    alloc: Global,
    tag: Tag,
    form: Form,
    contents: u64,
    out: &mut Vec<u8>,
) -> Result<(), Fault>
    // One header by the distinguished rules is added: no header of this tag, form and length has fewer octets.
    ensures adds { OnOk result (AddsHeader tag (is_constructed form) contents out.old.items out.new.items) }
    // That header is this one.
    ensures exact { OnOk result (out.new.items ≡ out.old.items ++ shortest_header tag (is_constructed form) contents) }
    ensures err { OnErr result (out.new.items ≡ out.old.items) }
{
    header_laws();
    let mut header = Vec::new(alloc);
    push_identifier(&mut header, tag, form)?;
    push_size(&mut header, contents)?;
    out.extend_from_slice(header.as_slice())?;
    Ok(())
}

/// The first identifier octet, whose last five bits are `low`.
fn first_octet(class: Class, form: Form, low: u8) -> u8
    requires { low < 32 }
    ensures { result ≡ class_bits class + form_bit (is_constructed form) + low }
{
    let class_bits = match class {
        Class::Universal => 0,
        Class::Application => 64,
        Class::Context => 128,
        Class::Private => 192,
    };
    let form_bit = match form {
        Form::Primitive => 0,
        Form::Constructed => 32,
    };
    class_bits + form_bit + low
}

/// Adds the identifier octets.
#[tactic(auto, unfolding(encodings::specs::Header::identifier))]
fn push_identifier(out: &mut Vec<u8>, tag: Tag, form: Form) -> Result<(), AllocError>
    ensures { OnOk result (out.new.items ≡ out.old.items ++ identifier tag.class tag.number (is_constructed form)) }
{
    let number = tag.number;
    if number < 31 {
        out.push(first_octet(tag.class, form, number as u8))?;
    } else {
        out.push(first_octet(tag.class, form, 31))?;
        push_high_septets(out, number / 128)?;
        out.push((number % 128) as u8)?;
    }
    Ok(())
}

/// Adds the length octets.
fn push_size(out: &mut Vec<u8>, contents: u64) -> Result<(), AllocError>
    ensures { OnOk result (out.new.items ≡ out.old.items ++ shortest_size contents) }
{
    if contents < 128 {
        out.push(contents as u8)?;
    } else {
        out.push(128 + octet_count(contents) as u8)?;
        push_octets(out, contents as u128)?;
    }
    Ok(())
}
