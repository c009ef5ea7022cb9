//! The encoding at the start of octets, in its parts (X.690, 8.1.1).

ghost use Rattle.header_listing.specs.Shown.{HasNone, IsFirst};
ghost use Rattle.octets.specs.Forms.{is_constructed};
ghost use Rattle.octets.specs.Fronts.{HeaderAt};
ghost use Rattle.encodings.specs.Header.{identifier};
ghost use Rattle.std.specs.Prelude.{◌≡◌, ◌+◌, ◌≤◌, Bool, IfNone, IfSome, length};

use asn_base::tag::Tag;
use octets::law::lemma_one_front;
use octets::{Form, Header, header_len, read_header};

/// An encoding: its tag and form, its identifier octets, length octets and contents octets, and what follows it.
#[derive(Clone, Copy)]
pub struct Encoding<'a> {
    pub tag: Tag,
    pub form: Form,
    pub identifier: &'a [u8],
    pub size: &'a [u8],
    pub contents: &'a [u8],
    pub rest: &'a [u8],
}

/// How many identifier octets a tag has.
#[tactic(auto, unfolding(encodings::specs::Fewest::shortest_header))]
fn identifier_len(tag: Tag) -> usize
    ensures { (c : Bool) → result ≡ length (identifier tag.class tag.number c) }
{
    header_len(tag, 0) - 1
}

/// Splits octets into the parts of the encoding that has the header at their start.
fn split_encoding(octets: &[u8], header: Header) -> Encoding<'_>
    requires { HeaderAt header.tag (is_constructed header.form) header.contents header.octets octets.now }
    ensures { IsFirst result.tag (is_constructed result.form) result.identifier.now result.size.now
        result.contents.now result.rest.now octets.now }
{
    let (identifier, sized) = octets.split_at(identifier_len(header.tag));
    let (size, following) = sized.split_at(header.octets - identifier.len());
    let (contents, rest) = following.split_at(header.contents);
    Encoding {
        tag: header.tag,
        form: header.form,
        identifier,
        size,
        contents,
        rest,
    }
}

/// The encoding at the start of octets. The result is None if no header is there, or if it promises more contents than
/// follow it.
pub fn first_encoding(octets: &[u8]) -> Option<Encoding<'_>>
    ensures some { IfSome result (λ e. IsFirst e.tag (is_constructed e.form) e.identifier.now e.size.now
        e.contents.now e.rest.now octets.now) }
    ensures none { IfNone result (HasNone octets.now) }
{
    lemma_one_front();
    match read_header(octets) {
        Ok(header) => Some(split_encoding(octets, header)),
        Err(_) => None,
    }
}
