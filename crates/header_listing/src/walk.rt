//! The headers of a message, one after the other.

ghost use Rattle.header_listing.specs.Listing.{IsListing};
ghost use Rattle.header_listing.specs.Shown.{HasNone, IsFirst};
ghost use Rattle.header_listing.specs.proving.Going.{GoesOn, IsGoing};
ghost use Rattle.octets.specs.Forms.{is_constructed};
ghost use Rattle.std.specs.Prelude.{◌≡◌, ◌+◌, ◌<◌, ◌^◌, ℕ, List, IfOk, OnOk, false, length, string_bytes, true};

use crate::first::{Encoding, first_encoding};
use crate::inside::{Inside, Seen, Types, described};
use crate::line_text::{push_header, push_others};
use crate::values::push_octets;
use asn_base::schema::TypeId;
use octets::Form;
use std::alloc::{AllocError, Global};

/// What comes after an encoding whose contents are shown: the octets after it, and what they are in.
#[derive(Clone, Copy)]
struct Outer<'a> {
    rest: &'a [u8],
    inside: Inside,
}

/// The number of unknown additions after an encoding.
fn counted(unknown: usize, is_addition: bool) -> usize {
    if is_addition {
        unknown.saturating_add(1)
    } else {
        unknown
    }
}

/// The words of octets at the start of which no encoding is: the octets.
fn words_of_others(alloc: Global, octets: &[u8]) -> Result<String, AllocError> {
    let mut words = String::from_str(alloc, " ")?;
    push_octets(&mut words, octets)?;
    Ok(words)
}

/// How far a listing is.
#[derive(Drop)]
struct Listing<'a> {
    /// The lines so far.
    out: String,
    /// What comes after each encoding whose contents are being shown, the innermost last.
    outer: Vec<Outer<'a>>,
    /// What the octets that are left are in.
    inside: Inside,
    /// The octets of the innermost encoding that are left.
    left: &'a [u8],
    /// The offset of these octets in the message, from 0.
    offset: usize,
    /// How many unknown additions there were.
    unknown: usize,
}

impl<'a> Listing<'a> {
    /// A listing of a message, without a line.
    fn new(alloc: Global, ty: TypeId, octets: &'a [u8]) -> Listing<'a>
        ensures { (limit : ℕ) → IsGoing octets.now limit result }
    {
        Listing {
            out: String::new(alloc),
            outer: Vec::new(alloc),
            inside: Inside::Value(ty),
            left: octets,
            offset: 0,
            unknown: 0,
        }
    }

    /// Goes on after the innermost encoding whose contents are being shown. The result is false if there is none.
    fn leave(&mut self) -> bool
        requires { length self.now.left.now ≡ 0 }
        ensures open { result ≡ true → GoesOn self.old self.new }
        ensures none { (o : List ℕ) (limit : ℕ)
            → result ≡ false
            → IsGoing o limit self.old
            → IsListing o limit self.new.offset (string_bytes self.new.out) }
    {
        match self.outer.pop() {
            Some(next) => {
                self.left = next.rest;
                self.inside = next.inside;
                true
            }
            None => false,
        }
    }

    /// Adds the line of the header at the start of the octets that are left. It goes on after a primitive encoding, and
    /// within a constructed one.
    fn show_encoding(&mut self, seen: Seen<'a>) -> Result<(), AllocError>
        requires room { self.now.offset + length self.now.left.now < 2 ^ 64 }
        requires first { IsFirst seen.encoding.tag (is_constructed seen.encoding.form) seen.encoding.identifier.now
            seen.encoding.size.now seen.encoding.contents.now seen.encoding.rest.now self.now.left.now }
        ensures { OnOk result (GoesOn self.old self.new) }
    {
        let encoding = seen.encoding;
        let description = described(seen, self.inside, self.unknown)?;
        let words = description.words.as_str();
        let depth = self.outer.as_slice().len();
        push_header(&mut self.out, depth, self.offset, encoding, words)?;
        self.unknown = counted(self.unknown, description.is_addition);
        self.offset += encoding.identifier.len() + encoding.size.len();
        match encoding.form {
            Form::Primitive => {
                self.offset += encoding.contents.len();
                self.left = encoding.rest;
                self.inside = description.next;
            }
            Form::Constructed => {
                self.outer.push(Outer {
                    rest: encoding.rest,
                    inside: description.next,
                })?;
                self.left = encoding.contents;
                self.inside = description.within;
            }
        }
        Ok(())
    }

    /// Adds the line of the octets that are left, at the start of which no encoding is.
    fn show_others(&mut self, alloc: Global) -> Result<(), AllocError>
        requires room { self.now.offset + length self.now.left.now < 2 ^ 64 }
        requires some { 0 < length self.now.left.now }
        requires none { HasNone self.now.left.now }
        ensures { OnOk result (GoesOn self.old self.new) }
    {
        let words = words_of_others(alloc, self.left)?;
        let depth = self.outer.as_slice().len();
        push_others(&mut self.out, depth, self.offset, words.as_str())?;
        self.offset += self.left.len();
        self.left = &[];
        Ok(())
    }

    /// Adds the next line, which shows the start of the octets that are left.
    fn show_next(&mut self, alloc: Global, types: Types<'a>) -> Result<(), AllocError>
        requires room { self.now.offset + length self.now.left.now < 2 ^ 64 }
        requires some { 0 < length self.now.left.now }
        ensures { OnOk result (GoesOn self.old self.new) }
    {
        match first_encoding(self.left) {
            Some(encoding) => {
                let seen = Seen {
                    alloc,
                    types,
                    encoding,
                };
                self.show_encoding(seen)?;
            }
            None => self.show_others(alloc)?,
        }
        Ok(())
    }
}

/// Returns the lines of the headers of a message: one for each header whose offset is below `limit`, in order. The
/// message is one of a value of the type; its octets may be any.
///
/// The octets are read once, and no function calls itself. `AllocError` only if an allocation fails.
pub fn list_headers(
    alloc: Global,
    types: Types<'_>,
    ty: TypeId,
    octets: &[u8],
    limit: usize,
) -> Result<String, AllocError>
    ensures { IfOk result (λ s. (stop : ℕ) × IsListing octets.now limit stop (string_bytes s)) }
{
    let mut listing = Listing::new(alloc, ty, octets);
    while listing.offset < limit {
        if listing.left.len() > 0 {
            listing.show_next(alloc, types)?;
        } else if !listing.leave() {
            return Ok(listing.out);
        }
    }
    Ok(listing.out)
}
