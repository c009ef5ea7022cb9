//! Views that are built by hand.

ghost use Rattle.std.specs.Prelude.{◌≡◌, IfOk, Some, None, string_bytes};
ghost use Rattle.views.specs.Tree.{fields, leaf, member, no_member, octets as octets', text};

use crate::built_shown::all;
use row_format::refusal::Refusal;
use std::alloc::{AllocError, Global};
use views::{Builder, View};

/// The message of a `SEQUENCE {a OCTET STRING, b UTF8String}`: `300C 0402 0102 2C06 0401C3 0401A9`. Component `a` is a
/// slice of the message, and `b` is joined from segments.
const MESSAGE: [u8; 14] = [
    0x30, 0x0C, 0x04, 0x02, 0x01, 0x02, 0x2C, 0x06, 0x04, 0x01, 0xC3, 0x04, 0x01, 0xA9,
];

/// The view of `{a octets, b joined}`, with octets at place 4 of a message and a joined text.
pub fn strings<'a>(alloc: Global, octets: &'a [u8], joined: String) -> Result<View<'a>, AllocError>
    ensures { IfOk result (λ v. v
        ≡ fields 2
        (member 0 (leaf (octets' octets.now (Some 4)))
        (member 1 (leaf (text (string_bytes joined) None)) no_member))) }
{
    let mut builder = Builder::new(alloc);
    builder.open_fields(0, 2)?;
    builder.push_octets(0, octets, 4)?;
    builder.push_joined_text(1, joined)?;
    builder.close();
    Ok(builder.finish())
}

/// `built NAME`: what the view of the message gives.
pub fn answer(alloc: Global) -> Result<String, Refusal> {
    let message = MESSAGE;
    let joined = String::from_str(alloc, "é")?;
    let view = strings(alloc, &message[4..6], joined)?;
    Ok(all(alloc, &view)?)
}
