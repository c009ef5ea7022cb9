//! Texts from joined octets.

ghost use Rattle.asn_base.specs.Abstract.{text as text'};
ghost use Rattle.primitive_reader.specs.Leaves.{Suits};
ghost use Rattle.segmented_strings.specs.Joining.{kind_of, some_text};
ghost use Rattle.segmented_strings.specs.Texts.{IsTextRefused, is_text};
ghost use Rattle.std.specs.Prelude.{◌≡◌, IfErr, IfNone, IfOk, IfSome, false, string_bytes};
ghost use Rattle.primitive_reader.specs.declared.leaf.Leaf.TheVariants.{Text};
ghost use Rattle.segmented_strings.specs.declared.fault.SegmentsFault.TheVariants.{Memory};

use crate::fault::{SegmentError, SegmentsFault};
use crate::segment::are_octets;
use encodings::LeafKind;
use primitive_reader::{Leaf, read_leaf};
use std::alloc::Global;

/// The text of a leaf that is one.
fn text_in(leaf: Leaf<'_>) -> Option<&str>
    ensures some { IfSome result (λ s. leaf.entry ≡ Text s) }
    ensures none { IfNone result (is_text leaf.entry ≡ false) }
{
    match leaf {
        Leaf::Text(text) => Some(text),
        Leaf::Bool(_) => None,
        Leaf::Int(_) => None,
        Leaf::Enum(_) => None,
        Leaf::Bits(_, _) => None,
        Leaf::Octets(_) => None,
        Leaf::Null => None,
        Leaf::Oid(_) => None,
        Leaf::RelativeOid(_) => None,
    }
}

/// A copy of the text of octets, if they are UTF-8, or characters of the kind.
pub(crate) fn text_of(alloc: Global, kind: LeafKind, octets: &[u8]) -> Result<String, SegmentsFault>
    requires { kind_of kind ≡ some_text }
    ensures same { IfOk result (λ s. string_bytes s ≡ octets.now) }
    ensures suits { IfOk result (λ s. Suits kind (text' octets.now)) }
    ensures err { IfErr result (λ e. IsTextRefused kind octets.now e) }
{
    are_octets(octets);
    let leaf = match read_leaf(kind, octets) {
        Ok(leaf) => leaf,
        Err(_) => return Err(SegmentsFault::At(0, SegmentError::BadContents)),
    };
    match text_in(leaf) {
        Some(text) => copied(alloc, text),
        None => Err(SegmentsFault::At(0, SegmentError::BadContents)),
    }
}

/// A copy of a text.
fn copied(alloc: Global, text: &str) -> Result<String, SegmentsFault>
    ensures ok { IfOk result (λ s. string_bytes s ≡ text.now) }
    ensures err { IfErr result (λ e. e ≡ Memory) }
{
    let copy = text.to_owned(alloc)?;
    Ok(copy)
}
