//! The rows of headers.

ghost use Rattle.std.specs.Prelude.{◌≡◌, ◌+◌, [], IfOk, List, Bool};
ghost use Rattle.account_rows.specs.RowLayout.{header_row as row_of};
ghost use Rattle.octet_account.specs.Flat.{a_leaf};
ghost use Rattle.octet_account.specs.Seen.{numbers_of, flat_row};
ghost use Rattle.der_layout.specs.Rows.{IsPlain, listed, capped_header};

use crate::places::Arrangement;
use asn_base::tag::Tag;
use codec_code::{Head, RowKind};
use octet_account::row::{Numbers, Places, RowLayout};
use octets::header_len;
use std::alloc::{AllocError, Global};

/// One more than the most octets of an encoding.
const TOO_MANY: usize = 16_777_217;

/// The sum of two numbers of octets or of members, or 16,777,217 if it is greater.
#[inline(always)]
pub(crate) fn sum(a: usize, b: usize) -> usize
    ensures { result ≡ listed (a + b) }
{
    match a.checked_add(b) {
        Some(n) => if n < TOO_MANY { n } else { TOO_MANY },
        None => TOO_MANY,
    }
}

/// The number, or 16,777,217 if it is greater.
#[inline(always)]
pub(crate) fn small(n: usize) -> u32
    ensures { result ≡ listed n }
{
    if n < TOO_MANY {
        n as u32
    } else {
        TOO_MANY as u32
    }
}

/// The numbers of a header with the fewest octets (X.690, 8.1.2, 8.1.3 and 10.1).
#[inline(always)]
fn numbers(tag: Tag, contents: usize) -> Numbers
    ensures { (c : Bool) → numbers_of result ≡ capped_header tag c contents }
{
    if tag.number < 31 && contents < 128 {
        return Numbers {
            identifier: 1,
            size: 1,
            contents: contents as u32,
        };
    }
    let identifier = header_len(tag, 0) - 1;
    let size = header_len(tag, contents as u64) - identifier;
    Numbers {
        identifier: small(identifier),
        size: small(size),
        contents: small(contents),
    }
}

/// The row of a value without other values in it, which has this number of contents octets.
#[inline(always)]
pub(crate) fn leaf_row(tag: Tag, contents: usize) -> RowLayout
    ensures { (c : Bool) → flat_row result ≡ a_leaf (capped_header tag c contents) }
{
    RowLayout::Leaf(numbers(tag, contents))
}

/// The row of a header with this number of contents octets and of members within it, whose members aren't put in an
/// order.
#[inline(always)]
pub(crate) fn plain_row(head: Head, contents: usize, members: usize) -> RowLayout
    requires { IsPlain head.row }
    ensures { flat_row result
        ≡ row_of head.row (capped_header head.tag head.constructed contents) (listed members) [] [] }
{
    let numbers = numbers(head.tag, contents);
    match head.row {
        RowKind::Leaf => RowLayout::Leaf(numbers),
        RowKind::Wrap => RowLayout::Wrap(numbers),
        RowKind::Sequence => RowLayout::Seq(numbers, small(members)),
        RowKind::SequenceOf => RowLayout::SeqOf(numbers, small(members)),
        RowKind::Set => RowLayout::Wrap(numbers),
        RowKind::SetOf => RowLayout::Wrap(numbers),
    }
}

/// The row of a header with this number of contents octets and of members within it. `AllocError` only if an allocation
/// fails.
#[inline(always)]
pub(crate) fn header_row(
    alloc: Global,
    head: Head,
    contents: usize,
    members: usize,
    arrangement: Arrangement,
) -> Result<RowLayout, AllocError>
    ensures { IfOk result (λ r. flat_row r
        ≡ row_of head.row (capped_header head.tag head.constructed contents) (listed members)
        arrangement.places.items arrangement.inverse.items) }
{
    let numbers = numbers(head.tag, contents);
    let members = small(members);
    match head.row {
        RowKind::Leaf => Ok(RowLayout::Leaf(numbers)),
        RowKind::Wrap => Ok(RowLayout::Wrap(numbers)),
        RowKind::Sequence => Ok(RowLayout::Seq(numbers, members)),
        RowKind::SequenceOf => Ok(RowLayout::SeqOf(numbers, members)),
        RowKind::Set => {
            let set = Places::of(alloc, members, arrangement.places, arrangement.inverse)?;
            Ok(RowLayout::Set(numbers, set))
        }
        RowKind::SetOf => {
            let set = Places::of(alloc, members, arrangement.places, arrangement.inverse)?;
            Ok(RowLayout::SetOf(numbers, set))
        }
    }
}
