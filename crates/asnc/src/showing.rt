//! The headers of a message, in lines.

ghost use Rattle.std.specs.Prelude.{◌≡◌, IfOk, IfErr, string_bytes};
ghost use Rattle.header_listing.specs.Listing.{IsListing};
ghost use Rattle.judging.specs.messages.declared.fault.Fault.TheVariants.{Memory};
ghost use Rattle.asnc.specs.Showing.{IsBerVerdict, IsNotShownAs, IsShownAs, limit_of};
ghost use Rattle.std.specs.Prelude.{ℕ, Option};

use crate::kit_types::{KitType, KitTypes};
use crate::reading::{Rules, read_by, refusal};
use header_listing::{Types, list_headers};
use judging::front_end::Modules;
use judging::messages::{DecodeError, Fault};
use judging::named_values::named_type;
use std::alloc::{AllocError, Global};

/// The headers of a message, and whether the message is accepted.
#[derive(Drop)]
pub struct Listing {
    /// A line for each header, with a line end after each line.
    pub lines: String,
    /// Why the octets are refused, and where. None if they are accepted.
    pub refusal: Option<DecodeError>,
}

/// Why octets are refused by the basic rules, or None if they are accepted. `Memory`: an allocation failed.
fn judged(alloc: Global, ty: KitType<'_>, octets: &[u8]) -> Result<Option<DecodeError>, Fault>
    ensures judged { IfOk result (IsBerVerdict ty.entry.code.now ty.entry.id.index octets.now) }
    ensures memory { IfErr result (λ e. e ≡ Memory) }
{
    let fault = match read_by(alloc, ty.code, ty.id, octets, Rules::Ber) {
        Ok(_) => return Ok(None),
        Err(fault) => fault,
    };
    match refusal(alloc, ty, octets, fault) {
        Fault::DecodeError(error) => Ok(Some(error)),
        _ => Err(Fault::Memory),
    }
}

/// The offset before which headers are shown.
fn limit_at(octets: &[u8], refusal: &Option<DecodeError>) -> usize
    ensures { result ≡ limit_of octets.now refusal.now }
{
    match refusal {
        Some(unread) => unread.offset,
        None => octets.len(),
    }
}

/// The headers of a message of a value of the type, up to the octet at which it is refused, if it is.
fn shown(
    alloc: Global,
    modules: &Modules,
    ty: KitType<'_>,
    octets: &[u8],
    refusal: Option<DecodeError>,
) -> Result<Listing, AllocError>
    ensures { IfOk result (λ l. (l.refusal ≡ refusal)
        × ((stop : ℕ) × IsListing octets.now (limit_of octets.now refusal) stop (string_bytes l.lines))) }
{
    let types = Types {
        linked: modules.linked(),
        schema: ty.schema,
    };
    let limit = limit_at(octets, &refusal);
    let lines = list_headers(alloc, types, ty.id, octets, limit)?;
    Ok(Listing { lines, refusal })
}

/// The headers of a message in the terms of the type that a text names. `NoType`: the text names no type. `Memory`: an
/// allocation failed.
pub(crate) fn shown_as(
    alloc: Global,
    types: KitTypes<'_>,
    ty: &str,
    octets: &[u8],
) -> Result<Listing, Fault>
    ensures shown { IfOk result (IsShownAs types.entry.modules.now types.entry.code.now ty.now octets.now) }
    ensures refused { IfErr result (IsNotShownAs types.entry.modules.now ty.now) }
{
    let id = match named_type(alloc, types.modules, ty) {
        Ok(id) => id,
        Err(fault) => return Err(fault),
    };
    let found = KitType {
        schema: types.schema,
        code: types.code,
        id,
    };
    let refusal = match judged(alloc, found, octets) {
        Ok(refusal) => refusal,
        Err(fault) => return Err(fault),
    };
    Ok(shown(alloc, types.modules, found, octets, refusal)?)
}
