//! Messages that are cut or changed.

use crate::words::{octets_of, type_of};
use asn_base::schema::TypeId;
use ber_reader::read_view;
use codec_code::Code;
use decode_faults::ReadFault;
use row_format::Row;
use row_format::refusal::{Refusal, refuse};
use std::alloc::{AllocError, Global};

/// How many messages were decoded, how many were truncated, and how many had another fault.
#[derive(Drop)]
struct Tried {
    read: usize,
    truncated: usize,
    refused: usize,
}

/// Decodes one more message.
fn try_one(
    alloc: Global,
    code: &Code,
    id: TypeId,
    octets: &[u8],
    tried: &mut Tried,
) -> Result<(), AllocError> {
    match read_view(alloc, code, id, octets) {
        Ok(_) => tried.read = tried.read.saturating_add(1),
        Err(ReadFault::Memory) => return Err(AllocError),
        Err(ReadFault::Truncated) => tried.truncated = tried.truncated.saturating_add(1),
        Err(_) => tried.refused = tried.refused.saturating_add(1),
    }
    Ok(())
}

/// Decodes each proper front of the octets.
fn cut(alloc: Global, code: &Code, id: TypeId, octets: &[u8]) -> Result<Tried, AllocError> {
    let mut tried = Tried {
        read: 0,
        truncated: 0,
        refused: 0,
    };
    for n in 0..octets.len() {
        try_one(alloc, code, id, &octets[..n], &mut tried)?;
    }
    Ok(tried)
}

/// The bits of an octet, the last one first.
const BITS: [u8; 8] = [1, 2, 4, 8, 16, 32, 64, 128];

/// Changes one bit of the octets, counted from the last bit of the first octet.
fn turn_bit(octets: &mut Vec<u8>, number: usize) {
    if let Some(octet) = octets.get_mut(number / 8) {
        *octet ^= BITS[number % 8];
    }
}

/// Decodes the octets with each bit changed in turn.
fn change(
    alloc: Global,
    code: &Code,
    id: TypeId,
    octets: &mut Vec<u8>,
) -> Result<Tried, AllocError> {
    let mut tried = Tried {
        read: 0,
        truncated: 0,
        refused: 0,
    };
    for number in 0..octets.len().saturating_mul(8) {
        turn_bit(octets, number);
        try_one(alloc, code, id, octets.as_slice(), &mut tried)?;
        turn_bit(octets, number);
    }
    Ok(tried)
}

fn push_tried(text: &mut String, before: &str, tried: &Tried) -> Result<(), AllocError> {
    let Tried {
        read,
        truncated,
        refused,
    } = tried;
    write!(
        text,
        "{before}: {read} read, {truncated} truncated, {refused} refused otherwise"
    )
}

/// `sweep NAME TYPE HEX..`: how many of the message's proper fronts are decoded, and how many of the messages that
/// differ from it in one bit.
pub fn answer(alloc: Global, code: &Code, row: &Row) -> Result<String, Refusal> {
    let id = type_of(alloc, row)?;
    let mut octets = octets_of(alloc, row)?;
    let cut = cut(alloc, code, id, octets.as_slice())?;
    let changed = change(alloc, code, id, &mut octets)?;
    let mut text = String::new(alloc);
    push_tried(&mut text, "fronts", &cut)?;
    push_tried(&mut text, "\nchanged", &changed)?;
    Ok(text)
}
