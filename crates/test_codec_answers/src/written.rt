//! Encodings of values.

use crate::account::{octets_of, text_of};
use crate::words::{type_of, value_at, word};
use asn_base::schema::TypeId;
use asn_base::value::Value;
use codec_code::Code;
use der_writer::{Sink, Stops, WriteFault, write_der, write_der_to};
use octet_account::account::Account;
use row_format::Row;
use row_format::refusal::{Refusal, refuse};
use std::alloc::{AllocError, Global};

/// The most octets that are printed in full. Of more octets the first eight are printed, and their number.
const MOST_SHOWN: usize = 64;

/// The digits of octets, or of many octets those of the first eight and their number.
pub fn shown(alloc: Global, octets: &[u8]) -> Result<String, AllocError> {
    let count = octets.len();
    if count <= MOST_SHOWN {
        return hex::encode_upper(alloc, octets);
    }
    let mut text = hex::encode_upper(alloc, &octets[..8])?;
    write!(text, ".. {count} octets")?;
    Ok(text)
}

/// The digits of an encoding in a list, and below them its account.
fn listed(alloc: Global, octets: &[u8], account: &Account) -> Result<String, AllocError> {
    let mut text = shown(alloc, octets)?;
    let rows = text_of(alloc, account.rows())?;
    write!(text, "\n{rows}")?;
    Ok(text)
}

/// `der NAME TYPE`: the octets of the value's encoding and below them their account, or the fault.
pub fn in_memory(alloc: Global, code: &Code, row: &Row) -> Result<String, Refusal> {
    let id = type_of(alloc, row)?;
    let value = value_at(alloc, row, 0)?;
    match write_der(alloc, code, id, &value) {
        Ok((octets, account)) => Ok(listed(alloc, octets.as_slice(), &account)?),
        Err(fault) => Err(refuse(alloc, &fault)),
    }
}

/// How many octets an account gives, and its rows.
fn counted(alloc: Global, account: &Account) -> Result<String, AllocError> {
    let count = octets_of(account.rows());
    let rows = text_of(alloc, account.rows())?;
    format!(in alloc; "{count} octets {rows}")
}

/// The octets in a sink, and how many of its calls failed.
fn held(alloc: Global, sink: &Stops) -> Result<String, AllocError> {
    let octets = shown(alloc, sink.octets())?;
    let failures = sink.failures();
    format!(in alloc; "holds {octets}\nfailures {failures}")
}

/// The number at a word of the row, or 0 if it isn't a number.
fn number(row: &Row, place: usize) -> usize {
    word(row, place).parse::<usize>().unwrap_or(0)
}

/// The answer for a value that is encoded to the sink that a row describes.
fn sent(
    alloc: Global,
    code: &Code,
    id: TypeId,
    value: &Value,
    row: &Row,
) -> Result<String, AllocError> {
    let is_silent = word(row, 5) == "silent";
    let limit = number(row, 3);
    let room = Vec::with_capacity(alloc, limit)?;
    let mut sink = Stops::at(room, limit, number(row, 4), is_silent);
    let answer = match write_der_to(alloc, code, id, value, &mut sink) {
        Ok(account) => counted(alloc, &account)?,
        Err(WriteFault::Memory) if sink.octets().is_empty() => return Err(AllocError),
        Err(fault) => format!(in alloc; "{fault}")?,
    };
    let held = held(alloc, &sink)?;
    format!(in alloc; "{answer}\n{held}")
}

/// `sink NAME TYPE LIMIT MOST [silent]`: encodes the value to a sink that takes LIMIT octets, at most MOST in one call.
/// After that the sink fails, by an error or silently. The answer has the number of octets in the account and its rows,
/// the octets in the sink, and how many of its calls failed.
pub fn to_sink(alloc: Global, code: &Code, row: &Row) -> Result<String, Refusal> {
    let id = type_of(alloc, row)?;
    let value = value_at(alloc, row, 0)?;
    Ok(sent(alloc, code, id, &value, row)?)
}
