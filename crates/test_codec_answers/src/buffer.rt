//! Lists of bits.

use bits::buffer::BitBuf;
use row_format::Row;
use row_format::refusal::Refusal;
use std::alloc::{AllocError, Global};

/// The two numbers before and after a slash.
fn number_and_count(word: &str) -> Option<(u64, usize)> {
    let (number, count) = word.split_once('/')?;
    Some((number.parse::<u64>().ok()?, count.parse::<usize>().ok()?))
}

/// The digit for a bit, or a hyphen for None.
fn digit(bit: Option<bool>) -> &'static str {
    match bit {
        Some(true) => "1",
        Some(false) => "0",
        None => "-",
    }
}

/// Writes the bit at a place that a word names.
fn put_bit(bits: &BitBuf, place: &str, out: &mut String) -> Result<(), AllocError> {
    let bit = match place.parse::<usize>() {
        Ok(place) => digit(bits.get(place)),
        Err(_) => "no place",
    };
    write!(out, "@{place} is {bit}\n")
}

/// Adds the low bits of a number, at most 64.
fn add(bits: &mut BitBuf, word: &str, out: &mut String) -> Result<(), AllocError> {
    match number_and_count(word) {
        Some((number, count)) if count <= 64 => bits.push_word(number, count),
        _ => write!(out, "{word} is no step\n"),
    }
}

/// Does the step of one word. `0` and `1` add a bit, and `NUMBER/COUNT` adds the low bits of a number. `pad` fills the
/// last octet, and `@PLACE` writes the bit there.
fn step(bits: &mut BitBuf, word: &str, out: &mut String) -> Result<(), AllocError> {
    match word {
        "pad" => bits.pad(),
        "0" => bits.push(false),
        "1" => bits.push(true),
        _ => match word.strip_prefix('@') {
            Some(place) => put_bit(bits, place, out),
            None => add(bits, word, out),
        },
    }
}

/// Writes how many bits there are, and their octets if these are whole.
fn finish(alloc: Global, bits: BitBuf, out: &mut String) -> Result<(), AllocError> {
    let count = bits.len();
    write!(out, "length {count}")?;
    if count > 0 && count % 8 == 0 {
        let octets = bits.into_octets()?;
        let digits = hex::encode_upper(alloc, octets.as_slice())?;
        write!(out, ": {digits}")?;
    }
    Ok(())
}

/// `bits NAME [STEP ..]`: what the steps write, in order, and then how many bits there are and their octets.
pub fn answer(alloc: Global, row: &Row) -> Result<String, Refusal> {
    let mut out = String::new(alloc);
    let mut bits = BitBuf::new(alloc);
    for word in row.words.iter().skip(2) {
        step(&mut bits, word.as_str(), &mut out)?;
    }
    finish(alloc, bits, &mut out)?;
    Ok(out)
}
