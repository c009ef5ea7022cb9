//! What canonical PER says of a message that is cut, and of one in which a bit is changed.

use crate::sweeps::with_bit;
use row_format::Row;
use row_format::refusal::{Refusal, refuse};
use std::alloc::{AllocError, Global};
use test_program_answers::asked_in;
use test_program_answers::asnc::{Fault, Kit, number};

/// How many messages were read, how many additions were skipped in them, the sum of the octets of the printed values,
/// and the numbers of the refusals of the other messages.
#[derive(Drop)]
struct Tried {
    read: usize,
    skipped: u64,
    sum: usize,
    refused: Vec<u8>,
}

impl Tried {
    fn new(alloc: Global) -> Tried {
        Tried {
            read: 0,
            skipped: 0,
            sum: 0,
            refused: Vec::new(alloc),
        }
    }

    /// How many refusals have this number.
    fn count(&self, number: u8) -> usize {
        let mut count: usize = 0;
        for other in &self.refused {
            if *other == number {
                count = count.saturating_add(1);
            }
        }
        count
    }
}

/// The sum of the octets of a text.
fn sum_of(text: &str) -> usize {
    let mut sum: usize = 0;
    for octet in text.as_bytes() {
        sum = sum.saturating_add(usize::from(*octet));
    }
    sum
}

/// Reads one more message of the type with this name.
fn try_one(
    alloc: Global,
    kit: &Kit,
    ty: &str,
    octets: &[u8],
    tried: &mut Tried,
) -> Result<(), AllocError> {
    match kit.unper(alloc, ty, octets) {
        Ok((text, skipped)) => {
            tried.read = tried.read.saturating_add(1);
            tried.skipped = tried.skipped.saturating_add(skipped);
            tried.sum = tried.sum.saturating_add(sum_of(text.as_str()));
        }
        Err(Fault::Memory) => return Err(AllocError),
        Err(fault) => tried.refused.push(number(&fault))?,
    }
    Ok(())
}

/// Reads each proper beginning of the octets.
fn cut(alloc: Global, kit: &Kit, ty: &str, octets: &[u8]) -> Result<Tried, AllocError> {
    let mut tried = Tried::new(alloc);
    for n in 0..octets.len() {
        try_one(alloc, kit, ty, &octets[..n], &mut tried)?;
    }
    Ok(tried)
}

/// The bits of an octet, the last one first.
const BITS: [u8; 8] = [1, 2, 4, 8, 16, 32, 64, 128];

/// Reads the octets with each bit changed in turn.
fn change(alloc: Global, kit: &Kit, ty: &str, octets: &[u8]) -> Result<Tried, AllocError> {
    let mut tried = Tried::new(alloc);
    for number in 0..octets.len().saturating_mul(8) {
        let changed = with_bit(alloc, octets, number / 8, BITS[number % 8])?;
        try_one(alloc, kit, ty, changed.as_slice(), &mut tried)?;
    }
    Ok(tried)
}

/// How many refusals have each number.
fn push_refused(text: &mut String, tried: &Tried) -> Result<(), AllocError> {
    text.push_str("\nrefused:")?;
    for number in 0u8..=100 {
        let count = tried.count(number);
        if count > 0 {
            write!(text, " {count} by {number}")?;
        }
    }
    Ok(())
}

/// A line on the beginnings of the octets, and two lines on the octets with one bit changed.
fn lines(alloc: Global, kit: &Kit, ty: &str, octets: &[u8]) -> Result<String, AllocError> {
    let (cut, changed) = (
        cut(alloc, kit, ty, octets)?,
        change(alloc, kit, ty, octets)?,
    );
    let (truncated, beginnings) = (cut.count(90), octets.len());
    let (read, skipped, sum) = (changed.read, changed.skipped, changed.sum);
    let bits = beginnings.saturating_mul(8);
    let mut text = format!(in alloc; "\n{truncated} beginnings truncated of {beginnings}")?;
    write!(
        text,
        "\n{read} changed bits accepted of {bits}, skipped {skipped}, sum {sum}"
    )?;
    push_refused(&mut text, &changed)?;
    Ok(text)
}

/// `packed-sweep NAME WORD..`: the words are those of `asnc unper`. The answer is the value of the octets and the
/// number of skipped additions. A line follows with how many proper beginnings of the octets are refused by 90
/// Truncated. The next line is on the octets with each bit changed in turn: how many are accepted, how many additions
/// are skipped in these, and the sum of all octets of their printed values. The last line says how many of the others
/// are refused by which number.
pub fn sweep(alloc: Global, row: &Row) -> Result<String, Refusal> {
    let asked = asked_in(alloc, row, "asnc")?;
    let kit = match Kit::open(alloc, asked.texts()) {
        Ok(kit) => kit,
        Err(fault) => return Err(refuse(alloc, &fault)),
    };
    let (ty, octets) = (asked.job.ty.as_str(), asked.octets());
    match kit.unper(alloc, ty, octets) {
        Ok((printed, skipped)) => {
            let lines = lines(alloc, &kit, ty, octets)?;
            Ok(format!(in alloc; "{printed}\nskipped {skipped}{lines}")?)
        }
        Err(fault) => Err(refuse(alloc, &fault)),
    }
}
