//! The checker's verdicts after a change of an account or of octets.

use row_format::Row;
use row_format::refusal::{Refusal, refuse};
use std::alloc::{AllocError, Global};
use test_program_answers::asnc::{Fault, number};
use test_program_answers::check_jobs::value_of;
use test_program_answers::judging::{Verdict, answer, judge};
use test_program_answers::{Asked, asked_in};

/// The kinds of an account's rows.
const KINDS: [&str; 8] = [
    "leaf", "wrap", "seq", "seqof", "set", "setof", "absent", "default",
];

/// How often the verdict was yes, how often it was no, how often there was none since the account is none (100), and
/// how often there was none for another reason, after changes of one kind.
#[derive(Clone, Copy, Default)]
struct Tally {
    yes: usize,
    no: usize,
    refused: usize,
    other: usize,
}

impl Tally {
    /// A line with the verdicts after changes of one kind.
    fn line(&self, alloc: Global, what: &str) -> Result<String, AllocError> {
        let Tally {
            yes,
            no,
            refused,
            ..
        } = *self;
        format!(in alloc; "\n{what}: {yes} yes, {no} no, {refused} refused")
    }
}

/// Asks for a verdict on changed octets or on a changed account.
fn tried(
    alloc: Global,
    asked: &Asked,
    octets: &[u8],
    account: &[u8],
    tally: &mut Tally,
) -> Result<(), AllocError> {
    let texts = asked.texts();
    let (ty, value) = (asked.job.ty.as_str(), value_of(&asked.job));
    match judge(alloc, texts, ty, value, octets, account) {
        Ok(Verdict::Yes) => tally.yes = tally.yes.saturating_add(1),
        Ok(Verdict::No(_)) => tally.no = tally.no.saturating_add(1),
        Err(Fault::Memory) => return Err(AllocError),
        Err(fault) => {
            if number(&fault) == 100 {
                tally.refused = tally.refused.saturating_add(1);
            } else {
                tally.other = tally.other.saturating_add(1);
            }
        }
    }
    Ok(())
}

/// A part of a text: the place of its first octet, and the place after its last one.
#[derive(Clone, Copy)]
struct Span {
    start: usize,
    end: usize,
}

/// The part of a text in a span.
fn part(text: &str, span: Span) -> &str {
    text.get(span.start..span.end).unwrap_or("")
}

/// A text in which the span is replaced by another part.
fn replaced(alloc: Global, text: &str, span: Span, part: &str) -> Result<String, AllocError> {
    let mut out = String::from_str(alloc, text.get(..span.start).unwrap_or(""))?;
    out.push_str(part)?;
    out.push_str(text.get(span.end..).unwrap_or(""))?;
    Ok(out)
}

/// The numbers in a text.
fn numbers(alloc: Global, text: &str) -> Result<Vec<Span>, AllocError> {
    let mut spans = Vec::new(alloc);
    let mut start = None;
    let mut at: usize = 0;
    for octet in text.as_bytes() {
        match start {
            None if octet.is_ascii_digit() => start = Some(at),
            Some(first) if !octet.is_ascii_digit() => {
                spans.push(Span {
                    start: first,
                    end: at,
                })?;
                start = None;
            }
            _ => {}
        }
        at = at.saturating_add(1);
    }
    Ok(spans)
}

/// The rows in the text of an account.
fn rows(alloc: Global, text: &str) -> Result<Vec<Span>, AllocError> {
    let mut spans = Vec::new(alloc);
    let mut depth: usize = 0;
    let mut start: usize = 0;
    let mut at: usize = 0;
    for octet in text.as_bytes() {
        if *octet == b'[' {
            depth = depth.saturating_add(1);
            if depth == 2 {
                start = at;
            }
        }
        let after = at.saturating_add(1);
        if *octet == b']' {
            if depth == 2 {
                spans.push(Span { start, end: after })?;
            }
            depth = depth.saturating_sub(1);
        }
        at = after;
    }
    Ok(spans)
}

/// Changes each number to the next greater and to the next smaller one.
fn other_numbers(alloc: Global, asked: &Asked, text: &str) -> Result<Tally, AllocError> {
    let mut tally = Tally::default();
    for span in &numbers(alloc, text)? {
        let number = part(text, *span).parse::<i64>().unwrap_or(0);
        let up = format!(in alloc; "{}", number.saturating_add(1))?;
        let down = format!(in alloc; "{}", number.saturating_sub(1))?;
        let more = replaced(alloc, text, *span, up.as_str())?;
        let less = replaced(alloc, text, *span, down.as_str())?;
        let octets = asked.octets();
        tried(alloc, asked, octets, more.as_bytes(), &mut tally)?;
        tried(alloc, asked, octets, less.as_bytes(), &mut tally)?;
    }
    Ok(tally)
}

/// The span of a row and of the comma next to it.
fn with_comma(text: &str, span: Span) -> Span {
    let after = Span {
        start: span.end,
        end: span.end.saturating_add(1),
    };
    if part(text, after) == "," {
        Span {
            start: span.start,
            end: after.end,
        }
    } else {
        Span {
            start: span.start.saturating_sub(1),
            end: span.end,
        }
    }
}

/// Leaves out each row in turn.
fn fewer_rows(alloc: Global, asked: &Asked, text: &str) -> Result<Tally, AllocError> {
    let mut tally = Tally::default();
    for span in &rows(alloc, text)? {
        let less = replaced(alloc, text, with_comma(text, *span), "")?;
        tried(alloc, asked, asked.octets(), less.as_bytes(), &mut tally)?;
    }
    Ok(tally)
}

/// Repeats each row in turn.
fn more_rows(alloc: Global, asked: &Asked, text: &str) -> Result<Tally, AllocError> {
    let mut tally = Tally::default();
    for span in &rows(alloc, text)? {
        let row = part(text, *span);
        let twice = format!(in alloc; "{row},{row}")?;
        let more = replaced(alloc, text, *span, twice.as_str())?;
        tried(alloc, asked, asked.octets(), more.as_bytes(), &mut tally)?;
    }
    Ok(tally)
}

/// The span of the name of a row's kind.
fn kind_span(text: &str, row: Span) -> Span {
    let start = row.start.saturating_add(2);
    let rest = text.get(start..row.end).unwrap_or("");
    let length = rest.find('"').unwrap_or(0);
    Span {
        start,
        end: start.saturating_add(length),
    }
}

/// Changes the kind of one row to each other kind.
fn as_other_kinds(
    alloc: Global,
    asked: &Asked,
    text: &str,
    row: Span,
    tally: &mut Tally,
) -> Result<(), AllocError> {
    let span = kind_span(text, row);
    for kind in &KINDS {
        if *kind != part(text, span) {
            let other = replaced(alloc, text, span, kind)?;
            tried(alloc, asked, asked.octets(), other.as_bytes(), tally)?;
        }
    }
    Ok(())
}

/// Changes the kind of each row to each other kind.
fn other_kinds(alloc: Global, asked: &Asked, text: &str) -> Result<Tally, AllocError> {
    let mut tally = Tally::default();
    for row in &rows(alloc, text)? {
        as_other_kinds(alloc, asked, text, *row, &mut tally)?;
    }
    Ok(tally)
}

/// The octets with one bit changed.
pub fn with_bit(
    alloc: Global,
    octets: &[u8],
    place: usize,
    bit: u8,
) -> Result<Vec<u8>, AllocError> {
    let mut out = Vec::new(alloc);
    let mut at: usize = 0;
    for octet in octets {
        out.push(if at == place { *octet ^ bit } else { *octet })?;
        at = at.saturating_add(1);
    }
    Ok(out)
}

/// Changes each bit of one octet in turn.
fn other_bits_of(
    alloc: Global,
    asked: &Asked,
    text: &str,
    place: usize,
    tally: &mut Tally,
) -> Result<(), AllocError> {
    for bit in &[1u8, 2, 4, 8, 16, 32, 64, 128] {
        let other = with_bit(alloc, asked.octets(), place, *bit)?;
        tried(alloc, asked, other.as_slice(), text.as_bytes(), tally)?;
    }
    Ok(())
}

/// Changes each bit of the octets in turn.
fn other_bits(alloc: Global, asked: &Asked, text: &str) -> Result<Tally, AllocError> {
    let mut tally = Tally::default();
    for place in 0..asked.octets().len() {
        other_bits_of(alloc, asked, text, place, &mut tally)?;
    }
    Ok(tally)
}

/// A line with the verdict on the account itself, and one for each kind of change.
fn lines(alloc: Global, asked: &Asked, text: &str) -> Result<String, AllocError> {
    let mut out = other_numbers(alloc, asked, text)?.line(alloc, "numbers")?;
    let less = fewer_rows(alloc, asked, text)?.line(alloc, "rows left out")?;
    let more = more_rows(alloc, asked, text)?.line(alloc, "rows doubled")?;
    let kinds = other_kinds(alloc, asked, text)?.line(alloc, "rows of another kind")?;
    let bits = other_bits(alloc, asked, text)?.line(alloc, "bits of the octets")?;
    for line in &[less, more, kinds, bits] {
        out.push_str(line.as_str())?;
    }
    Ok(out)
}

/// How many answers to changes of an account or of its octets are wrong: a yes, a refusal of another number than 100,
/// and, of octets with one bit changed, each that isn't a no.
pub fn wrong_answers(alloc: Global, asked: &Asked, text: &str) -> Result<usize, AllocError> {
    let bits = other_bits(alloc, asked, text)?;
    let mut wrong = bits.refused;
    for tally in &[
        bits,
        other_numbers(alloc, asked, text)?,
        fewer_rows(alloc, asked, text)?,
        more_rows(alloc, asked, text)?,
        other_kinds(alloc, asked, text)?,
    ] {
        wrong = wrong.saturating_add(tally.yes).saturating_add(tally.other);
    }
    Ok(wrong)
}

/// `sweep NAME WORD..`: the words are those of octcheck, for an account without white space whose verdict is yes. The
/// answer is that verdict, and for each kind of change how often the verdict was yes, how often it was no, and how
/// often there was none. The changes are: each number one up or down, each row left out, doubled or of another kind,
/// and each bit of the octets.
pub fn sweep(alloc: Global, row: &Row) -> Result<String, Refusal> {
    let asked = asked_in(alloc, row, "octcheck")?;
    let text = str::from_utf8(asked.account()).unwrap_or("").trim();
    let (ty, value) = (asked.job.ty.as_str(), value_of(&asked.job));
    let (texts, octets) = (asked.texts(), asked.octets());
    match judge(alloc, texts, ty, value, octets, text.as_bytes()) {
        Ok(verdict) => {
            let mut out = String::from_str(alloc, answer(verdict))?;
            out.push_str(lines(alloc, &asked, text)?.as_str())?;
            Ok(out)
        }
        Err(fault) => Err(refuse(alloc, &fault)),
    }
}
