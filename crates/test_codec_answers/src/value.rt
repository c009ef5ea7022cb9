//! Values of rows.

use asn_base::value::{BitString, Value};
use bits::buffer::BitBuf;
use std::alloc::{AllocError, Global};

/// The bits for the digits 0 and 1.
fn bits_of(alloc: Global, digits: &str) -> Result<BitString, AllocError> {
    let mut bits = BitBuf::new(alloc);
    for digit in digits.as_bytes() {
        bits.push(*digit == b'1')?;
    }
    let rest = bits.len() % 8;
    bits.pad()?;
    let octets = bits.into_octets()?;
    let unused = if rest == 0 || octets.is_empty() {
        0
    } else {
        8 - rest as u8
    };
    Ok(BitString::of(octets, unused))
}

/// The text whose octets are these hexadecimal digits.
fn text_of(alloc: Global, digits: &str) -> Result<Option<Value>, AllocError> {
    let Ok(octets) = hex::decode(alloc, digits) else {
        return Ok(None);
    };
    match str::from_utf8(octets.as_slice()) {
        Ok(text) => Ok(Some(Value::Text(String::from_str(alloc, text)?))),
        Err(_) => Ok(None),
    }
}

/// The numbers of a text that has points between them.
fn numbers_of(alloc: Global, text: &str) -> Result<Option<Vec<u64>>, AllocError> {
    let mut numbers = Vec::new(alloc);
    if text.is_empty() {
        return Ok(Some(numbers));
    }
    for part in text.split('.') {
        match part.parse::<u64>() {
            Ok(number) => numbers.push(number)?,
            Err(_) => return Ok(None),
        }
    }
    Ok(Some(numbers))
}

/// This number of octets, each of which is 0.
fn zeros(alloc: Global, count: usize) -> Result<Value, AllocError> {
    let mut octets = Vec::with_capacity(alloc, count)?;
    octets.resize(count, 0)?;
    Ok(Value::Octets(octets))
}

/// The value without other values in it for a kind and the rest of a word.
fn leaf(alloc: Global, kind: &str, rest: &str) -> Result<Option<Value>, AllocError> {
    match kind {
        "true" => Ok(Some(Value::Bool(true))),
        "false" => Ok(Some(Value::Bool(false))),
        "null" => Ok(Some(Value::Null)),
        "int" => match rest.parse::<i128>() {
            Ok(number) => Ok(Some(Value::Int(number))),
            Err(_) => Ok(None),
        },
        "enum" => match rest.parse::<i128>() {
            Ok(number) => Ok(Some(Value::Enum(number))),
            Err(_) => Ok(None),
        },
        "bits" => Ok(Some(Value::Bits(bits_of(alloc, rest)?))),
        "octets" => match hex::decode(alloc, rest) {
            Ok(octets) => Ok(Some(Value::Octets(octets))),
            Err(_) => Ok(None),
        },
        "zeros" => Ok(Some(zeros(alloc, rest.parse::<usize>().unwrap_or(0))?)),
        "text" => text_of(alloc, rest),
        "oid" => match numbers_of(alloc, rest)? {
            Some(numbers) => Ok(Some(Value::Oid(numbers))),
            None => Ok(None),
        },
        "relative-oid" => match numbers_of(alloc, rest)? {
            Some(numbers) => Ok(Some(Value::RelativeOid(numbers))),
            None => Ok(None),
        },
        _ => Ok(None),
    }
}

/// The components that are the last values of a stack, this number of them, the last one first.
fn fields(
    alloc: Global,
    stack: &mut Vec<Option<Value>>,
    count: usize,
) -> Result<Option<Value>, AllocError> {
    let mut all = Vec::new(alloc);
    for _ in 0..count {
        match stack.pop() {
            Some(one) => all.push(one)?,
            None => return Ok(None),
        }
    }
    Ok(Some(Value::Fields(all)))
}

/// The list of the last values of a stack, this number of them, none of which is absent.
fn list(
    alloc: Global,
    stack: &mut Vec<Option<Value>>,
    count: usize,
) -> Result<Option<Value>, AllocError> {
    let mut all = Vec::new(alloc);
    for _ in 0..count {
        match stack.pop() {
            Some(Some(one)) => all.push(one)?,
            _ => return Ok(None),
        }
    }
    Ok(Some(Value::List(all)))
}

/// A list of this number of values, each equal to the one on top of the stack.
fn repeated(
    alloc: Global,
    stack: &mut Vec<Option<Value>>,
    count: usize,
) -> Result<Option<Value>, AllocError> {
    let Some(Some(one)) = stack.pop() else {
        return Ok(None);
    };
    let mut all = Vec::with_capacity(alloc, count)?;
    for _ in 0..count {
        all.push(one.copy(alloc)?)?;
    }
    Ok(Some(Value::List(all)))
}

/// The alternative with this number, whose value is on top of the stack.
fn alternative(
    alloc: Global,
    stack: &mut Vec<Option<Value>>,
    number: usize,
) -> Result<Option<Value>, AllocError> {
    match stack.pop() {
        Some(Some(one)) => Ok(Some(Value::Alt(number, Box::new(alloc, one)?))),
        _ => Ok(None),
    }
}

/// The value of a word. It may hold the values on top of the stack.
fn word_value(
    alloc: Global,
    stack: &mut Vec<Option<Value>>,
    word: &str,
) -> Result<Option<Value>, AllocError> {
    let (kind, rest) = word.split_once(':').unwrap_or((word, ""));
    let count = rest.parse::<usize>().unwrap_or(0);
    match kind {
        "fields" => fields(alloc, stack, count),
        "list" => list(alloc, stack, count),
        "repeat" => repeated(alloc, stack, count),
        "alt" => alternative(alloc, stack, count),
        _ => leaf(alloc, kind, rest),
    }
}

/// Puts the value of a word on the stack. The result is false if the word has no value.
fn put(alloc: Global, stack: &mut Vec<Option<Value>>, word: &str) -> Result<bool, AllocError> {
    if word == "absent" {
        stack.push(None)?;
        return Ok(true);
    }
    match word_value(alloc, stack, word)? {
        Some(value) => {
            stack.push(Some(value))?;
            Ok(true)
        }
        None => Ok(false),
    }
}

/// The value of a text. The word of each value comes before the words of its members, as in `fields:2 int:1 absent`.
///
/// `list:3`, `fields:3` and `alt:0` hold other values, and `repeat:3` holds another value three times. `bits:011`,
/// `octets:0A`, `zeros:300` (octets), `text:6162` (its octets), `oid:1.2.840`, `relative-oid:1`, `int:-5`, `enum:0`,
/// `true`, `false` and `null` hold none. The result is None if the text isn't that of a value.
pub fn value_of(alloc: Global, text: &str) -> Result<Option<Value>, AllocError> {
    let mut words = Vec::new(alloc);
    for word in text.split_ascii_whitespace() {
        words.push(word)?;
    }
    let mut stack = Vec::new(alloc);
    for i in 0..words.len() {
        if !put(alloc, &mut stack, words[words.len() - 1 - i])? {
            return Ok(None);
        }
    }
    let Some(value) = stack.pop() else {
        return Ok(None);
    };
    if stack.is_empty() {
        return Ok(value);
    }
    Ok(None)
}
