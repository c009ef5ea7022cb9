//! Values that hold no others, as text that is added to `out`. Each call fails only if there is not enough memory; then
//! the text in `out` is of no more use.

ghost use Rattle.asn_base.specs.Abstract.{bits_in, bits_of_octet};
ghost use Rattle.std.specs.Fmt.{signed_decimal};
ghost use Rattle.std.specs.Prelude.{◌≡◌, ◌≤◌, ◌<◌, ◌++◌, [], IfOk, codes, take};
ghost use Rattle.value_text.specs.Print.{Adds, bit_digit, bit_digits, bit_text, braced, comma_after, hex_digit};
ghost use Rattle.value_text.specs.Print.{hex_digits, hex_text, spaced, truth_text};

use std::alloc::AllocError;

/// Adds the text.
pub fn append(out: &mut String, text: &str) -> Result<(), AllocError>
    ensures { IfOk result (λ _. Adds out.old out.new text.now) }
{
    out.push_str(text)?;
    Ok(())
}

/// Adds a comma and a space, unless the member after them is the first one.
pub fn append_comma(out: &mut String, first: bool) -> Result<(), AllocError>
    ensures { IfOk result (λ _. Adds out.old out.new (comma_after first)) }
{
    append(out, if first { "" } else { ", " })?;
    Ok(())
}

/// Adds TRUE or FALSE.
pub fn append_truth(out: &mut String, truth: bool) -> Result<(), AllocError>
    ensures { IfOk result (λ _. Adds out.old out.new (truth_text truth)) }
{
    append(out, if truth { "TRUE" } else { "FALSE" })?;
    Ok(())
}

/// Adds a number in decimal.
pub fn append_number(out: &mut String, number: i128) -> Result<(), AllocError>
    ensures { IfOk result (λ _. Adds out.old out.new (signed_decimal number)) }
{
    let mut buffer = itoa::Buffer::new();
    append(out, buffer.format(number))?;
    Ok(())
}

/// The binary digit of a bit.
fn bit_character(bit: bool) -> char
    ensures value { result ≡ bit_digit bit }
    ensures ascii { result < 128 }
{
    if bit { '1' } else { '0' }
}

/// Adds a digit 0 or 1 for each bit.
fn append_bits(out: &mut String, bits: &[bool]) -> Result<(), AllocError>
    ensures { IfOk result (λ _. Adds out.old out.new (bit_digits bits.now)) }
{
    for i in 0..bits.len() {
        out.push(bit_character(bits[i]))?;
    }
    Ok(())
}

/// Adds the first `count` bits of an octet.
fn append_octet_bits(out: &mut String, octet: u8, count: usize) -> Result<(), AllocError>
    requires { count ≤ 8 }
    ensures { IfOk result (λ _. Adds out.old out.new (bit_digits (take count (bits_of_octet octet)))) }
{
    let bits = [
        octet / 128 == 1,
        octet / 64 % 2 == 1,
        octet / 32 % 2 == 1,
        octet / 16 % 2 == 1,
        octet / 8 % 2 == 1,
        octet / 4 % 2 == 1,
        octet / 2 % 2 == 1,
        octet % 2 == 1,
    ];
    append_bits(out, &bits[..count])?;
    Ok(())
}

/// Adds the bits of these octets without the last `unused` ones, in apostrophes.
pub fn append_bit_string(out: &mut String, octets: &[u8], unused: u8) -> Result<(), AllocError>
    requires few_unused { unused < 8 }
    ensures { IfOk result (λ _. Adds out.old out.new (bit_text (bits_in unused octets.now))) }
{
    append(out, "'")?;
    append_bits_of(out, octets, unused)?;
    append(out, "'B")?;
    Ok(())
}

/// Adds the bits of these octets without the last `unused` ones.
fn append_bits_of(out: &mut String, octets: &[u8], unused: u8) -> Result<(), AllocError>
    requires few_unused { unused < 8 }
    ensures { IfOk result (λ _. Adds out.old out.new (bit_digits (bits_in unused octets.now))) }
{
    for i in 0..octets.len() {
        let octet = octets[i];
        let count = if i + 1 == octets.len() {
            8 - unused as usize
        } else {
            8
        };
        append_octet_bits(out, octet, count)?;
    }
    Ok(())
}

/// The hexadecimal digit, as a capital from 10 on.
fn hex_character(digit: u8) -> char
    requires { digit < 16 }
    ensures value { result ≡ hex_digit digit }
    ensures ascii { result < 128 }
{
    if digit < 10 {
        (b'0' + digit) as char
    } else {
        (b'A' + (digit - 10)) as char
    }
}

/// Adds two hexadecimal digits for each octet.
pub fn append_hex_digits(out: &mut String, octets: &[u8]) -> Result<(), AllocError>
    ensures { IfOk result (λ _. Adds out.old out.new (hex_digits octets.now)) }
{
    for i in 0..octets.len() {
        out.push(hex_character(octets[i] / 16))?;
        out.push(hex_character(octets[i] % 16))?;
    }
    Ok(())
}

/// Adds octets as hexadecimal digits in apostrophes.
pub fn append_octets(out: &mut String, octets: &[u8]) -> Result<(), AllocError>
    ensures { IfOk result (λ _. Adds out.old out.new (hex_text octets.now)) }
{
    append(out, "'")?;
    append_hex_digits(out, octets)?;
    append(out, "'H")?;
    Ok(())
}

/// Adds numbers in decimal with a space between.
fn append_spaced(out: &mut String, numbers: &[u64]) -> Result<(), AllocError>
    ensures { IfOk result (λ _. Adds out.old out.new (spaced [] numbers.now)) }
{
    for i in 0..numbers.len() {
        append(out, if i == 0 { "" } else { " " })?;
        let mut buffer = itoa::Buffer::new();
        append(out, buffer.format(numbers[i]))?;
    }
    Ok(())
}

/// Adds the numbers of an object identifier in braces.
pub fn append_arcs(out: &mut String, arcs: &[u64]) -> Result<(), AllocError>
    ensures { IfOk result (λ _. Adds out.old out.new (braced (spaced [] arcs.now))) }
{
    append(out, "{")?;
    append_spaced(out, arcs)?;
    append(out, "}")?;
    Ok(())
}
