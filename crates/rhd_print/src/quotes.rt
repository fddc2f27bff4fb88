//! Numbers, and texts between quotation marks.

ghost use Rattle.std.specs.Prelude.{◌≡◌, ◌++◌, ◌≤◌, length, IfOk, OnOk};
ghost use Rattle.std.specs.List.{flat_map, prefix_len};
ghost use Rattle.rhd_print.specs.Runs.{is_plain};
ghost use Rattle.std.specs.Fmt.{decimal, signed_decimal};
ghost use Rattle.rhd_print.specs.PrintedTexts.{escaped, quoted_by, quoted, quoted_char};

use itoa::Buffer;
use rhd_value::OutOfMemory;
use std::alloc::Global;

/// Puts a number at the end, in decimal.
#[tactic(auto, using(crate::proofs::PrintingDigits::one_digit))]
#[inline(always)]
pub fn push_number(number: u64, out: &mut Vec<u8>) -> Result<(), OutOfMemory>
    ensures { OnOk result (out.new.items ≡ out.old.items ++ decimal number) }
{
    if number < 10 {
        return Ok(out.push(b'0' + number as u8)?);
    }
    let mut buffer = Buffer::new();
    Ok(out.extend_from_slice(buffer.format(number).as_bytes())?)
}

/// Puts an integer at the end, in decimal, after a `-` if it is below zero.
#[inline(always)]
pub fn push_int(number: i64, out: &mut Vec<u8>) -> Result<(), OutOfMemory>
    ensures { OnOk result (out.new.items ≡ out.old.items ++ signed_decimal number) }
{
    let mut buffer = Buffer::new();
    Ok(out.extend_from_slice(buffer.format(number).as_bytes())?)
}

/// Puts a byte at the end as it stands between two of these quotation marks.
fn push_escaped(quote: u8, byte: u8, out: &mut Vec<u8>) -> Result<(), OutOfMemory>
    ensures { OnOk result (out.new.items ≡ out.old.items ++ escaped quote byte) }
{
    if byte == b'\\' {
        return Ok(out.extend_from_slice(b"\\\\")?);
    }
    if byte == quote {
        out.push(b'\\')?;
        return Ok(out.push(quote)?);
    }
    match byte {
        b'\n' => Ok(out.extend_from_slice(b"\\n")?),
        b'\t' => Ok(out.extend_from_slice(b"\\t")?),
        b'\r' => Ok(out.extend_from_slice(b"\\r")?),
        _ => Ok(out.push(byte)?),
    }
}

/// Whether a byte is no control character, and stands for itself between two of these quotation
/// marks.
fn is_plain(quote: u8, byte: u8) -> bool
    ensures { result ≡ is_plain quote byte }
{
    b' ' <= byte && byte != quote && byte != b'\\'
}

fn plain_len(quote: u8, text: &[u8]) -> usize
    ensures length { result ≡ prefix_len (is_plain quote) text.now }
    ensures within { result ≤ length text.now }
{
    text.iter().take_while(|b| is_plain(quote, **b)).count()
}

/// Puts the plain bytes at the front at the end of what is printed, and gives the others.
#[inline(always)]
fn push_plain<'a>(quote: u8, text: &'a [u8], out: &mut Vec<u8>) -> Result<&'a [u8], OutOfMemory>
    ensures same { IfOk result (λ rest. out.new.items ++ flat_map (escaped quote) rest.now ≡ out.old.items ++ flat_map (escaped quote) text.now) }
    ensures within { IfOk result (λ rest. length rest.now ≤ length text.now) }
{
    let (plain, rest) = text.split_at(plain_len(quote, text));
    out.extend_from_slice(plain)?;
    Ok(rest)
}

#[tactic(auto, unfolding(crate::specs::PrintedTexts::quoted_by))]
fn push_quoted_by(quote: u8, text: &[u8], out: &mut Vec<u8>) -> Result<(), OutOfMemory>
    ensures { OnOk result (out.new.items ≡ out.old.items ++ quoted_by quote text.now) }
{
    out.push(quote)?;
    let mut rest = push_plain(quote, text, out)?;
    while let [byte, after @ ..] = rest {
        push_escaped(quote, *byte, out)?;
        rest = push_plain(quote, after, out)?;
    }
    Ok(out.push(quote)?)
}

/// Puts a text at the end, between quotation marks.
pub fn push_quoted(text: &str, out: &mut Vec<u8>) -> Result<(), OutOfMemory>
    ensures { OnOk result (out.new.items ≡ out.old.items ++ quoted text.now) }
{
    push_quoted_by(b'"', text.as_bytes(), out)
}

/// Puts a character at the end in UTF-8, between single quotation marks.
pub fn push_char(alloc: Global, character: char, out: &mut Vec<u8>) -> Result<(), OutOfMemory>
    ensures { OnOk result (out.new.items ≡ out.old.items ++ quoted_char character) }
{
    let mut text = String::new(alloc);
    text.push(character)?;
    push_quoted_by(b'\'', text.as_str().as_bytes(), out)
}
