ghost use Rattle.std.specs.Prelude.{◌≡◌, ◌++◌, ◌==◌, [], OnOk, map, flat_map, codes, decimal, if◌then◌else◌};
ghost use Rattle.tow_language.specs.Tokens.{last_byte};
ghost use Rattle.tow_language.specs.Printed.{printed_text, printed_prefix, printed_array, printed_truth};

use super::endings::last_byte;
use super::spelling::Spelling;
use super::style::{put_bytes, put_quote, style_for};
use itoa::Buffer;
use std::alloc::AllocError;
use tow_model::Bytes;

/// Appends a text, as a Word where its bytes are one, else in quotes.
pub fn put_text(text: &mut Vec<u8>, bytes: &[u8]) -> Result<(), AllocError>
    ensures { OnOk result (text.new.items ≡ text.old.items ++ printed_text bytes.now) }
{
    let style = style_for(Spelling::Empty.with_bytes(bytes).is_whole());
    put_quote(text, style)?;
    put_bytes(text, style, bytes)?;
    put_quote(text, style)?;
    Ok(())
}

/// Appends a prefix or location, with a `/` behind it where it is empty or ends with a backslash.
pub fn put_prefix(text: &mut Vec<u8>, bytes: &[u8]) -> Result<(), AllocError>
    ensures { OnOk result (text.new.items ≡ text.old.items ++ printed_prefix bytes.now) }
{
    let slash = slash_behind(bytes);
    let style = style_for(
        Spelling::Empty
            .with_bytes(bytes)
            .with_bytes(slash)
            .is_whole(),
    );
    put_quote(text, style)?;
    put_bytes(text, style, bytes)?;
    put_bytes(text, style, slash)?;
    put_quote(text, style)?;
    Ok(())
}

/// What is printed behind a prefix.
fn slash_behind(bytes: &[u8]) -> &'static [u8]
    ensures { result.now ≡ (if last_byte 92 bytes.now == 92 then codes "/" else []) }
{
    if ends_open(bytes) { b"/" } else { b"" }
}

/// Whether the bytes are none or end with a backslash.
fn ends_open(bytes: &[u8]) -> bool
    ensures { result ≡ (last_byte 92 bytes.now == 92) }
{
    last_byte(b'\\', bytes) == b'\\'
}

/// Appends an array of texts.
pub fn put_texts(text: &mut Vec<u8>, texts: &[Bytes]) -> Result<(), AllocError>
    ensures { OnOk result (text.new.items
        ≡ text.old.items ++ printed_array (map printed_text texts.now)) }
{
    text.extend_from_slice(b"{")?;
    let [first, rest @ ..] = texts else {
        text.extend_from_slice(b"}")?;
        return Ok(());
    };
    put_text(text, first.as_slice())?;
    put_more_texts(text, rest)?;
    text.extend_from_slice(b"}")?;
    Ok(())
}

/// Appends the texts behind the first of an array.
fn put_more_texts(text: &mut Vec<u8>, texts: &[Bytes]) -> Result<(), AllocError>
    ensures { OnOk result (text.new.items
        ≡ text.old.items ++ flat_map (λ t. codes ", " ++ printed_text t) texts.now) }
{
    for one in texts {
        text.extend_from_slice(b", ")?;
        put_text(text, one.as_slice())?;
    }
    Ok(())
}

/// Appends an array of prefixes.
pub fn put_prefixes(text: &mut Vec<u8>, prefixes: &[Bytes]) -> Result<(), AllocError>
    ensures { OnOk result (text.new.items
        ≡ text.old.items ++ printed_array (map printed_prefix prefixes.now)) }
{
    text.extend_from_slice(b"{")?;
    let [first, rest @ ..] = prefixes else {
        text.extend_from_slice(b"}")?;
        return Ok(());
    };
    put_prefix(text, first.as_slice())?;
    put_more_prefixes(text, rest)?;
    text.extend_from_slice(b"}")?;
    Ok(())
}

/// Appends the prefixes behind the first of an array.
fn put_more_prefixes(text: &mut Vec<u8>, prefixes: &[Bytes]) -> Result<(), AllocError>
    ensures { OnOk result (text.new.items
        ≡ text.old.items ++ flat_map (λ p. codes ", " ++ printed_prefix p) prefixes.now) }
{
    for one in prefixes {
        text.extend_from_slice(b", ")?;
        put_prefix(text, one.as_slice())?;
    }
    Ok(())
}

/// Appends `true` or `false`.
pub fn put_truth(text: &mut Vec<u8>, truth: bool) -> Result<(), AllocError>
    ensures { OnOk result (text.new.items ≡ text.old.items ++ printed_truth truth) }
{
    if truth {
        text.extend_from_slice(b"true")?;
    } else {
        text.extend_from_slice(b"false")?;
    }
    Ok(())
}

/// Appends a number in decimal.
pub fn put_number(text: &mut Vec<u8>, number: u32) -> Result<(), AllocError>
    ensures { OnOk result (text.new.items ≡ text.old.items ++ decimal number) }
{
    let mut digits = Buffer::new();
    text.extend_from_slice(digits.format(number).as_bytes())?;
    Ok(())
}
