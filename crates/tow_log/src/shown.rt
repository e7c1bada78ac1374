//! The bytes of an attribute as a line shows them.

ghost use Rattle.std.specs.Prelude.{◌≡◌, ◌≤◌, ◌<◌, ◌++◌, ◌||◌, ◌==◌, OnOk, false};
ghost use Rattle.std.specs.Prelude.{drop, flat_map, length, nat_lt, take};
ghost use Rattle.std.specs.Fmt.{digit_glyph};
ghost use Rattle.std.specs.List.{list_any};
ghost use Rattle.tow_semantics.specs.Values.{shown, shown_byte};

use std::alloc::{AllocError, Global};

/// Makes of the value that stands from the place on what a line shows of it: `-` if it is empty,
/// else its bytes, control bytes as `\x` and two digits. Takes memory for what is added, and for a
/// copy of a value with control bytes.
pub(crate) fn show_from(alloc: Global, out: &mut Vec<u8>, start: usize) -> Result<(), AllocError>
    requires within { start ≤ length out.old.items }
    ensures { OnOk result (out.new.items
        ≡ take start out.old.items ++ shown (drop start out.old.items)) }
{
    if out.len() == start {
        return out.extend_from_slice(b"-");
    }
    if !has_controls(&out[start..]) {
        return Ok(());
    }
    let value = Vec::from_slice(alloc, &out[start..])?;
    out.truncate(start);
    append_shown(out, &value)
}

/// Whether there is a control byte.
fn has_controls(bytes: &[u8]) -> bool
    ensures { result ≡ list_any (λ b. nat_lt b 0x20 || b == 0x7F) bytes.now }
{
    bytes.iter().any(|byte| is_control(*byte))
}

/// Whether the byte is a control byte of ASCII (RFC 20, section 5.2).
fn is_control(byte: u8) -> bool
    ensures { result ≡ (nat_lt byte 0x20 || byte == 0x7F) }
{
    byte.is_ascii_control()
}

/// Writes the bytes as a line shows them.
fn append_shown(out: &mut Vec<u8>, bytes: &[u8]) -> Result<(), AllocError>
    ensures { OnOk result (out.new.items ≡ out.old.items ++ flat_map shown_byte bytes.now) }
{
    for byte in bytes {
        append_byte(out, *byte)?;
    }
    Ok(())
}

/// Writes one byte as a line shows it.
fn append_byte(out: &mut Vec<u8>, byte: u8) -> Result<(), AllocError>
    ensures { OnOk result (out.new.items ≡ out.old.items ++ shown_byte byte) }
{
    if is_control(byte) {
        out.extend_from_slice(&[b'\\', b'x', hex_digit(byte / 16), hex_digit(byte % 16)])
    } else {
        out.extend_from_slice(&[byte])
    }
}

/// The hexadecimal digit of this value, in lower case.
fn hex_digit(digit: u8) -> u8
    requires { digit < 16 }
    ensures { result ≡ digit_glyph false digit }
{
    if digit < 10 {
        b'0' + digit
    } else {
        b'a' - 10 + digit
    }
}
