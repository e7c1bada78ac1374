//! Texts in addresses (RFC 3986, section 2).

ghost use Rattle.std.specs.Prelude.{◌≡◌, ◌++◌, OnOk};
ghost use Rattle.tow_model.specs.Texts as texts;
ghost use Rattle.tow_model.specs.Texts.{escaped};
ghost use Rattle.tow_page.specs.Escapes as model;

use percent_encoding::percent_encode_byte;
use std::alloc::AllocError;

/// A part of an address, which says what bytes stand in it as they are.
#[derive(Clone, Copy, Debug, PartialEq, Eq)]
pub(crate) enum Part {
    /// One segment: letters, digits and `-._~`.
    Name,
    /// Those and `/`.
    Path,
    /// All from 0x21 to 0x7E.
    Query,
}

impl Part {
    /// Whether the byte stands in the part as it is.
    fn keeps(self, byte: u8) -> bool
        ensures { result ≡ model.keeps self byte }
    {
        match self {
            Part::Name => is_unreserved(byte),
            Part::Path => is_unreserved(byte) || byte == b'/',
            Part::Query => byte.is_ascii_graphic(),
        }
    }
}

/// Whether the byte is unreserved (RFC 3986, section 2.3).
fn is_unreserved(byte: u8) -> bool
    ensures { result ≡ texts.is_unreserved byte }
{
    byte.is_ascii_alphanumeric() || byte == b'-' || byte == b'.' || byte == b'_' || byte == b'~'
}

/// Writes the text as the part has it, percent-encoded in upper case. Takes memory for what is
/// added.
pub(crate) fn append_escaped(out: &mut Vec<u8>, part: Part, text: &[u8]) -> Result<(), AllocError>
    ensures { OnOk result (out.new.items
        ≡ out.old.items ++ escaped (model.keeps part) text.now) }
{
    for byte in text {
        if part.keeps(*byte) {
            out.push(*byte)?;
        } else {
            out.extend_from_slice(percent_encode_byte(*byte).as_bytes())?;
        }
    }
    Ok(())
}
