//! Locations as they are sent (RFC 9110, section 10.2.2).

ghost use Rattle.std.specs.Prelude.{◌≡◌, IfOk, true};
ghost use Rattle.std.specs.List.{list_all};
ghost use Rattle.tow_model.specs.Texts.{escaped, is_visible};

use percent_encoding::{AsciiSet, percent_encode};
use std::alloc::{AllocError, Global};
use tow_model::Bytes;

/// The ASCII bytes that a location shows percent-encoded: all but 0x21 to 0x7E.
const HIDDEN: AsciiSet = AsciiSet {
    mask: 0x1_FFFF_FFFF | 1 << 0x7F,
};

/// The text with each byte but 0x21 to 0x7E percent-encoded, in upper case; a `%` stays. Takes memory only if there is such a
/// byte.
pub(crate) fn location_of(alloc: Global, text: Bytes) -> Result<Bytes, AllocError>
    ensures { IfOk result (λ b. b ≡ escaped is_visible text) }
{
    if is_all_visible(text.as_slice()) {
        return Ok(text);
    }
    let mut shown = String::with_capacity(alloc, text.len())?;
    percent_encode(text.as_slice(), HIDDEN).append_to(&mut shown)?;
    Ok(Bytes::from_vec(shown.into_bytes()))
}

/// Whether each byte is one of 0x21 to 0x7E.
fn is_all_visible(text: &[u8]) -> bool
    ensures { result ≡ list_all is_visible text.now }
{
    text.iter().all(|byte| byte.is_ascii_graphic())
}
