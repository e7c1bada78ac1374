//! Texts in HTML.

ghost use Rattle.std.specs.Prelude.{◌≡◌, ◌++◌, OnOk};
ghost use Rattle.tow_semantics.specs.Pages.{html, html_byte};

use std::alloc::AllocError;

/// Writes the text with `&`, `<`, `>` and `"` as HTML shows them. Takes memory for what is added.
pub(crate) fn append_html(out: &mut Vec<u8>, text: &[u8]) -> Result<(), AllocError>
    ensures { OnOk result (out.new.items ≡ out.old.items ++ html text.now) }
{
    for byte in text {
        append_byte(out, *byte)?;
    }
    Ok(())
}

/// Writes one byte as HTML shows it.
fn append_byte(out: &mut Vec<u8>, byte: u8) -> Result<(), AllocError>
    ensures { OnOk result (out.new.items ≡ out.old.items ++ html_byte byte) }
{
    match byte {
        b'&' => out.extend_from_slice(b"&amp;"),
        b'<' => out.extend_from_slice(b"&lt;"),
        b'>' => out.extend_from_slice(b"&gt;"),
        b'"' => out.extend_from_slice(b"&quot;"),
        _ => out.extend_from_slice(&[byte]),
    }
}
