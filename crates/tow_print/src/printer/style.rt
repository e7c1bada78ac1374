ghost use Rattle.std.specs.Prelude.{◌≡◌, ◌∷◌, ◌++◌, [], OnOk};
ghost use Rattle.tow_print.specs.Words.{style_for, bytes_in, quote_in};

use std::alloc::AllocError;

/// How a text stands in the printed form.
#[derive(Clone, Copy, Debug, PartialEq, Eq)]
pub enum Style {
    /// As one Word.
    Bare,
    /// Between two `'`, with each `'` escaped.
    Quoted,
}

/// The style of a text that is one Word or not.
pub fn style_for(is_word: bool) -> Style
    ensures { result ≡ style_for is_word }
{
    if is_word { Style::Bare } else { Style::Quoted }
}

/// Appends the quote at an end of the text, where there is one.
pub fn put_quote(text: &mut Vec<u8>, style: Style) -> Result<(), AllocError>
    ensures { OnOk result (text.new.items ≡ text.old.items ++ quote_in style) }
{
    match style {
        Style::Bare => {}
        Style::Quoted => text.push(b'\'')?,
    }
    Ok(())
}

/// Appends a byte of the text.
pub fn put_byte(text: &mut Vec<u8>, style: Style, byte: u8) -> Result<(), AllocError>
    ensures { OnOk result (text.new.items ≡ text.old.items ++ bytes_in style (byte ∷ [])) }
{
    if style == Style::Quoted && byte == b'\'' {
        text.push(b'\\')?;
    }
    text.push(byte)?;
    Ok(())
}

/// Appends bytes of the text.
pub fn put_bytes(text: &mut Vec<u8>, style: Style, bytes: &[u8]) -> Result<(), AllocError>
    ensures { OnOk result (text.new.items ≡ text.old.items ++ bytes_in style bytes.now) }
{
    match style {
        Style::Bare => text.extend_from_slice(bytes)?,
        Style::Quoted => {
            for byte in bytes {
                put_byte(text, style, *byte)?;
            }
        }
    }
    Ok(())
}
