//! Texts that are cut at a byte, and texts among others.

ghost use Rattle.std.specs.Prelude.{◌≡◌, ◌==◌, length, not};
ghost use Rattle.std.specs.List.{take_while};
ghost use Rattle.std.specs.Option.{option_copied};
ghost use Rattle.tow_model.specs.Texts as model;

use tow_model::Bytes;

/// Whether the text is one of the texts, byte by byte. Takes no memory.
pub fn is_among(text: &[u8], texts: &[Bytes]) -> bool
    ensures { result ≡ model.is_among text.now texts.now }
{
    texts.iter().any(|other| other.as_slice() == text)
}

/// What stands before the first such byte, or the whole text if there is none. Takes no memory.
pub fn before(byte: u8, text: &[u8]) -> &[u8]
    ensures { result.now ≡ model.before byte text.now }
{
    text.split_at(len_before(byte, text)).0
}

/// What follows the first such byte. Takes no memory.
pub fn after(byte: u8, text: &[u8]) -> Option<&[u8]>
    ensures { option_copied result ≡ model.after byte text.now }
{
    let len = len_before(byte, text);
    if len == text.len() {
        return None;
    }
    Some(text.split_at(len + 1).1)
}

/// Both: what stands before the first such byte, and what follows it. Takes no memory.
pub fn cut(byte: u8, text: &[u8]) -> (&[u8], Option<&[u8]>)
    ensures front { result.0.now ≡ model.before byte text.now }
    ensures rest { option_copied result.1 ≡ model.after byte text.now }
{
    (before(byte, text), after(byte, text))
}

/// How many bytes stand before the first such byte, or in the text if there is none.
fn len_before(byte: u8, text: &[u8]) -> usize
    ensures { result ≡ length (take_while (λ b. not (b == byte)) text.now) }
{
    text.iter().take_while(|b| **b != byte).count()
}
