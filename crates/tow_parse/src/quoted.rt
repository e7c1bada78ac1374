ghost use Rattle.std.specs.Prelude.{◌≡◌, ◌+◌, ◌<◌, ◌≤◌, ◌==◌, ◌&&◌, length, IfOk, IfSome, IfNone, List, ℕ, slice_index, slice_range};
ghost use Rattle.tow_language.specs.Symbols.{symbol_of, inner, quoted, unescaped};
ghost use Rattle.tow_language.specs.Tokens.{next_is};

use std::alloc::{AllocError, Global};
use tow_fit::WrittenText;
use tow_language::{Token, TokenKind};
use tow_model::Bytes;

/// The token as it is written, if it is a Quoted. Takes memory for the bytes that it stands for.
pub fn quoted_at(
    alloc: Global,
    text: &[u8],
    token: Token,
) -> Result<Option<WrittenText>, AllocError>
    requires order { token.from ≤ token.to }
    requires within { token.to ≤ length text.now }
    ensures sign { IfOk result (λ o. IfSome o (λ w. (symbol_of text.now token).sign
        ≡ quoted w.bytes)) }
    ensures place { IfOk result (λ o. IfSome o (λ w. (symbol_of text.now token).place ≡ w.place)) }
    ensures none { IfOk result (λ o. IfNone o ((bytes : List ℕ)
        → (symbol_of text.now token).sign ≡ quoted bytes → ⊥)) }
{
    match token.kind {
        TokenKind::Quoted => {
            let bytes = meant(alloc, &text[token.from..token.to])?;
            Ok(Some(WrittenText {
                bytes: Bytes::from_vec(bytes),
                place: token.from,
            }))
        }
        _ => Ok(None),
    }
}

/// The bytes for which a Quoted stands: those between its quotes, without each backslash before a quote. Takes memory.
fn meant(alloc: Global, spelled: &[u8]) -> Result<Vec<u8>, AllocError>
    ensures { IfOk result (λ bytes. bytes.items
        ≡ unescaped (slice_index spelled.now 0) (inner spelled.now)) }
{
    let mut bytes = Vec::new(alloc);
    if spelled.len() < 2 {
        return Ok(bytes);
    }
    let quote = spelled[0];
    let end = spelled.len() - 1;
    for at in 1..end {
        if !escapes(spelled, at, end, quote) {
            bytes.push(spelled[at])?;
        }
    }
    Ok(bytes)
}

/// Whether a backslash stands at the place, and the quote behind it.
fn escapes(spelled: &[u8], at: usize, end: usize, quote: u8) -> bool
    requires before { at < end }
    requires within { end ≤ length spelled.now }
    ensures { result
        ≡ slice_index spelled.now at == 92 && next_is quote (slice_range spelled.now (at + 1) end) }
{
    if spelled[at] != b'\\' {
        return false;
    }
    at + 1 < end && spelled[at + 1] == quote
}
