ghost use Rattle.std.specs.Prelude.{◌≡◌, ◌<◌, ◌≤◌, length, IfOk, IfSome, IfNone, slice_index, slice_range, List, ℕ};
ghost use Rattle.tow_language.specs.Symbols.{symbol_of, unescaped, word, quoted};
ghost use Rattle.tow_parse.specs.declared.look.Look.TheVariants.{Name};
ghost use Rattle.tow_parse.specs.Looks.{Shows};

use std::alloc::{AllocError, Global};
use tow_fit::WrittenText;
use tow_language::{Token, TokenKind};
use tow_model::Bytes;

/// A Word as it is written. Takes memory for its bytes.
pub fn written_name(alloc: Global, text: &[u8], token: Token) -> Result<WrittenText, AllocError>
    requires order { token.from ≤ token.to }
    requires within { token.to ≤ length text.now }
    requires shows { Shows Name (symbol_of text.now token).sign }
    ensures sign { IfOk result (λ w. (symbol_of text.now token).sign ≡ word w.bytes) }
    ensures place { IfOk result (λ w. (symbol_of text.now token).place ≡ w.place) }
{
    let bytes = Bytes::from_slice(alloc, &text[token.from..token.to])?;
    Ok(WrittenText {
        bytes,
        place: token.from,
    })
}

/// The token as it is written, if it is a Word. Takes memory for its bytes.
pub fn word_at(alloc: Global, text: &[u8], token: Token) -> Result<Option<WrittenText>, AllocError>
    requires order { token.from ≤ token.to }
    requires within { token.to ≤ length text.now }
    ensures sign { IfOk result (λ o. IfSome o (λ w. (symbol_of text.now token).sign
        ≡ word w.bytes)) }
    ensures place { IfOk result (λ o. IfSome o (λ w. (symbol_of text.now token).place ≡ w.place)) }
    ensures none { IfOk result (λ o. IfNone o ((bytes : List ℕ)
        → (symbol_of text.now token).sign ≡ word bytes → ⊥)) }
{
    match token.kind {
        TokenKind::Word => {
            let bytes = Bytes::from_slice(alloc, &text[token.from..token.to])?;
            Ok(Some(WrittenText {
                bytes,
                place: token.from,
            }))
        }
        _ => Ok(None),
    }
}
