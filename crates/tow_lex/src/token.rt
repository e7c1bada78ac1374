ghost use Rattle.std.specs.Prelude.{◌≡◌, ◌+◌, ◌<◌, ◌==◌, ℕ, drop, List, [], ◌∷◌, false, true, length, codes, slice_index, IfOk, IfErr, IfSome, IfNone};
ghost use Rattle.std.specs.List.{list_any};
ghost use Rattle.tow_language.specs.Tokens.{is_white, is_quote, begins_piece, IsToken};
ghost use Rattle.tow_lex.specs.Scan.{IsNext, StopsHere};

use crate::fault::LexFault;
use crate::quote::quote_end;
use crate::word::{piece_at, word_end};
use tow_language::{Token, TokenKind};

/// The token that begins at a place where no white space stands.
pub fn next_token(text: &[u8], from: usize) -> Result<Token, LexFault>
    requires within { from < length text.now }
    requires dark { is_white (slice_index text.now from) ≡ false }
    ensures ok { IfOk result (λ token. IsNext text.now from token) }
    ensures err { IfErr result (λ fault. StopsHere text.now from fault) }
{
    let byte = text[from];
    if piece_at(text, from) {
        return word(text, from);
    }
    if is_quote(byte) {
        return quoted(text, from);
    }
    if byte == b'-' {
        return Ok(Token {
            kind: TokenKind::Arrow,
            from,
            to: from + 2,
        });
    }
    match mark(byte) {
        Some(kind) => Ok(Token {
            kind,
            from,
            to: from + 1,
        }),
        None => Err(LexFault::StrayByte(from)),
    }
}

/// The word that begins at the place.
fn word(text: &[u8], from: usize) -> Result<Token, LexFault>
    requires within { from < length text.now }
    requires begins { begins_piece (slice_index text.now from) (drop (from + 1) text.now) ≡ true }
    ensures ok { IfOk result (λ token. IsNext text.now from token) }
    ensures err { IfErr result (λ fault. StopsHere text.now from fault) }
{
    match word_end(text, from) {
        Ok(to) => Ok(Token {
            kind: TokenKind::Word,
            from,
            to,
        }),
        Err(place) => Err(LexFault::UnclosedBrace(place)),
    }
}

/// The quoted text that begins at the place.
fn quoted(text: &[u8], from: usize) -> Result<Token, LexFault>
    requires within { from < length text.now }
    requires quote { is_quote (slice_index text.now from) ≡ true }
    ensures ok { IfOk result (λ token. IsNext text.now from token) }
    ensures err { IfErr result (λ fault. StopsHere text.now from fault) }
{
    match quote_end(text, from) {
        Some(to) => Ok(Token {
            kind: TokenKind::Quoted,
            from,
            to,
        }),
        None => Err(LexFault::UnclosedQuote(from)),
    }
}

fn is_quote(byte: u8) -> bool
    ensures { result ≡ is_quote byte }
{
    byte == b'\'' || byte == b'"'
}

/// What the byte is where it is a token of its own.
fn mark(byte: u8) -> Option<TokenKind>
    ensures some { IfSome result (λ kind. (after : List ℕ) → IsToken kind (byte ∷ []) after) }
    ensures none { IfNone result (list_any (λ c. c == byte) (10 ∷ codes ";,=()[]{}") ≡ false) }
{
    match byte {
        b'\n' => Some(TokenKind::Newline),
        b';' => Some(TokenKind::Semi),
        b',' => Some(TokenKind::Comma),
        b'=' => Some(TokenKind::Equals),
        b'(' => Some(TokenKind::OpenRound),
        b')' => Some(TokenKind::CloseRound),
        b'[' => Some(TokenKind::OpenSquare),
        b']' => Some(TokenKind::CloseSquare),
        b'{' => Some(TokenKind::OpenBrace),
        b'}' => Some(TokenKind::CloseBrace),
        _ => None,
    }
}
