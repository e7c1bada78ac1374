//! A text with its tokens.

ghost use Rattle.std.specs.Prelude.{◌≡◌, ◌&&◌};
ghost use Rattle.tow_explain.specs.Scripts as model;

use tow_language::{Token, TokenKind};

/// A text, and the tokens into which it is cut. Tokens are named by their index.
#[derive(Clone, Copy)]
pub struct Script<'a> {
    pub text: &'a [u8],
    pub tokens: &'a [Token],
}

impl<'a> Script<'a> {
    /// The first token that begins at the place or after it.
    pub fn token_from(&self, place: usize) -> usize
        ensures { result ≡ model.token_from place self.now.tokens.now }
    {
        self.tokens
            .iter()
            .take_while(|token| token.from < place)
            .count()
    }

    /// What the token is, if there is one.
    pub fn kind(&self, index: usize) -> Option<TokenKind>
        ensures { result ≡ model.kind_at self.now.tokens.now index }
    {
        match self.tokens.get(index) {
            Some(token) => Some(token.kind),
            None => None,
        }
    }

    /// The bytes of the token, or none.
    pub fn bytes(&self, index: usize) -> &'a [u8]
        ensures { result.now ≡ model.bytes_at self.now.text.now self.now.tokens.now index }
    {
        match self.tokens.get(index) {
            Some(token) => part(self.text, token.from, token.to),
            None => &[],
        }
    }

    /// The offset of the token, or the length of the text.
    pub fn place(&self, index: usize) -> usize
        ensures { result ≡ model.place_at self.now.text.now self.now.tokens.now index }
    {
        match self.tokens.get(index) {
            Some(token) => token.from,
            None => self.text.len(),
        }
    }

    /// Whether the token is this word.
    pub fn is_word(&self, index: usize, word: &[u8]) -> bool
        ensures { result ≡ model.is_word self.now.text.now self.now.tokens.now index word.now }
    {
        match self.kind(index) {
            Some(TokenKind::Word) => self.bytes(index) == word,
            _ => false,
        }
    }

    /// Whether the token joins predicates.
    pub fn is_joint(&self, index: usize) -> bool
        ensures { result ≡ model.is_joint self.now.text.now self.now.tokens.now index }
    {
        self.is_word(index, b"and") || self.is_word(index, b"or") || self.is_word(index, b"not")
    }

    /// Whether the token is a word that names no call.
    pub fn is_reserved(&self, index: usize) -> bool
        ensures { result ≡ model.is_reserved self.now.text.now self.now.tokens.now index }
    {
        self.is_joint(index)
            || self.is_word(index, b"else")
            || self.is_word(index, b"restart")
            || self.is_word(index, b"done")
    }

    /// The index behind this one, or the number of tokens.
    pub fn behind(&self, index: usize) -> usize
        ensures { result ≡ model.behind self.now.tokens.now index }
    {
        if index < self.tokens.len() {
            index + 1
        } else {
            self.tokens.len()
        }
    }

    /// Whether the token is a line end.
    pub fn is_line_end(&self, index: usize) -> bool
        ensures { result ≡ model.is_line_end self.now.tokens.now index }
    {
        matches!(self.kind(index), Some(TokenKind::Newline))
    }

    /// Whether the token is a line end, where these are passed over.
    fn is_passed(&self, index: usize, past_lines: bool) -> bool
        ensures { result ≡ (past_lines && model.is_line_end self.now.tokens.now index) }
    {
        past_lines && self.is_line_end(index)
    }

    /// The token before this one, past line ends or not.
    pub fn before(&self, index: usize, past_lines: bool) -> Option<usize>
        ensures { result ≡ model.before self.now.tokens.now past_lines index }
    {
        'tokens: for back in 0..index {
            let at = index - 1 - back;
            if !self.is_passed(at, past_lines) {
                return Some(at);
            }
        }
        None
    }

    /// The first token from this one on that is no line end.
    pub fn past_lines(&self, index: usize) -> usize
        ensures { result ≡ model.past_lines self.now.tokens.now index }
    {
        'tokens: for at in index..self.tokens.len() {
            if !self.is_line_end(at) {
                return at;
            }
        }
        self.tokens.len()
    }

    /// The token after the bracket that closes the one that opens here, or after this one if it
    /// opens none.
    pub fn end(&self, index: usize) -> usize {
        let mut depth: usize = 0;
        for at in index..self.tokens.len() {
            match self.kind(at) {
                Some(kind) if opens(kind) => depth = depth.saturating_add(1),
                Some(kind) if closes(kind) => depth = depth.saturating_sub(1),
                _ => {}
            }
            if depth == 0 {
                return at + 1;
            }
        }
        self.tokens.len()
    }
}

/// The bytes of a text between two places, or none.
pub fn part(text: &[u8], from: usize, to: usize) -> &[u8]
    ensures { result.now ≡ model.part text.now from to }
{
    if from <= to && to <= text.len() {
        &text[from..to]
    } else {
        &[]
    }
}

/// Whether a token of this kind opens a bracket.
pub fn opens(kind: TokenKind) -> bool
    ensures { result ≡ model.opens kind }
{
    matches!(
        kind,
        TokenKind::OpenRound | TokenKind::OpenSquare | TokenKind::OpenBrace
    )
}

/// Whether this opens the brackets of a call, or the parentheses of a predicate.
pub fn is_bracket(kind: Option<TokenKind>) -> bool
    ensures { result ≡ model.is_bracket kind }
{
    matches!(kind, Some(TokenKind::OpenRound | TokenKind::OpenSquare))
}

/// Whether a token of this kind closes a bracket.
pub fn closes(kind: TokenKind) -> bool
    ensures { result ≡ model.closes kind }
{
    matches!(
        kind,
        TokenKind::CloseRound | TokenKind::CloseSquare | TokenKind::CloseBrace
    )
}
