ghost use Rattle.std.specs.Prelude.{◌≡◌, ◌+◌, ◌<◌, ◌≤◌, ◌^◌, true, false, length};
ghost use Rattle.tow_language.specs.Symbols.{symbol_of, word};
ghost use Rattle.tow_parse.specs.declared.look.Look.TheVariants.{Newline, OpenSquare};
ghost use Rattle.tow_parse.specs.Looks.{Shows, waits_else, opens, joins, ends, opened, shuts};

use tow_language::{Token, TokenKind};

/// What a token is to the grammar.
#[derive(Clone, Copy)]
pub enum Look {
    And,
    Or,
    Not,
    Else,
    Restart,
    Done,
    /// A Word that is not reserved.
    Name,
    Quoted,
    Newline,
    Semi,
    Comma,
    Equals,
    OpenRound,
    CloseRound,
    OpenSquare,
    CloseSquare,
    OpenBrace,
    CloseBrace,
    Arrow,
    /// No token.
    End,
}

impl Look {
    /// Whether it is an `else` or a separator.
    pub fn waits_else(self) -> bool
        ensures { result ≡ waits_else self }
    {
        matches!(self, Look::Else | Look::Newline | Look::Semi)
    }

    /// Whether it goes on a call.
    pub fn opens(self) -> bool
        ensures { result ≡ opens self }
    {
        matches!(self, Look::OpenRound | Look::OpenSquare)
    }

    /// Whether it is an opening square bracket.
    pub fn is_square(self) -> bool
        ensures yes { result ≡ true → self ≡ OpenSquare }
        ensures no { result ≡ false → self ≡ OpenSquare → ⊥ }
    {
        matches!(self, Look::OpenSquare)
    }

    /// Whether it makes a call the first of a predicate.
    pub fn joins(self) -> bool
        ensures { result ≡ joins self }
    {
        matches!(self, Look::And | Look::Or | Look::Arrow)
    }

    /// Whether it closes the brackets of a call, square or round.
    pub fn shuts(self, square: bool) -> bool
        ensures { result ≡ shuts self square }
    {
        match self {
            Look::CloseSquare => square,
            Look::CloseRound => !square,
            _ => false,
        }
    }

    /// Whether it ends a predicate, in a parenthesis or not.
    pub fn ends(self, grouped: bool) -> bool
        ensures { result ≡ ends self grouped }
    {
        match self {
            Look::CloseRound => grouped,
            Look::Arrow => !grouped,
            _ => false,
        }
    }
}

impl Look {
    /// How many round and square brackets are open behind it, where `depth` are open before it.
    pub fn open_after(self, depth: usize) -> usize
        requires room { depth + 1 < 2 ^ 64 }
        ensures opened { result ≡ opened self depth }
        ensures most { result ≤ depth + 1 }
    {
        match self {
            Look::OpenRound | Look::OpenSquare => depth + 1,
            Look::CloseRound | Look::CloseSquare => depth.saturating_sub(1),
            _ => depth,
        }
    }

    /// Whether it is white space, where `depth` brackets are open.
    pub fn is_blank(self, depth: usize) -> bool
        ensures yes { result ≡ true → (self ≡ Newline) × (0 < depth) }
        ensures no { result ≡ false → self ≡ Newline → depth ≡ 0 }
    {
        match self {
            Look::Newline => depth > 0,
            _ => false,
        }
    }
}

/// What the token is to the grammar.
pub fn look_at(text: &[u8], token: Token) -> Look
    requires order { token.from ≤ token.to }
    requires within { token.to ≤ length text.now }
    ensures { Shows result (symbol_of text.now token).sign }
{
    match token.kind {
        TokenKind::Newline => Look::Newline,
        TokenKind::Semi => Look::Semi,
        TokenKind::Comma => Look::Comma,
        TokenKind::Equals => Look::Equals,
        TokenKind::OpenRound => Look::OpenRound,
        TokenKind::CloseRound => Look::CloseRound,
        TokenKind::OpenSquare => Look::OpenSquare,
        TokenKind::CloseSquare => Look::CloseSquare,
        TokenKind::OpenBrace => Look::OpenBrace,
        TokenKind::CloseBrace => Look::CloseBrace,
        TokenKind::Arrow => Look::Arrow,
        TokenKind::Quoted => Look::Quoted,
        TokenKind::Word => look_of_word(&text[token.from..token.to]),
    }
}

fn look_of_word(bytes: &[u8]) -> Look
    ensures { Shows result (word bytes.now) }
{
    if bytes == b"and".as_slice() {
        Look::And
    } else if bytes == b"or".as_slice() {
        Look::Or
    } else if bytes == b"not".as_slice() {
        Look::Not
    } else if bytes == b"else".as_slice() {
        Look::Else
    } else if bytes == b"restart".as_slice() {
        Look::Restart
    } else if bytes == b"done".as_slice() {
        Look::Done
    } else {
        Look::Name
    }
}
