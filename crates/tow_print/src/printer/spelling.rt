ghost use Rattle.std.specs.Prelude.{◌≡◌, ℕ, List, [], ◌∷◌, ◌++◌, not, ◌&&◌, nat_le, ◌==◌, codes, false};
ghost use Rattle.std.specs.List.{list_any};
ghost use Rattle.tow_language.specs.Tokens.{are_pieces};
ghost use Rattle.tow_print.specs.Words.{ahead};

/// What was seen of bytes that may be one Word.
#[derive(Clone, Copy, Debug, PartialEq, Eq)]
pub enum Spelling {
    /// Nothing.
    Empty,
    /// Pieces of a word, whatever follows.
    Plain,
    /// Pieces, the last of them a `-`.
    Dash,
    /// Pieces, the last of them a `%` or `$`.
    Sign,
    /// Pieces, and an open `%{` or `${`.
    Inside,
    /// No pieces of a word.
    Broken,
}

impl Spelling {
    /// What was seen with one more byte.
    pub fn with_byte(self, byte: u8) -> Spelling
        ensures { (bytes : List ℕ) → ahead result bytes ≡ ahead self (byte ∷ bytes) }
    {
        match self {
            Spelling::Empty | Spelling::Plain => outside(byte),
            Spelling::Dash => behind_dash(byte),
            Spelling::Sign => behind_sign(byte),
            Spelling::Inside => inside(byte),
            Spelling::Broken => Spelling::Broken,
        }
    }

    /// What was seen with more bytes.
    pub fn with_bytes(self, bytes: &[u8]) -> Spelling
        ensures { (more : List ℕ) → ahead result more ≡ ahead self (bytes.now ++ more) }
    {
        let mut seen = self;
        for byte in bytes {
            seen = seen.with_byte(*byte);
        }
        seen
    }

    /// Whether what was seen is one Word.
    pub fn is_whole(self) -> bool
        ensures { result ≡ ahead self [] }
    {
        matches!(self, Spelling::Plain | Spelling::Dash | Spelling::Sign)
    }
}

/// Whether the byte may stand in a word outside braces.
fn is_plain(byte: u8) -> bool
    ensures { result
        ≡ ((nat_le 33 byte && nat_le byte 126)
        && not (list_any (λ c. c == byte) (codes "()[]{},=;'\""))) }
{
    match byte {
        b'(' | b')' | b'[' | b']' | b'{' | b'}' | b',' | b'=' | b';' | b'\'' | b'"' => false,
        byte => b'!' <= byte && byte <= b'~',
    }
}

/// One more byte where no brace is open.
fn outside(byte: u8) -> Spelling
    ensures { (bytes : List ℕ) → ahead result bytes ≡ are_pieces false (byte ∷ bytes) [] }
{
    if byte == b'-' {
        Spelling::Dash
    } else if byte == b'%' || byte == b'$' {
        Spelling::Sign
    } else if is_plain(byte) {
        Spelling::Plain
    } else {
        Spelling::Broken
    }
}

/// One more byte behind a `-`.
fn behind_dash(byte: u8) -> Spelling
    ensures { (bytes : List ℕ) → ahead result bytes ≡ ahead Spelling.Dash (byte ∷ bytes) }
{
    if byte == b'>' {
        return Spelling::Broken;
    }
    outside(byte)
}

/// One more byte behind a `%` or `$`.
fn behind_sign(byte: u8) -> Spelling
    ensures { (bytes : List ℕ) → ahead result bytes ≡ ahead Spelling.Sign (byte ∷ bytes) }
{
    if byte == b'{' {
        return Spelling::Inside;
    }
    outside(byte)
}

/// One more byte where a brace is open.
fn inside(byte: u8) -> Spelling
    ensures { (bytes : List ℕ) → ahead result bytes ≡ ahead Spelling.Inside (byte ∷ bytes) }
{
    match byte {
        b'\n' => Spelling::Broken,
        b'}' => Spelling::Plain,
        _ => Spelling::Inside,
    }
}
