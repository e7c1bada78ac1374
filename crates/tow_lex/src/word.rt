ghost use Rattle.std.specs.Prelude.{◌≡◌, ◌+◌, ◌<◌, ◌≤◌, true, false, length, slice_index, slice_range, drop, IfOk, IfErr, IfSome, IfNone};
ghost use Rattle.tow_language.specs.Tokens.{next_is, begins_piece, opens_brace, are_pieces, no_piece, is_open, IsOpenBrace};
ghost use Rattle.tow_lex.specs.Scan.{Leads};

/// Whether the byte stands at the place.
pub fn stands_at(text: &[u8], at: usize, byte: u8) -> bool
    ensures { result ≡ next_is byte (drop at text.now) }
{
    at < text.len() && text[at] == byte
}

/// Whether a piece of a word begins at the place.
pub fn piece_at(text: &[u8], at: usize) -> bool
    requires { at < length text.now }
    ensures { result ≡ begins_piece (slice_index text.now at) (drop (at + 1) text.now) }
{
    match text[at] {
        b'(' | b')' | b'[' | b']' | b'{' | b'}' | b',' | b'=' | b';' | b'\'' | b'"' => false,
        b'-' => !stands_at(text, at + 1, b'>'),
        byte => b'!' <= byte && byte <= b'~',
    }
}

/// Whether `%{` or `${` begins at the place.
fn opens_at(text: &[u8], at: usize) -> bool
    requires { at < length text.now }
    ensures { result ≡ opens_brace (slice_index text.now at) (drop (at + 1) text.now) }
{
    (text[at] == b'%' || text[at] == b'$') && stands_at(text, at + 1, b'{')
}

/// The place behind the first `}`, where no line ends before it.
fn brace_end(text: &[u8], from: usize) -> Option<usize>
    requires { from ≤ length text.now }
    ensures forward { IfSome result (λ to. from < to) }
    ensures within { IfSome result (λ to. to ≤ length text.now) }
    ensures closed { IfSome result (λ to. Leads text.now true from false to) }
    ensures open { IfNone result (is_open (drop from text.now) ≡ true) }
{
    for at in from..text.len() {
        if text[at] == b'}' {
            return Some(at + 1);
        }
        if text[at] == b'\n' {
            return None;
        }
    }
    None
}

/// The end of the longest run of pieces from `from` on, or the place of the first `%{` or `${` that stays open.
pub fn word_end(text: &[u8], from: usize) -> Result<usize, usize>
    requires { from ≤ length text.now }
    ensures forward { IfOk result (λ to. from ≤ to) }
    ensures within { IfOk result (λ to. to ≤ length text.now) }
    ensures pieces { IfOk result (λ to. are_pieces false (slice_range text.now from to)
        (drop to text.now)
        ≡ true) }
    ensures longest { IfOk result (λ to. no_piece (drop to text.now) ≡ true) }
    ensures place { IfErr result (λ at. from ≤ at) }
    ensures before { IfErr result (λ at. are_pieces false (slice_range text.now from at)
        (drop at text.now)
        ≡ true) }
    ensures open { IfErr result (λ at. IsOpenBrace (drop at text.now)) }
{
    let mut at = from;
    while at < text.len() && piece_at(text, at) {
        if opens_at(text, at) {
            match brace_end(text, at + 1) {
                Some(to) => at = to,
                None => return Err(at),
            }
        } else {
            at += 1;
        }
    }
    Ok(at)
}
