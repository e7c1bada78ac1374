ghost use Rattle.std.specs.Prelude.{◌≡◌, ◌<◌, ◌≤◌, true, length, slice_index, slice_range, drop, IfSome, OnSome, IfNone};
ghost use Rattle.tow_language.specs.Tokens.{is_quote, IsQuoted, IsOpenQuote};

/// The end of the quoted text that begins at `from`, behind its closing quote.
pub fn quote_end(text: &[u8], from: usize) -> Option<usize>
    requires within { from < length text.now }
    requires quote { is_quote (slice_index text.now from) ≡ true }
    ensures forward { IfSome result (λ to. from < to) }
    ensures within { IfSome result (λ to. to ≤ length text.now) }
    ensures closed { IfSome result (λ to. IsQuoted (slice_range text.now from to)) }
    ensures open { IfNone result (IsOpenQuote (drop from text.now)) }
{
    let quote = text[from];
    let mut before = quote;
    for at in from + 1..text.len() {
        let byte = text[at];
        if byte == quote && before != b'\\' {
            return Some(at + 1);
        }
        before = byte;
    }
    None
}
