ghost use Rattle.std.specs.Prelude.{◌≡◌, ◌≢◌, ◌+◌, ◌<◌, ◌≤◌, true, length, slice_index, slice_range, drop, IfSome, IfNone, Err};
ghost use Rattle.tow_language.specs.Tokens.{next_is};
ghost use Rattle.tow_language.specs.Templates.{begins_value, piece_of, with_first};
ghost use Rattle.tow_attr.specs.Reading.{rest_from, plain_ahead};

/// Whether the byte stands at the place.
fn stands_at(text: &[u8], at: usize, byte: u8) -> bool
    ensures { result ≡ next_is byte (drop at text.now) }
{
    at < text.len() && text[at] == byte
}

/// Whether `%`, or `$` before `{`, stands at the place.
fn value_at(text: &[u8], at: usize) -> bool
    requires { at < length text.now }
    ensures { result ≡ begins_value (slice_index text.now at) (drop (at + 1) text.now) }
{
    text[at] == b'%' || (text[at] == b'$' && stands_at(text, at + 1, b'{'))
}

/// The end of the bytes from `from` on that stand for themselves.
pub fn plain_end(text: &[u8], from: usize) -> usize
    requires { from ≤ length text.now }
    ensures forward { from ≤ result }
    ensures within { result ≤ length text.now }
    ensures plain { rest_from text.now from
        ≡ plain_ahead (slice_range text.now from result) (rest_from text.now result) }
    ensures value { result < length text.now
        → begins_value (slice_index text.now result) (drop (result + 1) text.now) ≡ true }
{
    let mut at = from;
    while at < text.len() && !value_at(text, at) {
        at += 1;
    }
    at
}

/// The end of what begins with the `%` or `${` at the place, where it ends.
pub fn value_end(text: &[u8], from: usize) -> Option<usize>
    requires within { from < length text.now }
    requires value { begins_value (slice_index text.now from) (drop (from + 1) text.now) ≡ true }
    ensures forward { IfSome result (λ to. from + 1 < to) }
    ensures within { IfSome result (λ to. to ≤ length text.now) }
    ensures whole { IfSome result (λ to. rest_from text.now from
        ≡ with_first (piece_of (slice_range text.now from to)) (rest_from text.now to) from) }
    ensures letter { slice_index text.now (from + 1) ≢ 123 → IfSome result (λ to. to ≡ from + 2) }
    ensures open { IfNone result (rest_from text.now from ≡ Err from) }
{
    if from + 1 == text.len() {
        return None;
    }
    if text[from + 1] != b'{' {
        return Some(from + 2);
    }
    for at in from + 2..text.len() {
        if text[at] == b'}' {
            return Some(at + 1);
        }
    }
    None
}
