//! What of a long line is shown.

ghost use Rattle.std.specs.Prelude.{◌≡◌, ◌≤◌, length};
ghost use Rattle.bstr.specs.Utf8 as utf8;
ghost use Rattle.tow_explain.specs.Lines as model;

/// The most bytes of a line that are shown before the column, and from it on. The rest of a
/// character is shown beside them.
pub const MOST_SHOWN: usize = 60;

/// The end of a text that is shown. Takes no memory.
pub fn near_front(text: &[u8]) -> &[u8]
    ensures { result.now ≡ model.near_front text.now }
{
    if text.len() <= MOST_SHOWN {
        return text;
    }
    let last = &text[text.len() - MOST_SHOWN..];
    &last[continued(last)..]
}

/// The front of a text that is shown. Takes no memory.
pub fn near_back(text: &[u8]) -> &[u8]
    ensures { result.now ≡ model.near_back text.now }
{
    if text.len() <= MOST_SHOWN {
        return text;
    }
    let (_near, far) = text.split_at(MOST_SHOWN);
    text.split_at(MOST_SHOWN + continued(far)).0
}

/// What stands in place of what is not shown. Takes no memory.
pub fn dots(text: &[u8]) -> &'static [u8]
    ensures { result.now ≡ model.dots text.now }
{
    if text.len() <= MOST_SHOWN {
        b""
    } else {
        b"..."
    }
}

/// How many of the first three bytes go on a character.
fn continued(text: &[u8]) -> usize
    ensures count { result ≡ model.continued text.now }
    ensures within { result ≤ length text.now }
{
    text.iter()
        .take(3)
        .take_while(|byte| goes_on(**byte))
        .count()
}

/// Whether the byte goes on a character of UTF-8.
fn goes_on(byte: u8) -> bool
    ensures { result ≡ utf8.continues byte }
{
    0x7f < byte && byte < 0xc0
}
