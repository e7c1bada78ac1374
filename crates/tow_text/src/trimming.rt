//! Optional white space around a text: spaces and tabs (RFC 9110, section 5.6.3).

ghost use Rattle.std.specs.Prelude.{◌≡◌, ◌==◌, ◌||◌};
ghost use Rattle.tow_model.specs.Texts.{drop_blanks, skip_blanks, trimmed};

/// The text without the spaces and tabs around it. Takes no memory.
pub fn trimmed(text: &[u8]) -> &[u8]
    ensures { result.now ≡ trimmed text.now }
{
    without_blanks_behind(without_blanks_before(text))
}

fn is_blank(byte: u8) -> bool
    ensures { result ≡ (byte == 32 || byte == 9) }
{
    byte == b' ' || byte == b'\t'
}

fn without_blanks_before(text: &[u8]) -> &[u8]
    ensures { result.now ≡ skip_blanks text.now }
{
    for (start, byte) in text.iter().enumerate() {
        if !is_blank(*byte) {
            return &text[start..];
        }
    }
    b""
}

fn without_blanks_behind(text: &[u8]) -> &[u8]
    ensures { result.now ≡ drop_blanks text.now }
{
    let mut end = text.len();
    while end > 0 {
        if !is_blank(text[end - 1]) {
            return &text[..end];
        }
        end -= 1;
    }
    b""
}
