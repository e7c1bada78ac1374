ghost use Rattle.std.specs.Prelude.{◌≡◌, ◌<◌, ◌≤◌, false, true, length, slice_index, slice_range};
ghost use Rattle.std.specs.List.{list_all};
ghost use Rattle.tow_language.specs.Tokens.{is_white};

/// Whether the byte is a space, a TAB or a CR.
fn is_white(byte: u8) -> bool
    ensures { result ≡ is_white byte }
{
    byte == b' ' || byte == b'\t' || byte == b'\r'
}

/// The end of the white space from `from` on.
pub fn gap_end(text: &[u8], from: usize) -> usize
    requires { from ≤ length text.now }
    ensures forward { from ≤ result }
    ensures within { result ≤ length text.now }
    ensures white { list_all is_white (slice_range text.now from result) ≡ true }
    ensures dark { result < length text.now → is_white (slice_index text.now result) ≡ false }
{
    let mut at = from;
    while at < text.len() && is_white(text[at]) {
        at += 1;
    }
    at
}
