//! A name and a value with `=` between them.

ghost use Rattle.std.specs.Prelude.{◌≡◌, ◌==◌, IsTrue, [], length};
ghost use Rattle.std.specs.List.{position_or_len};
ghost use Rattle.std.specs.Option.{unwrap_or};
ghost use Rattle.std.specs.Str.{byte};
ghost use Rattle.tow_model.specs.Texts.{after, before};

/// The place of the first `=`, or the length where there is none.
fn sign_place(text: &[u8]) -> usize
    ensures { result ≡ position_or_len (λ b. b == byte "=") text.now }
{
    text.iter().position(|b| *b == b'=').unwrap_or(text.len())
}

/// What stands before the first `=`, or all.
pub(crate) fn name_of(text: &[u8]) -> &[u8]
    ensures { result.now ≡ before (byte "=") text.now }
{
    &text[..sign_place(text)]
}

/// What follows the first `=`, or nothing.
pub(crate) fn value_of(text: &[u8]) -> &[u8]
    ensures { result.now ≡ unwrap_or (after (byte "=") text.now) [] }
{
    let sign = sign_place(text);
    if sign < text.len() {
        &text[sign + 1..]
    } else {
        b""
    }
}
