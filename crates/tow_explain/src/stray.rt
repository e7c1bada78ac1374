//! Why a byte begins no token.

ghost use Rattle.std.specs.Prelude.{◌≡◌, Some};
ghost use Rattle.tow_explain.specs.Causes.{kind_of};
ghost use Rattle.tow_explain.specs.Strays as model;
ghost use Rattle.tow_language.specs.declared.kind.Kind.TheVariants as kinds;

use crate::cause::Cause;
use bstr::decode_utf8;

/// Why what follows begins no token, at the beginning of the text or not; and how many bytes it is
/// about.
#[tactic(auto, unfolding(crate::specs::Strays::stray_cause))]
pub fn stray(rest: &[u8], is_first: bool) -> (Cause, usize)
    ensures cause { result.0 ≡ model.stray_cause is_first rest.now }
    ensures kind { kind_of result.0 ≡ kinds.StrayByte }
{
    match decode_utf8(rest) {
        (None, _size) => (Cause::NotUtf8, 1),
        (Some(character), size) => (character_cause(character, is_first), size),
    }
}

fn character_cause(character: char, is_first: bool) -> Cause
    ensures cause { result ≡ model.character_cause is_first (Some character) }
    ensures kind { kind_of result ≡ kinds.StrayByte }
{
    if is_first && character == '\u{FEFF}' {
        Cause::ByteOrderMark
    } else if character as u32 >= 128 {
        Cause::NotAscii
    } else {
        Cause::ControlByte
    }
}
