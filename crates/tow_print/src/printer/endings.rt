ghost use Rattle.std.specs.Prelude.{◌≡◌, ◌==◌};
ghost use Rattle.tow_language.specs.Templates.{spelled_piece, spelled_template};
ghost use Rattle.tow_language.specs.Tokens.{last_byte};
ghost use Rattle.tow_print.specs.Parts.{spelled_form};

use super::forms::{Form, form_of};
use tow_model::Piece;

/// The last of the bytes, or the one before them where there is none.
pub fn last_byte(before: u8, bytes: &[u8]) -> u8
    ensures { result ≡ last_byte before bytes.now }
{
    if bytes.is_empty() {
        return before;
    }
    bytes[bytes.len() - 1]
}

/// Whether the spelling of a template ends with a backslash.
pub fn ends_with_backslash(template: &[Piece]) -> bool
    ensures { result ≡ (last_byte 0 (spelled_template template.now) == 92) }
{
    let mut last = 0;
    for piece in template {
        last = last_of_piece(last, piece);
    }
    last == b'\\'
}

/// The last byte of a piece's spelling.
fn last_of_piece(before: u8, piece: &Piece) -> u8
    ensures { result ≡ last_byte before (spelled_piece piece.now) }
{
    match piece {
        Piece::Literal(bytes) => last_byte(before, bytes.as_slice()),
        Piece::Value(attribute) => last_of_form(before, form_of(attribute)),
    }
}

/// The last byte of an attribute's spelling.
fn last_of_form(before: u8, form: Form<'_>) -> u8
    ensures { result ≡ last_byte before (spelled_form form.entry) }
{
    last_byte(
        last_byte(last_byte(before, form.before), form.name),
        form.behind,
    )
}
