ghost use Rattle.std.specs.Prelude.{◌≡◌, ℕ, List, ◌++◌, OnOk, map, flat_map, codes};
ghost use Rattle.tow_language.specs.Printed.{printed_text, printed_template, printed_array};
ghost use Rattle.tow_language.specs.Templates.{spelled_piece, spelled_template};
ghost use Rattle.tow_model.specs.declared.attribute.Piece.TheVariants as pieces;
ghost use Rattle.tow_print.specs.Parts.{spelled_parts};
ghost use Rattle.tow_print.specs.Words.{ahead, bytes_in};

use super::endings::ends_with_backslash;
use super::forms::{form_of, put_form, with_form};
use super::long_forms::{LongTemplate, long_template};
use super::spelling::Spelling;
use super::style::{Style, put_byte, put_quote, style_for};
use std::alloc::AllocError;
use tow_model::{Piece, Template};

/// Appends a template, as a Word where its spelling is one, else in quotes. Quotes cannot hold a spelling that ends with a
/// backslash: there the last attribute that has a long form is spelled by that.
pub fn put_template(text: &mut Vec<u8>, template: &[Piece]) -> Result<(), AllocError>
    ensures { OnOk result (text.new.items ≡ text.old.items ++ printed_template template.now) }
{
    let style = style_for(spelling_of(Spelling::Empty, template).is_whole());
    if style == Style::Quoted && ends_with_backslash(template) {
        if let Some(long) = long_template(template) {
            return put_long(text, long);
        }
    }
    put_quote(text, style)?;
    put_pieces(text, style, template)?;
    put_quote(text, style)?;
    Ok(())
}

/// Appends a template with a long form, as a Word where its spelling is one, else in quotes.
fn put_long(text: &mut Vec<u8>, template: LongTemplate<'_>) -> Result<(), AllocError>
    ensures { OnOk result (text.new.items
        ≡ text.old.items ++ printed_text (spelled_parts template.entry)) }
{
    let style = style_for(spelling_of_long(template).is_whole());
    put_quote(text, style)?;
    put_pieces(text, style, template.front)?;
    put_form(text, style, template.long)?;
    put_pieces(text, style, template.behind)?;
    put_quote(text, style)?;
    Ok(())
}

/// Appends an array of templates.
pub fn put_templates(text: &mut Vec<u8>, templates: &[Template]) -> Result<(), AllocError>
    ensures { OnOk result (text.new.items
        ≡ text.old.items ++ printed_array (map printed_template templates.now)) }
{
    text.extend_from_slice(b"{")?;
    let [first, rest @ ..] = templates else {
        text.extend_from_slice(b"}")?;
        return Ok(());
    };
    put_template(text, first.as_slice())?;
    put_more(text, rest)?;
    text.extend_from_slice(b"}")?;
    Ok(())
}

/// Appends the templates behind the first of an array.
fn put_more(text: &mut Vec<u8>, templates: &[Template]) -> Result<(), AllocError>
    ensures { OnOk result (text.new.items
        ≡ text.old.items ++ flat_map (λ t. codes ", " ++ printed_template t) templates.now) }
{
    for one in templates {
        text.extend_from_slice(b", ")?;
        put_template(text, one.as_slice())?;
    }
    Ok(())
}

/// What the spelling of a template with a long form is.
fn spelling_of_long(template: LongTemplate<'_>) -> Spelling
    ensures { (bytes : List ℕ)
        → ahead result bytes ≡ ahead Spelling.Empty (spelled_parts template.entry ++ bytes) }
{
    let seen = spelling_of(Spelling::Empty, template.front);
    spelling_of(with_form(seen, template.long), template.behind)
}

/// What was seen with the pieces of a template.
fn spelling_of(seen: Spelling, template: &[Piece]) -> Spelling
    ensures { (bytes : List ℕ)
        → ahead result bytes ≡ ahead seen (spelled_template template.now ++ bytes) }
{
    let mut seen = seen;
    for piece in template {
        seen = with_piece(seen, piece);
    }
    seen
}

/// What was seen with one more piece.
fn with_piece(seen: Spelling, piece: &Piece) -> Spelling
    ensures { (bytes : List ℕ)
        → ahead result bytes ≡ ahead seen (spelled_piece piece.now ++ bytes) }
{
    match piece {
        Piece::Literal(bytes) => with_literal(seen, bytes.as_slice()),
        Piece::Value(attribute) => with_form(seen, form_of(attribute)),
    }
}

/// What was seen with bytes that stand for themselves.
fn with_literal(seen: Spelling, literal: &[u8]) -> Spelling
    ensures { (bytes : List ℕ)
        → ahead result bytes ≡ ahead seen (spelled_piece (pieces.Literal literal.now) ++ bytes) }
{
    let mut seen = seen;
    for byte in literal {
        if *byte == b'%' {
            seen = seen.with_byte(b'%');
        }
        seen = seen.with_byte(*byte);
    }
    seen
}

fn put_pieces(text: &mut Vec<u8>, style: Style, template: &[Piece]) -> Result<(), AllocError>
    ensures { OnOk result (text.new.items
        ≡ text.old.items ++ bytes_in style (spelled_template template.now)) }
{
    for piece in template {
        put_piece(text, style, piece)?;
    }
    Ok(())
}

fn put_piece(text: &mut Vec<u8>, style: Style, piece: &Piece) -> Result<(), AllocError>
    ensures { OnOk result (text.new.items
        ≡ text.old.items ++ bytes_in style (spelled_piece piece.now)) }
{
    match piece {
        Piece::Literal(bytes) => put_literal(text, style, bytes.as_slice()),
        Piece::Value(attribute) => put_form(text, style, form_of(attribute)),
    }
}

/// Appends bytes that stand for themselves, each `%` as `%%`.
fn put_literal(text: &mut Vec<u8>, style: Style, literal: &[u8]) -> Result<(), AllocError>
    ensures { OnOk result (text.new.items
        ≡ text.old.items ++ bytes_in style (spelled_piece (pieces.Literal literal.now))) }
{
    for byte in literal {
        if *byte == b'%' {
            put_byte(text, style, b'%')?;
        }
        put_byte(text, style, *byte)?;
    }
    Ok(())
}
