ghost use Rattle.std.specs.Prelude.{◌≡◌, ℕ, List, ◌∷◌, ◌++◌, OnOk, map, flat_map};
ghost use Rattle.std.specs.List.{join_with_byte};
ghost use Rattle.tow_language.specs.Printed.{printed_match, spelled_segment};
ghost use Rattle.tow_print.specs.Words.{ahead, bytes_in};

use super::spelling::Spelling;
use super::style::{Style, put_byte, put_bytes, put_quote, style_for};
use std::alloc::AllocError;
use tow_model::Segment;

/// Appends a path with names in braces.
pub fn put_match(text: &mut Vec<u8>, parts: &[Segment]) -> Result<(), AllocError>
    ensures { OnOk result (text.new.items ≡ text.old.items ++ printed_match parts.now) }
{
    let style = style_for(spelling_of(parts).is_whole());
    put_quote(text, style)?;
    put_segments(text, style, parts)?;
    put_quote(text, style)?;
    Ok(())
}

/// Appends the segments with a `/` between them.
fn put_segments(text: &mut Vec<u8>, style: Style, parts: &[Segment]) -> Result<(), AllocError>
    ensures { OnOk result (text.new.items
        ≡ text.old.items ++ bytes_in style (join_with_byte 47 (map spelled_segment parts.now))) }
{
    let [first, rest @ ..] = parts else {
        return Ok(());
    };
    put_segment(text, style, first)?;
    put_more(text, style, rest)?;
    Ok(())
}

/// What the segments with a `/` between them are.
fn spelling_of(parts: &[Segment]) -> Spelling
    ensures { (bytes : List ℕ)
        → ahead result bytes
        ≡ ahead Spelling.Empty (join_with_byte 47 (map spelled_segment parts.now) ++ bytes) }
{
    let [first, rest @ ..] = parts else {
        return Spelling::Empty;
    };
    let mut seen = with_segment(Spelling::Empty, first);
    for part in rest {
        seen = with_segment(seen.with_byte(b'/'), part);
    }
    seen
}

/// What was seen with one more segment.
fn with_segment(seen: Spelling, part: &Segment) -> Spelling
    ensures { (bytes : List ℕ)
        → ahead result bytes ≡ ahead seen (spelled_segment part.now ++ bytes) }
{
    match part {
        Segment::Fixed(bytes) => seen.with_bytes(bytes.as_slice()),
        Segment::Bind(name) => seen
            .with_bytes(b"{")
            .with_bytes(name.as_slice())
            .with_bytes(b"}"),
    }
}

/// Appends the segments behind the first.
fn put_more(text: &mut Vec<u8>, style: Style, parts: &[Segment]) -> Result<(), AllocError>
    ensures { OnOk result (text.new.items
        ≡ text.old.items ++ bytes_in style (flat_map (λ p. 47 ∷ spelled_segment p) parts.now)) }
{
    for part in parts {
        put_byte(text, style, b'/')?;
        put_segment(text, style, part)?;
    }
    Ok(())
}

fn put_segment(text: &mut Vec<u8>, style: Style, part: &Segment) -> Result<(), AllocError>
    ensures { OnOk result (text.new.items
        ≡ text.old.items ++ bytes_in style (spelled_segment part.now)) }
{
    match part {
        Segment::Fixed(bytes) => put_bytes(text, style, bytes.as_slice())?,
        Segment::Bind(name) => {
            put_bytes(text, style, b"{")?;
            put_bytes(text, style, name.as_slice())?;
            put_bytes(text, style, b"}")?;
        }
    }
    Ok(())
}
