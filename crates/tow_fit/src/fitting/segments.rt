//! Paths with names in braces.

ghost use Rattle.std.specs.Prelude.{◌≡◌, ◌==◌, ◌||◌, IfOk};
ghost use Rattle.std.specs.List.{list_all, list_any};
ghost use Rattle.std.specs.Option.{option_copied};
ghost use Rattle.tow_language.specs.Shapes as shapes;
ghost use Rattle.tow_fit.specs.Fitting.{bound_segment, fixed_segment, is_bound_in, segments_in};

use crate::fitting::bytes::is_name;
use crate::fitting::paths::rooted;
use std::alloc::{AllocError, Global};
use tow_model::{Bytes, List, Segment};

/// The segments of a path, no two of which bind one name. Takes memory for them.
pub(crate) fn segments_of(alloc: Global, text: Bytes) -> Result<Option<List<Segment>>, AllocError>
    ensures { IfOk result (λ parts. parts ≡ shapes.segments_of text) }
{
    let path = rooted(text)?;
    let Some(parts) = all_segments(alloc, path.as_slice())? else {
        return Ok(None);
    };
    if are_names_apart(parts.as_slice()) {
        Ok(Some(parts))
    } else {
        Ok(None)
    }
}

/// Each segment of a path, where each is one.
fn all_segments(alloc: Global, path: &[u8]) -> Result<Option<List<Segment>>, AllocError>
    ensures { IfOk result (λ parts. parts ≡ segments_in path.now) }
{
    let mut parts = List::new(alloc);
    for text in path.split(|byte| *byte == b'/') {
        match segment_of(alloc, text)? {
            Some(part) => parts.push(part)?,
            None => return Ok(None),
        }
    }
    Ok(Some(parts))
}

/// `{name}`, or a text without braces.
fn segment_of(alloc: Global, text: &[u8]) -> Result<Option<Segment>, AllocError>
    ensures { IfOk result (λ part. part ≡ shapes.segment_of text.now) }
{
    if text.is_empty() || text[0] != b'{' {
        return fixed_segment(alloc, text);
    }
    match before_brace(&text[1..]) {
        Some(name) => bound_segment(alloc, name),
        None => Ok(None),
    }
}

/// A text without braces.
fn fixed_segment(alloc: Global, text: &[u8]) -> Result<Option<Segment>, AllocError>
    ensures { IfOk result (λ part. part ≡ fixed_segment text.now) }
{
    if has_brace(text) {
        return Ok(None);
    }
    Ok(Some(Segment::Fixed(Bytes::from_slice(alloc, text)?)))
}

/// The bytes before a last `}`.
fn before_brace(text: &[u8]) -> Option<&[u8]>
    ensures { option_copied result ≡ shapes.before_brace text.now }
{
    if text.is_empty() || text[text.len() - 1] != b'}' {
        return None;
    }
    Some(&text[..text.len() - 1])
}

/// The name that stood in braces, where it is one.
fn bound_segment(alloc: Global, name: &[u8]) -> Result<Option<Segment>, AllocError>
    ensures { IfOk result (λ part. part ≡ bound_segment name.now) }
{
    if name.is_empty() || !are_name_bytes(name) {
        return Ok(None);
    }
    Ok(Some(Segment::Bind(Bytes::from_slice(alloc, name)?)))
}

fn are_name_bytes(name: &[u8]) -> bool
    ensures { result ≡ list_all shapes.is_name_byte name.now }
{
    name.iter().all(|byte| is_name_byte(*byte))
}

fn is_name_byte(byte: u8) -> bool
    ensures { result ≡ shapes.is_name_byte byte }
{
    byte.is_ascii_alphanumeric() || byte == b'_' || byte == b'-'
}

fn has_brace(text: &[u8]) -> bool
    ensures { result ≡ list_any (λ b. b == 123 || b == 125) text.now }
{
    text.iter().any(|byte| *byte == b'{' || *byte == b'}')
}

/// Whether no two segments bind one name.
fn are_names_apart(parts: &[Segment]) -> bool
    ensures { result ≡ shapes.are_names_apart parts.now }
{
    for (at, part) in parts.iter().enumerate() {
        if is_bound_in(part, &parts[at + 1..]) {
            return false;
        }
    }
    true
}

/// Whether one of the parts binds the name that this part binds.
fn is_bound_in(part: &Segment, parts: &[Segment]) -> bool
    ensures { result ≡ is_bound_in part.now parts.now }
{
    match part {
        Segment::Fixed(_) => false,
        Segment::Bind(name) => is_bound(name.as_slice(), parts),
    }
}

fn is_bound(name: &[u8], parts: &[Segment]) -> bool
    ensures { result ≡ list_any (shapes.binds name.now) parts.now }
{
    parts.iter().any(|part| binds(name, part))
}

fn binds(name: &[u8], part: &Segment) -> bool
    ensures { result ≡ shapes.binds name.now part.now }
{
    match part {
        Segment::Fixed(_) => false,
        Segment::Bind(other) => is_name(name, other.as_slice()),
    }
}
