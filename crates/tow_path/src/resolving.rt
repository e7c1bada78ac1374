//! Paths without dot segments (RFC 3986, section 5.2.4).

ghost use Rattle.std.specs.Prelude.{◌≡◌, ◌∷◌, ◌≤◌, ◌||◌, false, length, take, IfOk, OnOk};
ghost use Rattle.tow_model.specs.Paths.{is_dot, is_dots, resolved, resolved_relative, slash};
ghost use Rattle.tow_path.specs.Output as model;
ghost use Rattle.tow_path.specs.Output.{before_last_slash};

use std::alloc::{AllocError, Global};
use tow_model::{Bytes, NoMemory};

/// Whether a segment is `.` or `..`.
fn is_dot_segment(segment: &[u8]) -> bool
    ensures { result ≡ (is_dot segment.now || is_dots segment.now) }
{
    segment == b".".as_slice() || segment == b"..".as_slice()
}

/// The place of the last `/`, or 0 where there is none.
fn last_slash(path: &[u8]) -> usize
    ensures within { result ≤ length path.now }
    ensures front { take result path.now ≡ before_last_slash path.now }
{
    let mut at = path.len();
    while at > 0 {
        at -= 1;
        if path[at] == b'/' {
            return at;
        }
    }
    0
}

/// Adds a `/` and the segment to the output. The segment `.` adds nothing, and `..` takes the last segment away.
fn put_segment(output: &mut Vec<u8>, segment: &[u8]) -> Result<(), AllocError>
    ensures { OnOk result (output.new.items ≡ model.put_segment output.old.items segment.now) }
{
    if segment == b".".as_slice() {
        return Ok(());
    }
    if segment == b"..".as_slice() {
        output.truncate(last_slash(output.as_slice()));
        return Ok(());
    }
    output.push(b'/')?;
    output.extend_from_slice(segment)
}

/// A `/` and the path without its dot segments. Takes memory once.
fn resolved_segments(alloc: Global, path: &[u8]) -> Result<Vec<u8>, AllocError>
    ensures { IfOk result (λ output. output.items ≡ slash ∷ resolved_relative path.now) }
{
    let mut output = Vec::with_capacity(alloc, path.len().saturating_add(1))?;
    let mut ends_in_dots = false;
    for segment in path.split(|byte| *byte == b'/') {
        put_segment(&mut output, segment)?;
        ends_in_dots = is_dot_segment(segment);
    }
    if ends_in_dots {
        output.push(b'/')?;
    }
    Ok(output)
}

/// The path without its dot segments. A leading `/` stays.
fn without_dots(alloc: Global, path: &[u8]) -> Result<Bytes, AllocError>
    ensures { IfOk result (λ r. r ≡ resolved path.now) }
{
    match path.strip_prefix(b"/") {
        Some(segments) => {
            let output = resolved_segments(alloc, segments)?;
            Ok(Bytes::from_vec(output))
        }
        None => {
            let mut output = resolved_segments(alloc, path)?;
            output.remove(0);
            Ok(Bytes::from_vec(output))
        }
    }
}

/// The path without its segments `.`, and without its segments `..` and the one before each of them (RFC 3986, section
/// 5.2.4). A leading `/` and empty segments stay. Takes memory once, for the result.
pub fn resolve(alloc: Global, path: &[u8]) -> Result<Bytes, NoMemory>
    ensures path { IfOk result (λ r. r ≡ resolved path.now) }
    ensures plain { IfOk result (λ r. model.has_dot_segment r ≡ false) }
    ensures again { IfOk result (λ r. resolved r ≡ r) }
{
    let bytes = without_dots(alloc, path)?;
    Ok(bytes)
}

/// Whether some segment is `.` or `..`.
fn has_dot_segment(path: &[u8]) -> bool
    ensures { result ≡ model.has_dot_segment path.now }
{
    path.split(|byte| *byte == b'/')
        .any(|segment| is_dot_segment(segment))
}

/// The path as `resolve` gives it. Takes memory only where the path has a dot segment.
pub(crate) fn resolve_owned(alloc: Global, path: Vec<u8>) -> Result<Bytes, NoMemory>
    ensures { IfOk result (λ r. r ≡ resolved path.items) }
{
    if has_dot_segment(path.as_slice()) {
        return resolve(alloc, path.as_slice());
    }
    Ok(Bytes::from_vec(path))
}
