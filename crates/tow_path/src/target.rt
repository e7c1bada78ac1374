//! What a request's target names (RFC 9112, section 3.2).

ghost use Rattle.std.specs.Prelude.{◌≡◌, ◌&&◌, IfOk, None, codes, is_some, if◌then◌else◌};
ghost use Rattle.std.specs.Str.{byte, bytes_eq};
ghost use Rattle.percent_encoding.specs.Percent as percent;
ghost use Rattle.tow_model.specs.Paths as paths;
ghost use Rattle.tow_model.specs.Paths.{place_of, resolved};
ghost use Rattle.tow_model.specs.Texts as texts;
ghost use Rattle.tow_model.specs.Texts.{is_empty};
ghost use Rattle.tow_path.specs.Told.{IsResolved, Names, Reads};

use crate::resolving::{resolve, resolve_owned};
use crate::scheme::absolute_part;
use percent_encoding::percent_decode;
use std::alloc::Global;
use std::borrow::CowSlice;
use tow_model::{Bytes, NoMemory};
use tow_text::{after, before};

/// What a target names.
#[derive(Debug, Drop)]
pub enum Target3986 {
    /// The path as it was sent, the path decoded and resolved, and what follows the first `?`.
    Parts {
        url: Bytes,
        path: Bytes,
        query: Option<Bytes>,
    },
    /// The target has none of the forms that are served.
    Bad,
    NoMemory,
}

/// The path that a url stands for: decoded, and then without dot segments.
fn decoded_path(alloc: Global, url: &[u8]) -> Result<Bytes, NoMemory>
    ensures { IfOk result (λ path. path ≡ resolved (percent.percent_decode url.now)) }
{
    match percent_decode(url).into_cow(alloc)? {
        CowSlice::Borrowed(path) => resolve(alloc, path),
        CowSlice::Owned(path) => resolve_owned(alloc, path),
    }
}

/// Copies what follows the first `?`.
fn query_of(alloc: Global, text: &[u8]) -> Result<Option<Bytes>, NoMemory>
    ensures { IfOk result (λ query. query ≡ texts.after (byte "?") text.now) }
{
    match after(b'?', text) {
        Some(query) => {
            let query = Bytes::from_slice(alloc, query)?;
            Ok(Some(query))
        }
        None => Ok(None),
    }
}

/// The url at the front of the text, which is `/` where nothing stands there.
fn url_of(text: &[u8]) -> &[u8]
    ensures { result.now
        ≡ (if is_empty (texts.before (byte "?") text.now) then codes "/" else texts.before
        (byte "?") text.now) }
{
    let url = before(b'?', text);
    if url.is_empty() { b"/" } else { url }
}

/// The parts of a path and a query.
fn parts_of(alloc: Global, text: &[u8]) -> Result<Target3986, NoMemory>
    ensures { IfOk result (λ parts. Names (paths.place_at text.now) parts) }
{
    let sent = url_of(text);
    let url = Bytes::from_slice(alloc, sent)?;
    let path = decoded_path(alloc, sent)?;
    let query = query_of(alloc, text)?;
    Ok(Target3986::Parts { url, path, query })
}

/// The parts of `*`.
fn parts_of_server(alloc: Global) -> Result<Target3986, NoMemory>
    ensures { IfOk result (λ parts. Names
        (record { url = codes "*"; path = codes "*"; query = None }) parts) }
{
    let url = Bytes::from_slice(alloc, b"*")?;
    let path = Bytes::from_slice(alloc, b"*")?;
    Ok(Target3986::Parts {
        url,
        path,
        query: None,
    })
}

/// Whether the target is `*` with OPTIONS (RFC 9112, section 3.2.4).
fn is_server(method: &[u8], target: &[u8]) -> bool
    ensures { result ≡ (bytes_eq target.now (codes "*") && bytes_eq method.now (codes "OPTIONS")) }
{
    target == b"*".as_slice() && method == b"OPTIONS".as_slice()
}

/// What the target names. The answer is never `NoMemory`.
fn find_parts(alloc: Global, method: &[u8], target: &[u8]) -> Result<Target3986, NoMemory>
    ensures { IfOk result (λ parts. Reads method.now target.now parts) }
{
    if target.starts_with(b"/") {
        return parts_of(alloc, target);
    }
    if is_server(method, target) {
        return parts_of_server(alloc);
    }
    match absolute_part(target) {
        Some(text) => parts_of(alloc, text),
        None => Ok(Target3986::Bad),
    }
}

/// What the target names, or that memory is short.
fn target_of(alloc: Global, method: &[u8], target: &[u8]) -> Target3986
    ensures { Reads method.now target.now result }
{
    match find_parts(alloc, method, target) {
        Ok(parts) => parts,
        Err(_) => Target3986::NoMemory,
    }
}

/// Whether the target has a form that is served: `read_target` answers `Bad` just where it has none. Takes no memory.
pub fn has_form(method: &[u8], target: &[u8]) -> bool
    ensures { result ≡ is_some (place_of method.now target.now) }
{
    target.starts_with(b"/") || is_server(method, target) || absolute_part(target).is_some()
}

/// Reads a target, which is an origin-form, an absolute-form with `http` or `https` in any case and an authority that is
/// not empty, or `*` with OPTIONS (RFC 9112, section 3.2). The path is decoded once and then resolved; a wrong escape and a
/// `+` stay. Takes memory once for each part, and once more for a path that has escapes and dot segments.
pub fn read_target(alloc: Global, method: &[u8], target: &[u8]) -> Target3986
    ensures value { Reads method.now target.now result }
    ensures plain { IsResolved result }
{
    target_of(alloc, method, target)
}
