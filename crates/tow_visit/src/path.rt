//! Paths that a folder may be asked for.

ghost use Rattle.std.specs.Prelude.{◌≡◌, ◌==◌, ◌&&◌, IfOk, None, Some, if◌then◌else◌, not, option_map, string_bytes, true};
ghost use Rattle.std.specs.List.{list_all, list_any};
ghost use Rattle.std.specs.Str.{is_utf8};
ghost use Rattle.percent_encoding.specs.Percent.{percent_decode};
ghost use Rattle.tow_folder.specs.Folders as folders;
ghost use Rattle.tow_model.specs.Paths.{slash};
ghost use Rattle.tow_model.specs.Texts.{cut_at, is_empty};
ghost use Rattle.tow_semantics.specs.Files as files;

use percent_encoding::percent_decode;
use std::alloc::{AllocError, Global};
use std::str::from_utf8;
use tow_model::Bytes;

/// A path that a folder may be asked for.
#[derive(Drop)]
pub struct AskablePath {
    pub bytes: Bytes,
    ghost askable: { folders.is_askable bytes ≡ true },
}

impl AskablePath {
    /// The path that is percent-encoded in this word, if a folder may be asked for it. Takes memory.
    pub fn read(alloc: Global, word: &str) -> Result<Option<AskablePath>, AllocError>
        ensures { IfOk result (λ read. option_map (λ path. path.bytes) read
            ≡ (if folders.is_askable (percent_decode word.now) then Some (percent_decode word.now)
            else None)) }
    {
        let mut bytes = Vec::new(alloc);
        percent_decode(word.as_bytes()).append_to(&mut bytes)?;
        if !is_askable(&bytes) {
            return Ok(None);
        }
        let bytes = Bytes::from_vec(bytes);
        Ok(Some(AskablePath { bytes }))
    }
}

/// Whether a folder may be asked for the path.
fn is_askable(path: &[u8]) -> bool
    ensures { result ≡ folders.is_askable path.now }
{
    path == b"/".as_slice() || (is_name(path) && is_clean(path))
}

/// Whether the path is one from the root on without an empty segment.
fn is_name(path: &[u8]) -> bool
    ensures { result ≡ files.is_name path.now }
{
    match path.strip_prefix(b"/") {
        Some(rest) => has_whole_segments(rest),
        None => false,
    }
}

/// Whether no piece between slashes is empty.
fn has_whole_segments(text: &[u8]) -> bool
    ensures { result ≡ list_all (λ s. not (is_empty s)) (cut_at slash text.now) }
{
    text.split(|b| *b == b'/')
        .all(|segment| !segment.is_empty())
}

/// Whether the path is UTF-8 without NUL.
fn is_clean(path: &[u8]) -> bool
    ensures { result ≡ (is_utf8 path.now && not (list_any (λ b. b == 0) path.now)) }
{
    from_utf8(path).is_ok() && !path.contains(&0)
}
