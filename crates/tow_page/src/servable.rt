//! Which paths can be looked up.

ghost use Rattle.std.specs.Prelude.{◌≡◌, ◌==◌, ◌&&◌, not};
ghost use Rattle.std.specs.List.{list_all, list_any};
ghost use Rattle.std.specs.Str.{is_utf8};
ghost use Rattle.tow_model.specs.Paths.{slash};
ghost use Rattle.tow_model.specs.Texts.{but_last, cut_at, is_empty};
ghost use Rattle.tow_semantics.specs.Pages as model;

use std::str::from_utf8;

/// Whether the path is UTF-8 from the root on, without NUL and without an empty segment but the
/// last.
pub(crate) fn is_servable(path: &[u8]) -> bool
    ensures { result ≡ model.is_servable path.now }
{
    match path.strip_prefix(b"/") {
        Some(segments) => is_clean(path) && are_filled(segments),
        None => false,
    }
}

/// Whether the path is UTF-8 without NUL.
fn is_clean(path: &[u8]) -> bool
    ensures { result ≡ (is_utf8 path.now && not (list_any (λ b. b == 0) path.now)) }
{
    from_utf8(path).is_ok() && !path.contains(&0)
}

/// Whether no segment but the last is empty.
fn are_filled(segments: &[u8]) -> bool
    ensures { result ≡ list_all (λ s. not (is_empty s)) (but_last (cut_at slash segments.now)) }
{
    let mut empty = true;
    for byte in segments {
        if *byte != b'/' {
            empty = false;
        } else if empty {
            return false;
        } else {
            empty = true;
        }
    }
    true
}
