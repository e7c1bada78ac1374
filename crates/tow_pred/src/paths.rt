//! Tests of a path against texts.

ghost use Rattle.std.specs.Prelude.{◌≡◌, ◌≤◌, IfSome, filter, length, option_map};
ghost use Rattle.std.specs.List.{list_any};
ghost use Rattle.tow_model.specs.Paths as paths;
ghost use Rattle.tow_semantics.specs.Predicates.{longest};
ghost use Rattle.tow_model.specs.Texts.{ends_in};

use tow_model::Bytes;
use tow_path::is_prefix;

/// Whether the path ends with one of the suffixes. Takes no memory.
pub(crate) fn ends_with_one(path: &[u8], suffixes: &[Bytes]) -> bool
    ensures { result ≡ list_any (λ s. ends_in s path.now) suffixes.now }
{
    suffixes
        .iter()
        .any(|suffix| path.ends_with(suffix.as_slice()))
}

/// The length of the longest prefix that the path lies under, in bytes. Takes no memory.
pub(crate) fn longest_prefix(prefixes: &[Bytes], path: &[u8]) -> Option<usize>
    ensures longest { result
        ≡ option_map (λ p. length p) (longest
        (filter (λ p. paths.is_prefix p path.now) prefixes.now)) }
    ensures within { IfSome result (λ len. len ≤ length path.now) }
{
    let mut best: Option<usize> = None;
    for prefix in prefixes {
        if is_prefix(prefix.as_slice(), path) {
            best = Some(prefix.len().max(best.unwrap_or(0)));
        }
    }
    best
}
