//! Paths and prefixes of paths.

ghost use Rattle.std.specs.Prelude.{◌≡◌, ◌≤◌, IfOk, length, map, take};
ghost use Rattle.tow_model.specs.Paths as paths;
ghost use Rattle.tow_language.specs.Shapes as shapes;

use std::alloc::{AllocError, Global};
use tow_model::{Bytes, List};

/// The path with a leading `/`. Takes memory where that is added.
pub(crate) fn rooted(path: Bytes) -> Result<Bytes, AllocError>
    ensures { IfOk result (λ b. b ≡ paths.rooted path) }
{
    if path.as_slice().starts_with(b"/") {
        return Ok(path);
    }
    let mut bytes = path.into_vec();
    bytes.insert(0, b'/')?;
    Ok(Bytes::from_vec(bytes))
}

/// The path with a leading `/` and without those at its end. Takes memory where the leading one is added.
pub(crate) fn prefix_of(path: Bytes) -> Result<Bytes, AllocError>
    ensures { IfOk result (λ b. b ≡ shapes.prefix_of path) }
{
    let mut bytes = rooted(path)?.into_vec();
    let end = slashes_at(bytes.as_slice());
    bytes.truncate(end);
    Ok(Bytes::from_vec(bytes))
}

/// Where the `/` at the end of the path begin.
fn slashes_at(path: &[u8]) -> usize
    ensures within { result ≤ length path.now }
    ensures before { take result path.now ≡ shapes.without_last_slashes path.now }
{
    let mut end = path.len();
    while end > 0 && path[end - 1] == b'/' {
        end -= 1;
    }
    end
}

/// Each path with a leading `/`. Takes memory for the list.
pub(crate) fn all_rooted(alloc: Global, texts: List<Bytes>) -> Result<List<Bytes>, AllocError>
    ensures { IfOk result (λ all. all ≡ map paths.rooted texts) }
{
    let mut all = List::new(alloc);
    for text in texts.into_vec() {
        all.push(rooted(text)?)?;
    }
    Ok(all)
}

/// Each path as a prefix. Takes memory for the list.
pub(crate) fn all_prefixes(alloc: Global, texts: List<Bytes>) -> Result<List<Bytes>, AllocError>
    ensures { IfOk result (λ all. all ≡ map shapes.prefix_of texts) }
{
    let mut all = List::new(alloc);
    for text in texts.into_vec() {
        all.push(prefix_of(text)?)?;
    }
    Ok(all)
}
