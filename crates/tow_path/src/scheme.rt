//! Absolute targets: a scheme, an authority, and what stands behind them (RFC 3986, section 3).

ghost use Rattle.std.specs.Prelude.{◌≡◌, ◌≤◌, ◌==◌, ◌&&◌, IsTrue, MatchOption, None, Some, length, not};
ghost use Rattle.std.specs.List.{take_while};
ghost use Rattle.std.specs.Option.{option_copied};
ghost use Rattle.std.specs.Str.{byte, str_to_ascii_lowercase};
ghost use Rattle.tow_model.specs.Paths as paths;
ghost use Rattle.tow_model.specs.Paths.{absolute_place, begins_authority, place_at, slash};
ghost use Rattle.tow_model.specs.Texts.{begins_with};
ghost use Rattle.tow_path.specs.Scheme as model;

/// Whether the text begins with the part, in any case.
fn begins_in_any_case(text: &[u8], part: &[u8]) -> bool
    ensures value { result
        ≡ begins_with (str_to_ascii_lowercase part.now) (str_to_ascii_lowercase text.now) }
    ensures fits { IsTrue result → length part.now ≤ length text.now }
{
    if text.len() < part.len() {
        return false;
    }
    text[..part.len()].eq_ignore_ascii_case(part)
}

/// Whether the text begins with an authority that is not empty.
fn has_authority(text: &[u8]) -> bool
    ensures { result ≡ begins_authority text.now }
{
    !text.is_empty() && !text.starts_with(b"/") && !text.starts_with(b"?")
}

/// How many bytes the authority at the front of the text has.
fn authority_len(text: &[u8]) -> usize
    ensures { result ≡ length (take_while (λ b. not (b == slash) && not (b == byte "?")) text.now) }
{
    text.iter()
        .take_while(|b| **b != b'/' && **b != b'?')
        .count()
}

/// What stands behind the authority at the front of the text.
fn behind_authority(text: &[u8]) -> &[u8]
    ensures { result.now ≡ paths.behind_authority text.now }
{
    text.split_at(authority_len(text)).1
}

/// What stands behind the scheme in any case, which is given in lower case, and an authority.
fn behind_scheme<'a>(target: &'a [u8], scheme: &[u8]) -> Option<&'a [u8]>
    ensures { option_copied result ≡ model.behind_scheme scheme.now target.now }
{
    if !begins_in_any_case(target, scheme) {
        return None;
    }
    let text = &target[scheme.len()..];
    if !has_authority(text) {
        return None;
    }
    Some(behind_authority(text))
}

/// The path and the query of an absolute-form.
pub(crate) fn absolute_part(target: &[u8]) -> Option<&[u8]>
    ensures { MatchOption result (absolute_place target.now
        ≡ None) (λ text. absolute_place target.now ≡ Some (place_at text.now)) }
{
    match behind_scheme(target, b"http://") {
        Some(text) => Some(text),
        None => behind_scheme(target, b"https://"),
    }
}
