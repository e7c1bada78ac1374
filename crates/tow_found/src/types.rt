//! Content types, by the suffix of a file's name.

ghost use Rattle.std.specs.Prelude.{◌≡◌};
ghost use Rattle.std.specs.Option.{option_copied};
ghost use Rattle.std.specs.Str.{bytes_eq, str_to_ascii_lowercase};
ghost use Rattle.tow_semantics.specs.Pages as pages;
ghost use Rattle.tow_semantics.specs.Pages.{last_after, type_of_suffix};

/// The content type of the file of this path: that of what follows the last `.` of its last segment. Takes no memory.
pub fn content_type(path: &[u8]) -> &'static [u8]
    ensures { result.now ≡ pages.content_type path.now }
{
    let name = match after_last(path, b'/') {
        Some(name) => name,
        None => path,
    };
    match after_last(name, b'.') {
        Some(suffix) => type_of(suffix),
        None => type_of(b""),
    }
}

/// What follows the last such sign, if there is one.
fn after_last(text: &[u8], sign: u8) -> Option<&[u8]>
    ensures { option_copied result ≡ last_after sign text.now }
{
    let mut from = text.len();
    while from > 0 {
        if text[from - 1] == sign {
            return Some(&text[from..]);
        }
        from -= 1;
    }
    None
}

/// The content type of a suffix in any case.
fn type_of(suffix: &[u8]) -> &'static [u8]
    ensures { result.now ≡ type_of_suffix (str_to_ascii_lowercase suffix.now) }
{
    if is(suffix, b"html") || is(suffix, b"htm") {
        b"text/html; charset=utf-8"
    } else if is(suffix, b"txt") {
        b"text/plain; charset=utf-8"
    } else if is(suffix, b"css") {
        b"text/css"
    } else if is(suffix, b"js") {
        b"text/javascript"
    } else if is(suffix, b"json") {
        b"application/json"
    } else if is(suffix, b"xml") {
        b"application/xml"
    } else if is(suffix, b"svg") {
        b"image/svg+xml"
    } else if is(suffix, b"png") {
        b"image/png"
    } else if is(suffix, b"gif") {
        b"image/gif"
    } else if is(suffix, b"jpg") || is(suffix, b"jpeg") {
        b"image/jpeg"
    } else if is(suffix, b"pdf") {
        b"application/pdf"
    } else {
        b"application/octet-stream"
    }
}

/// Whether the suffix is this one, which is in lower case, in any case.
fn is(suffix: &[u8], name: &[u8]) -> bool
    requires { str_to_ascii_lowercase name.now ≡ name.now }
    ensures { result ≡ bytes_eq (str_to_ascii_lowercase suffix.now) name.now }
{
    suffix.eq_ignore_ascii_case(name)
}
