ghost use Rattle.std.specs.Prelude.{◌≡◌, ◌++◌, OnOk};
ghost use Rattle.tow_language.specs.Printed.{printed_test};
ghost use Rattle.tow_model.specs.declared.predicate.Test.TheVariants as tests;

use super::calls::{put_call_of_template, put_call_of_texts};
use super::segments::put_match;
use super::templates::{put_template, put_templates};
use super::texts::{put_prefixes, put_text};
use std::alloc::AllocError;
use tow_model::{Bytes, Piece, Segment, Template, Test};

/// Appends the call of a test.
pub fn put_test(text: &mut Vec<u8>, test: &Test) -> Result<(), AllocError>
    ensures { OnOk result (text.new.items ≡ text.old.items ++ printed_test test.now) }
{
    match test {
        Test::True => text.extend_from_slice(b"true"),
        Test::False => text.extend_from_slice(b"false"),
        Test::Path(paths) => put_call_of_texts(text, b"path(path=", paths.as_slice()),
        Test::Prefix(prefixes) => put_prefix_test(text, prefixes.as_slice()),
        Test::Suffix(ends) => put_call_of_texts(text, b"path-suffix(path=", ends.as_slice()),
        Test::PathTemplate { parts, value } => {
            put_path_template(text, parts.as_slice(), value.as_slice())
        }
        Test::Regex { pattern, value, .. } => {
            put_regex(text, pattern.as_slice(), value.as_slice())
        }
        Test::Method(methods) => put_call_of_texts(text, b"method(value=", methods.as_slice()),
        Test::Equals(values) => put_equals(text, values.as_slice()),
        Test::Contains { value, search } => {
            put_contains(text, value.as_slice(), search.as_slice())
        }
        Test::Exists(value) => put_call_of_template(text, b"exists(value=", value.as_slice()),
    }
}

fn put_prefix_test(text: &mut Vec<u8>, prefixes: &[Bytes]) -> Result<(), AllocError>
    ensures { OnOk result (text.new.items
        ≡ text.old.items ++ printed_test (tests.Prefix prefixes.now)) }
{
    text.extend_from_slice(b"path-prefix(path=")?;
    put_prefixes(text, prefixes)?;
    text.extend_from_slice(b")")?;
    Ok(())
}

fn put_path_template(
    text: &mut Vec<u8>,
    parts: &[Segment],
    value: &[Piece],
) -> Result<(), AllocError>
    ensures { OnOk result (text.new.items
        ≡ text.old.items ++ printed_test (tests.PathTemplate parts.now value.now)) }
{
    text.extend_from_slice(b"path-template(match=")?;
    put_match(text, parts)?;
    put_call_of_template(text, b", value=", value)?;
    Ok(())
}

fn put_regex(text: &mut Vec<u8>, pattern: &[u8], value: &[Piece]) -> Result<(), AllocError>
    ensures { OnOk result (text.new.items
        ≡ text.old.items ++ printed_test (tests.Regex 0 pattern.now value.now)) }
{
    text.extend_from_slice(b"regex(pattern=")?;
    put_text(text, pattern)?;
    put_call_of_template(text, b", value=", value)?;
    Ok(())
}

fn put_equals(text: &mut Vec<u8>, values: &[Template]) -> Result<(), AllocError>
    ensures { OnOk result (text.new.items
        ≡ text.old.items ++ printed_test (tests.Equals values.now)) }
{
    text.extend_from_slice(b"equals(value=")?;
    put_templates(text, values)?;
    text.extend_from_slice(b")")?;
    Ok(())
}

fn put_contains(text: &mut Vec<u8>, value: &[Piece], search: &[Bytes]) -> Result<(), AllocError>
    ensures { OnOk result (text.new.items
        ≡ text.old.items ++ printed_test (tests.Contains value.now search.now)) }
{
    text.extend_from_slice(b"contains(value=")?;
    put_template(text, value)?;
    put_call_of_texts(text, b", search=", search)?;
    Ok(())
}
