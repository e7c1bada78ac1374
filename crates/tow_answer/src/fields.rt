//! The fields that an answer adds to those of its record: the date, what becomes of the connection, and how the content is
//! framed.

ghost use Rattle.std.specs.Prelude.{◌≡◌, ◌<◌, ◌++◌, ◌∷◌, [], OnOk, IfOk, codes, decimal};
ghost use Rattle.tow_semantics.specs.Values.{is_bare};
ghost use Rattle.tow_wire.specs.Answers.{connection_fields, known_length, length_fields};
ghost use Rattle.tow_model.specs.Dates.{date_of, first_undated};
ghost use Rattle.tow_model.specs.Fields.{field};

use std::alloc::{AllocError, Global};
use tow_model::{Bytes, Choice, Field, NoMemory, Version};
use tow_render::date;

/// Adds a field with this name and value. Takes memory for both.
pub(crate) fn push_field(
    alloc: Global,
    fields: &mut Vec<Field>,
    name: &[u8],
    value: &[u8],
) -> Result<(), AllocError>
    ensures { OnOk result (fields.new.items ≡ fields.old.items ++ field name.now value.now ∷ []) }
{
    let value = Bytes::from_slice(alloc, value)?;
    push_made(alloc, fields, name, value)
}

/// Adds a field with this name and a value that was made for it. Takes memory for the name.
fn push_made(
    alloc: Global,
    fields: &mut Vec<Field>,
    name: &[u8],
    value: Bytes,
) -> Result<(), AllocError>
    ensures { OnOk result (fields.new.items ≡ fields.old.items ++ field name.now value ∷ []) }
{
    let name = Bytes::from_slice(alloc, name)?;
    fields.push(Field { name, value })?;
    Ok(())
}

/// Adds the date of this moment, in seconds since 1970 (RFC 9110, section 6.6.1).
pub(crate) fn push_date(alloc: Global, fields: &mut Vec<Field>, moment: u64) -> Result<(), NoMemory>
    requires { moment < first_undated }
    ensures { OnOk result (fields.new.items
        ≡ fields.old.items ++ field (codes "date") (date_of moment) ∷ []) }
{
    let value = date(alloc, moment)?;
    push_made(alloc, fields, b"date", value)?;
    Ok(())
}

/// Adds what becomes of the connection, if the version does not say it (RFC 9112, section 9.3).
pub(crate) fn push_connection(
    alloc: Global,
    fields: &mut Vec<Field>,
    version: Version,
    close: bool,
) -> Result<(), AllocError>
    ensures { OnOk result (fields.new.items ≡ fields.old.items ++ connection_fields version close) }
{
    match (version, close) {
        (_, true) => push_field(alloc, fields, b"connection", b"close"),
        (Version::V10, false) => push_field(alloc, fields, b"connection", b"keep-alive"),
        (Version::V11, false) => Ok(()),
    }
}

/// Adds how the content is framed (RFC 9112, section 6): its length, or that it comes in chunks.
pub(crate) fn push_length(
    alloc: Global,
    fields: &mut Vec<Field>,
    status: u16,
    version: Version,
    choice: &Choice,
) -> Result<(), AllocError>
    ensures { OnOk result (fields.new.items
        ≡ fields.old.items ++ length_fields status version (known_length choice.now)) }
{
    if is_bare(status) {
        return Ok(());
    }
    match known_length(choice) {
        Some(len) => push_content_length(alloc, fields, len),
        None => match version {
            Version::V11 => push_field(alloc, fields, b"transfer-encoding", b"chunked"),
            Version::V10 => Ok(()),
        },
    }
}

/// Adds the length of the content, in bytes.
fn push_content_length(alloc: Global, fields: &mut Vec<Field>, len: u64) -> Result<(), AllocError>
    ensures { OnOk result (fields.new.items
        ≡ fields.old.items ++ field (codes "content-length") (decimal len) ∷ []) }
{
    let digits = len.to_string(alloc)?;
    let value = Bytes::from_vec(digits.into_bytes());
    push_made(alloc, fields, b"content-length", value)
}

/// Whether an answer of this status tells nothing of its content and has none (RFC 9110, sections 15.3.5 and 15.4.5).
fn is_bare(status: u16) -> bool
    ensures { result ≡ is_bare status }
{
    status == 204 || status == 304
}

/// The length of the content in bytes, if the head can tell it.
pub(crate) fn known_length(choice: &Choice) -> Option<u64>
    ensures { result ≡ known_length choice.now }
{
    match choice {
        Choice::Undecided | Choice::Empty => Some(0),
        Choice::Whole(bytes) => Some(bytes.len() as u64),
        Choice::File { len, .. } => Some(*len),
        Choice::Listing(_) => None,
    }
}
