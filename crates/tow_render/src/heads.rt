//! The head of an answer: its status line, its field lines and the empty line (RFC 9112, section 2.1).

ghost use Rattle.std.specs.Prelude.{◌≡◌, ◌++◌, IfOk, OnOk, codes, decimal, flat_map};
ghost use Rattle.tow_wire.specs.Answers.{field_line, head_text};
ghost use Rattle.tow_wire.specs.Reasons.{reason_of};

use crate::reasons::reason;
use itoa::Buffer;
use std::alloc::{AllocError, Global};
use tow_model::{Bytes, Field, List, NoMemory};

/// The head of an answer with these fields, in their order. Takes memory for the whole head.
pub fn head(alloc: Global, status: u16, fields: &List<Field>) -> Result<Bytes, NoMemory>
    ensures { IfOk result (λ bytes. bytes ≡ head_text status fields.now) }
{
    let mut bytes = status_line(alloc, status, size_of_lines(fields.as_slice()))?;
    add_lines(&mut bytes, fields.as_slice())?;
    bytes.extend_from_slice(b"\r\n")?;
    Ok(Bytes::from_vec(bytes))
}

/// The status line, with room behind it for so many bytes and the empty line.
fn status_line(alloc: Global, status: u16, more: usize) -> Result<Vec<u8>, AllocError>
    ensures { IfOk result (λ v.
        v.items
        ≡ codes "HTTP/1.1 " ++ decimal status ++ codes " " ++ reason_of status
        ++ codes "\r\n") }
{
    let mut digits = Buffer::new();
    let mut line = Vec::with_capacity(alloc, more.saturating_add(LONGEST_STATUS_LINE))?;
    line.extend_from_slice(b"HTTP/1.1 ")?;
    line.extend_from_slice(digits.format(status).as_bytes())?;
    line.extend_from_slice(b" ")?;
    line.extend_from_slice(reason(status))?;
    line.extend_from_slice(b"\r\n")?;
    Ok(line)
}

/// No status line and empty line take more bytes.
const LONGEST_STATUS_LINE: usize = 64;

fn add_lines(lines: &mut Vec<u8>, fields: &[Field]) -> Result<(), AllocError>
    ensures { OnOk result (lines.new.items ≡ lines.old.items ++ flat_map field_line fields.now) }
{
    for field in fields {
        add_line(lines, field)?;
    }
    Ok(())
}

fn add_line(lines: &mut Vec<u8>, field: &Field) -> Result<(), AllocError>
    ensures { OnOk result (lines.new.items ≡ lines.old.items ++ field_line field.now) }
{
    lines.extend_from_slice(field.name.as_slice())?;
    lines.extend_from_slice(b": ")?;
    lines.extend_from_slice(field.value.as_slice())?;
    lines.extend_from_slice(b"\r\n")?;
    Ok(())
}

/// How many bytes the lines of the fields take.
fn size_of_lines(fields: &[Field]) -> usize {
    fields.iter().fold(0, |size: usize, field| {
        let line = field
            .name
            .len()
            .saturating_add(field.value.len())
            .saturating_add(4);
        size.saturating_add(line)
    })
}
