//! The lines that commands print.

ghost use Rattle.std.specs.Prelude.{◌≡◌, ◌++◌, IfOk, codes, decimal};
ghost use Rattle.tow_server.specs.Lines as model;

use itoa::Buffer;
use std::alloc::{AllocError, Global};
use tow_language::Kind;

/// The line for a text that compiles and uses what is not built yet.
pub const UNBUILT: &[u8] = b"1:1: Unbuilt\n";

/// The line that names a fault: line and column, which count from 1, and the kind. Takes memory for it.
pub fn fault_line(alloc: Global, kind: Kind, line: u32, column: u32) -> Result<Vec<u8>, AllocError>
    ensures { IfOk result (λ v. v.items ≡ model.fault_line kind line column) }
{
    let mut text = Vec::new(alloc);
    text.extend_from_slice(Buffer::new().format(line).as_bytes())?;
    text.extend_from_slice(b":")?;
    text.extend_from_slice(Buffer::new().format(column).as_bytes())?;
    text.extend_from_slice(b": ")?;
    text.extend_from_slice(kind_name(kind))?;
    text.extend_from_slice(b"\n")?;
    Ok(text)
}

/// The line that says how many statements a text has. Takes memory for it.
pub fn ok_line(alloc: Global, statements: u32) -> Result<Vec<u8>, AllocError>
    ensures { IfOk result (λ v. v.items ≡ model.ok_line statements) }
{
    let mut text = Vec::new(alloc);
    text.extend_from_slice(b"ok ")?;
    text.extend_from_slice(Buffer::new().format(statements).as_bytes())?;
    text.extend_from_slice(b"\n")?;
    Ok(text)
}

fn kind_name(kind: Kind) -> &'static [u8]
    ensures { result.now ≡ model.kind_name kind }
{
    match kind {
        Kind::TooLong => b"TooLong",
        Kind::UnclosedQuote => b"UnclosedQuote",
        Kind::UnclosedBrace => b"UnclosedBrace",
        Kind::StrayByte => b"StrayByte",
        Kind::Unexpected => b"Unexpected",
        Kind::TooDeep => b"TooDeep",
        Kind::UnknownName => b"UnknownName",
        Kind::BadParameter => b"BadParameter",
        Kind::BadAttribute => b"BadAttribute",
        Kind::BadTarget => b"BadTarget",
        Kind::TooManyLimits => b"TooManyLimits",
        Kind::BadPattern => b"BadPattern",
        Kind::LargePattern => b"LargePattern",
    }
}
