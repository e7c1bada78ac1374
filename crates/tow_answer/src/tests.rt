//! Answers and refusals.

ghost use Rattle.std.specs.Prelude.{◌≡◌, IfOk};

mod rows;

use crate::{ContentUse, answer_to, refusal, text_of};
use std::alloc::{AllocError, Global};
use std::process::Abort;
use std::test::Fail;
use tow_model::{Bytes, Choice, Field, Framing, List, NoMemory, Record, Request, Version};

/// A request of a connection.
#[derive(Clone, Copy)]
struct Asked {
    method: &'static [u8],
    version: Version,
    framing: Framing,
    expects: bool,
    keep: bool,
    number: u32,
}

const PLAIN: Asked = Asked {
    method: b"GET",
    version: Version::V11,
    framing: Framing::Empty,
    expects: false,
    keep: true,
    number: 1,
};

fn request(alloc: Global, asked: &Asked) -> Result<Request, AllocError> {
    Ok(Request {
        method: Bytes::from_slice(alloc, asked.method)?,
        target: Bytes::from_slice(alloc, b"/hi")?,
        version: asked.version,
        fields: List::new(alloc),
        url: Bytes::from_slice(alloc, b"/hi")?,
        path: Bytes::from_slice(alloc, b"/hi")?,
        query: None,
        framing: asked.framing,
        expects: asked.expects,
        keep: asked.keep,
        peer: 0,
    })
}

fn state(
    alloc: Global,
    status: u16,
    fields: List<Field>,
    choice: Choice,
) -> Result<Record, AllocError>
    ensures { IfOk result (λ r. r.choice ≡ choice) }
{
    Ok(Record {
        path: Bytes::from_slice(alloc, b"/hi")?,
        query: None,
        status,
        fields,
        context: List::new(alloc),
        listeners: List::new(alloc),
        choice,
    })
}

/// All the bytes of an answer without content.
fn answered(alloc: Global, status: u16, fields: List<Field>) -> Result<Bytes, NoMemory> {
    let request = request(alloc, &PLAIN)?;
    let state = state(alloc, status, fields, Choice::Empty)?;
    let reply = answer_to(alloc, &request, 1, 0, ContentUse::Unasked, state)?;
    text_of(alloc, &request, &reply)
}

#[test]
fn an_answer_with_a_field_of_the_record(rt: HostRuntime) -> Result<(), Fail> {
    let mut fields = List::new(rt.alloc());
    fields.push(Field {
        name: Bytes::from_slice(rt.alloc(), b"allow")?,
        value: Bytes::from_slice(rt.alloc(), b"GET, HEAD")?,
    })?;
    let shown = answered(rt.alloc(), 405, fields)?;
    let wanted =
        "HTTP/1.1 405 Method Not Allowed\r\nallow: GET, HEAD\r\ncontent-length: 0\r\ndate: Thu, 01 Jan 1970 00:00:00 GMT\r\n\r\n";
    assert_eq!(rt; shown.as_slice(), wanted.as_bytes());
    Ok(())
}

#[test]
fn an_answer_of_64_bytes(rt: HostRuntime) -> Result<(), Fail> {
    let shown = answered(rt.alloc(), 204, List::new(rt.alloc()))?;
    let wanted = "HTTP/1.1 204 No Content\r\ndate: Thu, 01 Jan 1970 00:00:00 GMT\r\n\r\n";
    assert_eq!(rt; shown.len(), 64);
    assert_eq!(rt; shown.as_slice(), wanted.as_bytes());
    Ok(())
}

fn expect_refusal(
    rt: &impl Abort,
    alloc: Global,
    status: u16,
    wanted: &str,
) -> Result<(), NoMemory> {
    let shown = refusal(alloc, status, 0)?;
    assert_eq!(rt; shown.as_slice(), wanted.as_bytes());
    Ok(())
}

#[test]
fn refusals_of_heads(rt: HostRuntime) -> Result<(), Fail> {
    expect_refusal(
        &rt,
        rt.alloc(),
        400,
        "HTTP/1.1 400 Bad Request\r\nconnection: close\r\ncontent-length: 0\r\ndate: Thu, 01 Jan 1970 00:00:00 GMT\r\n\r\n",
    )?;
    expect_refusal(
        &rt,
        rt.alloc(),
        501,
        "HTTP/1.1 501 Not Implemented\r\nconnection: close\r\ncontent-length: 0\r\ndate: Thu, 01 Jan 1970 00:00:00 GMT\r\n\r\n",
    )?;
    Ok(())
}
