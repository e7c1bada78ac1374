use crate::{date, head, reason};
use std::alloc::{AllocError, Global};
use std::process::Abort;
use std::test::Fail;
use tow_model::{Bytes, Field, List};

fn field(alloc: Global, name: &[u8], value: &[u8]) -> Result<Field, AllocError> {
    let name = Bytes::from_slice(alloc, name)?;
    let value = Bytes::from_slice(alloc, value)?;
    Ok(Field { name, value })
}

fn expect(rt: &impl Abort, shown: &[u8], wanted: &[u8]) {
    assert_eq!(rt; shown, wanted);
}

#[test]
fn a_head_with_a_date(rt: HostRuntime) -> Result<(), Fail> {
    let mut fields = List::new(rt.alloc());
    fields.push(field(rt.alloc(), b"date", b"Thu, 01 Jan 1970 00:00:00 GMT")?)?;
    let shown = head(rt.alloc(), 204, &fields)?;
    assert_eq!(rt; shown.len(), 64);
    expect(
        &rt,
        shown.as_slice(),
        b"HTTP/1.1 204 No Content\r\ndate: Thu, 01 Jan 1970 00:00:00 GMT\r\n\r\n",
    );
    Ok(())
}

#[test]
fn a_head_with_two_fields(rt: HostRuntime) -> Result<(), Fail> {
    let mut fields = List::new(rt.alloc());
    fields.push(field(rt.alloc(), b"allow", b"GET, HEAD")?)?;
    fields.push(field(rt.alloc(), b"content-length", b"0")?)?;
    let shown = head(rt.alloc(), 405, &fields)?;
    expect(
        &rt,
        shown.as_slice(),
        b"HTTP/1.1 405 Method Not Allowed\r\nallow: GET, HEAD\r\ncontent-length: 0\r\n\r\n",
    );
    Ok(())
}

#[test]
fn a_head_without_a_reason(rt: HostRuntime) -> Result<(), Fail> {
    let shown = head(rt.alloc(), 299, &List::new(rt.alloc()))?;
    expect(&rt, shown.as_slice(), b"HTTP/1.1 299 \r\n\r\n");
    Ok(())
}

#[test]
fn reasons_of_statuses(rt: HostRuntime) {
    expect(&rt, reason(200), b"OK");
    expect(&rt, reason(505), b"HTTP Version Not Supported");
    expect(&rt, reason(299), b"");
}

#[test]
fn dates_of_seconds(rt: HostRuntime) -> Result<(), Fail> {
    let first = date(rt.alloc(), 0)?;
    expect(&rt, first.as_slice(), b"Thu, 01 Jan 1970 00:00:00 GMT");
    let sunday = date(rt.alloc(), 784111777)?;
    expect(&rt, sunday.as_slice(), b"Sun, 06 Nov 1994 08:49:37 GMT");
    let leap_day = date(rt.alloc(), 951782400)?;
    expect(&rt, leap_day.as_slice(), b"Tue, 29 Feb 2000 00:00:00 GMT");
    let last = date(rt.alloc(), 253402300799)?;
    expect(&rt, last.as_slice(), b"Fri, 31 Dec 9999 23:59:59 GMT");
    Ok(())
}
