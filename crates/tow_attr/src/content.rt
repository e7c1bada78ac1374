//! How many bytes of content an answer has.

ghost use Rattle.std.specs.Prelude.{◌≡◌, ◌++◌, ◌==◌, OnOk, codes, decimal, if◌then◌else◌};
ghost use Rattle.tow_semantics.specs.Values.{choice_length, has_content, sent};

use crate::digits::append_decimal;
use std::alloc::AllocError;
use tow_model::{Choice, Record, Request};

/// Writes how many bytes of content the answer has, and `-` for none.
pub(crate) fn append_sent_or_dash(
    out: &mut Vec<u8>,
    request: &Request,
    exchange: &Record,
) -> Result<(), AllocError>
    ensures { OnOk result (out.new.items ≡ out.old.items
        ++ (if sent request.now exchange.now == 0 then codes "-" else decimal
        (sent request.now exchange.now))) }
{
    match sent(request, exchange) {
        0 => out.extend_from_slice(b"-"),
        count => append_decimal(out, count),
    }
}

/// How many bytes of content the answer has, without its framing.
pub(crate) fn sent(request: &Request, exchange: &Record) -> u64
    ensures { result ≡ sent request.now exchange.now }
{
    if has_content(request, exchange) {
        choice_length(&exchange.choice)
    } else {
        0
    }
}

/// Whether the answer has content: not to HEAD, nor with a status that has none (RFC 9110, sections 9.3.2, 15.3.5 and 15.4.5).
fn has_content(request: &Request, exchange: &Record) -> bool
    ensures { result ≡ has_content request.now exchange.now }
{
    !(request.method.as_slice() == b"HEAD".as_slice()
        || exchange.status == 204
        || exchange.status == 304)
}

/// The length of what was chosen, in bytes.
fn choice_length(choice: &Choice) -> u64
    ensures { result ≡ choice_length choice.now }
{
    match choice {
        Choice::Undecided | Choice::Empty => 0,
        Choice::Whole(bytes) | Choice::Listing(bytes) => bytes.len() as u64,
        Choice::File { len, .. } => *len,
    }
}
