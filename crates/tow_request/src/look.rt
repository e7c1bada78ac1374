//! Finding the first head of an input.

ghost use Rattle.std.specs.Prelude.{◌≡◌, ◌≤◌, ◌⊎◌, ◌↔◌, ℕ, Bool, IsTrue, length};
ghost use Rattle.httparse.specs.Grammar.{MayBecomeRequest};
ghost use Rattle.httparse.specs.Spans.{IsRequestOf, IsRequestWithin, RequestExceeds};
ghost use Rattle.tow_model.specs.declared.limits.TheConstants.{MAX_HEAD_FIELDS, MAX_HEAD_LEN};
ghost use Rattle.tow_message.specs.Stream.{IsBlank, IsNoRequest};
ghost use Rattle.tow_request.specs.NextHead.{FindsHead, Tells};

use crate::NextHead;
use crate::refusals::{Refusal, refusal_of};
use crate::requests::{Place, copied_request};
use httparse::spans::{EMPTY_HEADER_SPAN, HeaderSpan, RequestSpans, parse_request};
use httparse::{Error, Status};
use std::alloc::Global;
use tow_model::limits::{MAX_HEAD_FIELDS, MAX_HEAD_LEN};
use tow_path::{Target3986, read_target};

/// Looks for a head at the front of an input, of which `bytes` have come; `ended` says that there are no more.
/// Takes memory for what the request keeps; a head that is refused takes none.
pub fn next_head(alloc: Global, bytes: &[u8], ended: bool, peer: u32) -> NextHead
    requires { length bytes.now ≤ MAX_HEAD_LEN }
    ensures tells { Tells bytes.now ended peer result }
    ensures found { FindsHead bytes.now peer result }
{
    if is_blank(bytes) {
        return if ended {
            NextHead::Nothing
        } else {
            NextHead::Partial
        };
    }
    let mut headers = [EMPTY_HEADER_SPAN; MAX_HEAD_FIELDS];
    match parse_request(bytes, &mut headers) {
        Ok(Status::Complete(head)) => look_at(alloc, bytes, &headers, head, peer),
        Ok(Status::Partial) => look_on(bytes, ended),
        Err(error) => match error {
            Error::TooManyHeaders => look_on(bytes, ended),
            _ => NextHead::Refuse(Refusal::NoHead.status()),
        },
    }
}

/// Whether the bytes are CR and LF alone, and leave room for a head after them.
fn is_blank(bytes: &[u8]) -> bool
    ensures { IsTrue result ↔ IsBlank bytes.now }
{
    bytes.len() < MAX_HEAD_LEN && bytes.iter().all(|b| *b == b'\r' || *b == b'\n')
}

/// The answer to the head of these spans.
fn look_at(
    alloc: Global,
    bytes: &[u8],
    headers: &[HeaderSpan],
    head: RequestSpans,
    peer: u32,
) -> NextHead
    requires bytes_fit { length bytes.now ≤ MAX_HEAD_LEN }
    requires lines_fit { length headers.now ≤ MAX_HEAD_FIELDS }
    requires within { IsRequestWithin bytes.now headers.now head }
    requires is_head { IsRequestOf bytes.now headers.now head }
    ensures tells { (ended : Bool) → Tells bytes.now ended peer result }
    ensures found { FindsHead bytes.now peer result }
{
    if let Some(refusal) = refusal_of(bytes, headers, head) {
        return NextHead::Refuse(refusal.status());
    }
    match read_target(alloc, head.method.of(bytes), head.path.of(bytes)) {
        Target3986::Parts { url, path, query } => {
            let place = Place { url, path, query };
            match copied_request(alloc, bytes, headers, head, place, peer) {
                Ok(request) => NextHead::Head(request, head.len),
                Err(_) => NextHead::NoMemory,
            }
        }
        // The form was asked for before: a head that is refused takes no memory, and reading the target does.
        Target3986::Bad => unreachable!(),
        Target3986::NoMemory => NextHead::NoMemory,
    }
}

/// The answer to bytes that begin with no head, and may go on to one.
fn look_on(bytes: &[u8], ended: bool) -> NextHead
    requires bytes_fit { length bytes.now ≤ MAX_HEAD_LEN }
    requires none { IsNoRequest bytes.now }
    requires open { MayBecomeRequest bytes.now ⊎ RequestExceeds MAX_HEAD_FIELDS bytes.now }
    ensures tells { (peer : ℕ) → Tells bytes.now ended peer result }
{
    if ended || bytes.len() == MAX_HEAD_LEN {
        NextHead::Refuse(Refusal::NoHead.status())
    } else {
        NextHead::Partial
    }
}
