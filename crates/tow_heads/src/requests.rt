//! The next request of an input.

ghost use Rattle.std.specs.Prelude.{◌≡◌, ◌≤◌, ◌<◌, ℕ, List, [], true, false, length};
ghost use Rattle.tow_model.specs.declared.limits.TheConstants.{MAX_HEAD_LEN};
ghost use Rattle.tow_message.specs.Heads.{HasNoHead};
ghost use Rattle.tow_request.specs.NextHead.{MayGoOn};
ghost use Rattle.tow_heads.specs.NextRequests.{GoesOnWith};

use crate::unserved::is_unserved;
use std::alloc::Global;
use tow_model::Request;
use tow_request::{NextHead, next_head};

/// What an input goes on with, of which the first bytes have come.
#[derive(Debug, Drop)]
pub enum NextRequest {
    /// A request that is served, whose head is so many of the first bytes.
    Request(Request, usize),
    /// No head has come whole, and none is refused: more is to be read.
    More,
    /// Nothing more is asked.
    Nothing,
    /// The next head is refused with this status.
    Refuse(u16),
    NoMemory,
}

/// What an input goes on with, of which `bytes` have come; `ended` says that there are no more. Takes memory for what the
/// request keeps.
pub fn next_request(alloc: Global, bytes: &[u8], ended: bool, peer: u32) -> NextRequest
    requires { length bytes.now ≤ MAX_HEAD_LEN }
    ensures reads { (left : List ℕ) → (ended ≡ true → left ≡ [])
        → GoesOnWith peer bytes.now left result }
    ensures more { result ≡ NextRequest.More
        → (ended ≡ false) × (length bytes.now < MAX_HEAD_LEN) × HasNoHead bytes.now }
    ensures waits { result ≡ NextRequest.More → MayGoOn bytes.now }
{
    match next_head(alloc, bytes, ended, peer) {
        NextHead::Head(request, used) => {
            if is_unserved(&request) {
                NextRequest::Refuse(501)
            } else {
                NextRequest::Request(request, used)
            }
        }
        NextHead::Partial => NextRequest::More,
        NextHead::Nothing => NextRequest::Nothing,
        NextHead::Refuse(status) => NextRequest::Refuse(status),
        NextHead::NoMemory => NextRequest::NoMemory,
    }
}
