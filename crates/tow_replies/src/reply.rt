//! What is sent for an exchange that completed.

ghost use Rattle.std.specs.Prelude.{◌≡◌, ◌<◌, Option, IfOk};
ghost use Rattle.tow_model.specs.Dates.{first_undated};
ghost use Rattle.tow_model.specs.declared.content.Content.{Content};
ghost use Rattle.tow_semantics.specs.Files.{Files};
ghost use Rattle.tow_semantics.specs.Runs.{Ending};
ghost use Rattle.tow_wire.specs.Answers.{answer_of};
ghost use Rattle.tow_answer.specs.Uses.{IsUsed};
ghost use Rattle.tow_sending.specs.Pieces.{HasFile, HasParts, IsAskable};
ghost use Rattle.tow_replies.specs.Replies.{FitPipe, RepliesBy, Sends};

use std::alloc::Global;
use tow_answer::{ContentUse, answer_to};
use tow_exchange::Completed;
use tow_model::{NoMemory, Record, Request};
use tow_sending::Sending;

/// What is sent, and whether the connection ends after it.
#[derive(Debug, Drop)]
pub struct Reply {
    pub sending: Sending,
    pub closes: bool,
}

/// The reply of an exchange that completed, and used the content of its request so. Its record, which was taken out of it,
/// goes on into the answer. Each piece of it fits an empty pipe of `PIPE_LEN` bytes. Takes memory for the fields that the
/// record does not have, and as `Sending::new` does; no content is copied.
pub fn reply_to(
    alloc: Global,
    completed: &Completed,
    content_use: ContentUse,
    state: Record,
) -> Result<Reply, NoMemory>
    requires dated { completed.now.moment < first_undated }
    requires askable { IsAskable state.choice }
    ensures reply { IfOk result (λ reply. RepliesBy content_use completed.now state reply.sending
        reply.closes) }
    ensures there { (files : Files) → HasFile files state.choice
        → IfOk result (λ reply. HasParts files reply.sending) }
    ensures fit { IfOk result (λ reply. FitPipe reply.sending) }
{
    reply_with(
        alloc,
        completed.request(),
        completed.number(),
        completed.moment(),
        content_use,
        state,
    )
}

/// The reply to request `number` of its connection, whose exchange used the content so and ended with this record.
fn reply_with(
    alloc: Global,
    request: &Request,
    number: u32,
    moment: u64,
    content_use: ContentUse,
    state: Record,
) -> Result<Reply, NoMemory>
    requires dated { moment < first_undated }
    requires askable { IsAskable state.choice }
    ensures reply { IfOk result (λ reply. (content : Option Content) (o : Ending) → o.state ≡ state
        → IsUsed content_use content o → Sends request.now
        (answer_of request.now number moment content o) reply.sending reply.closes) }
    ensures there { (files : Files) → HasFile files state.choice
        → IfOk result (λ reply. HasParts files reply.sending) }
    ensures fit { IfOk result (λ reply. FitPipe reply.sending) }
{
    let answer = answer_to(alloc, request, number, moment, content_use, state)?;
    let closes = answer.close;
    let sending = Sending::new(alloc, request, answer)?;
    Ok(Reply { sending, closes })
}
