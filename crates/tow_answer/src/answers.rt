//! The answer that the record of an exchange is, and its bytes.

ghost use Rattle.std.specs.Prelude.{◌≡◌, ◌<◌, ℕ, List, Option, IfOk};
ghost use Rattle.tow_model.specs.declared.content.Content.{Content};
ghost use Rattle.tow_wire.specs.Answers.{answer, answer_of};
ghost use Rattle.tow_model.specs.Dates.{first_undated};
ghost use Rattle.tow_semantics.specs.Runs.{Ending};
ghost use Rattle.tow_answer.specs.Uses.{IsUsed};

use crate::closes::closes;
use crate::content_use::ContentUse;
use crate::fields::{push_connection, push_date, push_length};
use crate::sorting::sorted;
use std::alloc::Global;
use tow_model::{Answer, Bytes, Choice, NoMemory, Record, Request};
use tow_render::head;

/// The answer to request `number` of its connection, whose exchange used the content so and ended with this record; its
/// moment is in seconds since 1970. Takes memory for the fields that the record does not have.
pub fn answer_to(
    alloc: Global,
    request: &Request,
    number: u32,
    moment: u64,
    content_use: ContentUse,
    state: Record,
) -> Result<Answer, NoMemory>
    requires { moment < first_undated }
    ensures answer { IfOk result (λ a. (content : Option Content) (o : Ending) → o.state ≡ state
        → IsUsed content_use content o → a ≡ answer_of request.now number moment content o) }
    ensures choice { IfOk result (λ a. a.choice ≡ state.choice) }
{
    let close = closes(request, number, content_use, &state.choice);
    let status = state.status;
    let choice = state.choice;
    let mut fields = state.fields.into_vec();
    push_date(alloc, &mut fields, moment)?;
    push_connection(alloc, &mut fields, request.version, close)?;
    push_length(alloc, &mut fields, status, request.version, &choice)?;
    let fields = sorted(alloc, fields)?;
    Ok(Answer {
        status,
        fields,
        choice,
        close,
    })
}

/// All the bytes of an answer without content. Takes memory for them.
pub fn text_of(alloc: Global, request: &Request, reply: &Answer) -> Result<Bytes, NoMemory>
    requires { reply.now.choice ≡ Choice.Empty }
    ensures { IfOk result (λ bytes. (file : List ℕ → List ℕ)
        → bytes ≡ answer file request.now reply.now) }
{
    head(alloc, reply.status, &reply.fields)
}
