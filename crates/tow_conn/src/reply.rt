//! What a site answers to a request.

ghost use Rattle.std.specs.Prelude.{◌≡◌, ◌<◌, ℕ, [], false, true, IfOk, IsTrue};
ghost use Rattle.tow_model.specs.Dates.{first_undated};
ghost use Rattle.tow_semantics.specs.Sites.{run_of};
ghost use Rattle.tow_site.specs.Built.{is_built};
ghost use Rattle.tow_site.specs.Compiled.{pattern_texts};
ghost use Rattle.tow_conn.specs.Conversations.{Answers};

use std::alloc::Global;
use tow_answer::{ContentUse, answer_to, text_of};
use tow_model::{Bytes, NoMemory, Request};
use tow_pred::Scratch;
use tow_site::{Site, outcome};

/// All that is written for a request, and whether the connection ends behind it.
#[derive(Debug, Drop)]
pub struct Reply {
    pub text: Bytes,
    pub closes: bool,
}

/// The reply of a site to request `number` at a moment in seconds since 1970.
pub fn reply_to(
    alloc: Global,
    site: &Site,
    scratch: &mut Scratch<'_>,
    request: &Request,
    number: u32,
    moment: u64,
) -> Result<Reply, NoMemory>
    requires built { IsTrue (is_built site.now.tree) }
    requires scratch { scratch.old ≡ pattern_texts site.now.tree }
    requires moment { moment < first_undated }
    ensures answers { IfOk result (λ r. (moments : ℕ → ℕ → ℕ) → moment ≡ moments 0 number
        → request.now.expects ≡ false
        → Answers (run_of site.now.tree [] moments) number request.now r.text r.closes) }
    ensures scratch { scratch.new ≡ scratch.old }
    ensures last { IfOk result (λ r. number ≡ 1000 → r.closes ≡ true) }
{
    let state = outcome(alloc, site, scratch, request, moment)?;
    let answer = answer_to(alloc, request, number, moment, ContentUse::Unasked, state)?;
    let text = text_of(alloc, request, &answer)?;
    Ok(Reply {
        text,
        closes: answer.close,
    })
}
