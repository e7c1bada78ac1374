//! The content of an exchange is gathered.

ghost use Rattle.std.specs.Prelude.{◌≡◌, ◌<◌, Bool, IfSome, ℕ, List, None, Option, Some};
ghost use Rattle.tow_model.specs.Dates.{first_undated};
ghost use Rattle.tow_model.specs.declared.statement.Statement.{Statement};
ghost use Rattle.tow_semantics.specs.Files.{Files};
ghost use Rattle.tow_exchange.specs.Exchanges.{content_given};
ghost use Rattle.tow_source.specs.Readings.{Reading};
ghost use Rattle.tow_content.specs.Gatherings.{Gathers};
ghost use Rattle.tow_program.specs.Programs.{program_of};
ghost use Rattle.tow_walks.specs.Sendable.{IsSendable};
ghost use Rattle.tow_progress.specs.Accounts.{Tally};
ghost use Rattle.tow_progress.specs.Progress.{Origin, Progress};
ghost use Rattle.tow_states.specs.Known.{Setting};
ghost use Rattle.tow_stages.specs.Answering.{AnswerBegins};
ghost use Rattle.tow_stages.specs.Gathering.{use_of};
ghost use Rattle.tow_stages.specs.Holding.{Holds};
ghost use Rattle.tow_stages.specs.Stages as model;
ghost use Rattle.tow_turns.specs.Data.{base_of, stage_of};
ghost use Rattle.tow_turns.specs.Nexts.{StepFits, end_in, rank};
ghost use Rattle.tow_turns.specs.Safe.{IsOpen, IsSafe};
ghost use Rattle.tow_turns.specs.Steps.{Leads};

use std::alloc::Global;
use tow_answer::ContentUse;
use tow_content::{Gathered, Gathering};
use tow_exchange::{Exchange, Phase};
use tow_model::{Content, End, Role};
use tow_peer::Link;
use tow_program::Program;
use tow_turns::{Asking, Base, Stage, Then, answer, ended_after, invite, work_of};

/// Tells the client to send the content, if that is due; else takes what came of it. Once it has come to its end, the exchange is
/// given it, and its answer is made. Takes memory for the content as it comes, and for the answer.
pub fn gather_on<L: Link>(
    alloc: Global,
    base: &mut Base<L>,
    program: &Program,
    asking: Asking,
) -> (Stage, Then)
    requires waits { asking.exchange.phase ≡ Phase.AwaitsContent }
    requires dated { asking.exchange.moment < first_undated }
    requires sendable { IsSendable None asking.exchange }
    requires reads { (r : Reading) × Gathers asking.gathering r }
    ensures steps { (s : Setting) → program.now ≡ program_of s.tree
        → Leads s (base_of L.shows base.old) (base_of L.shows base.new)
        (stage_of (Stage.Gathering asking)) (stage_of result.0) }
    ensures fits { (role : Role) (tree : List Statement) (told : Option Files) (n n' : ℕ)
        → IsSafe tree told (base_of L.shows base.old) (stage_of (Stage.Gathering asking))
        → StepFits role tree told n n' (base_of L.shows base.old) (base_of L.shows base.new)
        (stage_of (Stage.Gathering asking)) (stage_of result.0) result.1 }
{
    if asking.to_invite {
        return invite(base, asking);
    }
    let Asking {
        exchange,
        gathering,
        to_invite,
    } = asking;
    let mut gathering = gathering;
    match gathering.run(alloc, &mut base.port.input) {
        Gathered::Content(content) => (give(alloc, program, exchange, content), Then::On),
        Gathered::NotYet => {
            if base.port.ended && base.port.output.len() == 0 {
                let closing = work_of(alloc, program, exchange);
                return (ended_after(closing, End::Done), Then::On);
            }
            let then = if base.port.ended {
                Then::Write
            } else {
                Then::Read
            };
            let asking = Asking {
                exchange,
                gathering,
                to_invite,
            };
            (Stage::Gathering(asking), then)
        }
        Gathered::NoMemory => {
            let closing = work_of(alloc, program, exchange);
            (ended_after(closing, End::NoMemory), Then::On)
        }
    }
}

/// The exchange is given its content, and its answer is made. Takes memory for the answer.
fn give(alloc: Global, program: &Program, exchange: Exchange, content: Content) -> Stage
    requires waits { exchange.phase ≡ Phase.AwaitsContent }
    requires dated { exchange.moment < first_undated }
    requires sendable { IsSendable None exchange }
    ensures answers { (s : Setting) → program.now ≡ program_of s.tree
        → IsSendable (Some s.files) exchange
        → (failed : Bool) (o : Origin) (b : model.Base) (c : Progress) (t : Tally)
        → AnswerBegins failed s o b (content_given content exchange) (use_of content) c t
        → Holds failed s o b (stage_of result) c t }
    ensures safe { (tree : List Statement) (told : Option Files) (b : model.Base)
        → IsOpen tree told b exchange → IsSafe tree told b (stage_of result) }
    ensures near { rank (stage_of result) < 5 }
    ensures ends { IfSome (end_in (stage_of result)) (λ end. end ≡ End.NoMemory) }
{
    let content_use = content_use(&content);
    let mut exchange = exchange;
    exchange.give_content(content);
    answer(alloc, program, exchange, content_use)
}

/// What becomes of the content: one that is bad or too long is refused.
fn content_use(content: &Content) -> ContentUse
    ensures { result ≡ use_of content.now }
{
    match content {
        Content::Whole(_) => ContentUse::Served,
        Content::Bad | Content::TooLong => ContentUse::Refused,
    }
}
