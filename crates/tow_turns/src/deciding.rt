//! From an exchange whose walk is over to its answer, or to its closing work.

ghost use Rattle.std.specs.Prelude.{◌≡◌, ◌<◌, Bool, IfSome, List, None, Option, Some, reverse};
ghost use Rattle.tow_model.specs.Dates.{first_undated};
ghost use Rattle.tow_model.specs.declared.statement.Statement.{Statement};
ghost use Rattle.tow_semantics.specs.Files.{Files};
ghost use Rattle.tow_exchange.specs.Completions.{completion};
ghost use Rattle.tow_exchange.specs.Exchanges.{ExchangeData};
ghost use Rattle.tow_sending.specs.Pieces.{HasFile, IsAskable};
ghost use Rattle.tow_progress.specs.Accounts.{Tally};
ghost use Rattle.tow_progress.specs.Progress.{Origin, Progress};
ghost use Rattle.tow_program.specs.Programs.{program_of};
ghost use Rattle.tow_states.specs.Calling.{HasPlacesFor};
ghost use Rattle.tow_states.specs.Closing.{IsWorkOf};
ghost use Rattle.tow_states.specs.Known.{Setting};
ghost use Rattle.tow_stages.specs.Answering.{AnswerBegins, IsDrainFor};
ghost use Rattle.tow_stages.specs.Holding.{Holds};
ghost use Rattle.tow_stages.specs.Stages as model;
ghost use Rattle.tow_turns.specs.Data.{stage_of};
ghost use Rattle.tow_turns.specs.Nexts.{end_in, rank};
ghost use Rattle.tow_turns.specs.Safe.{IsSafe, calls_of};

use crate::stage::{Answering, Completing, Stage};
use std::alloc::Global;
use tow_answer::ContentUse;
use tow_closing::Closing;
use tow_content::ContentSource;
use tow_exchange::Exchange;
use tow_model::{End, Framing, NoMemory};
use tow_program::Program;
use tow_replies::{Reply, reply_to};
use tow_source::Drain;

/// The answer of an exchange that has stopped is to be put. Takes memory for the lines of its logs and for the answer; if that
/// is short, the connection is cut.
pub fn answer(
    alloc: Global,
    program: &Program,
    exchange: Exchange,
    content_use: ContentUse,
) -> Stage
    requires dated { exchange.moment < first_undated }
    requires askable { IsAskable exchange.stand.state.choice }
    ensures answers { (s : Setting) → program.now ≡ program_of s.tree
        → HasFile s.files exchange.stand.state.choice
        → (failed : Bool) (o : Origin) (b : model.Base) (c : Progress) (t : Tally)
        → AnswerBegins failed s o b exchange content_use c t
        → Holds failed s o b (stage_of result) c t }
    ensures safe { (tree : List Statement) (told : Option Files) (b : model.Base)
        → IfSome told (λ files. HasFile files exchange.stand.state.choice)
        → HasPlacesFor b.room (calls_of b) (reverse exchange.stand.state.listeners)
        → IsSafe tree told b (stage_of result) }
    ensures near { rank (stage_of result) < 5 }
    ensures ends { IfSome (end_in (stage_of result)) (λ end. end ≡ End.NoMemory) }
{
    let framing = exchange.request().framing;
    let mut closing = work_of(alloc, program, exchange);
    let state = closing.take_record(alloc);
    match reply_to(alloc, closing.completed(), content_use, state) {
        Ok(reply) => {
            let Reply { sending, closes } = reply;
            let drain = drain_for(content_use, framing, closes);
            Stage::Answering(Answering {
                closing,
                sending,
                closes,
                drain,
            })
        }
        Err(NoMemory) => ended_after(closing, End::NoMemory),
    }
}

/// The drain of a content that was not asked for, if the connection may go on behind it. Takes no memory.
fn drain_for(
    content_use: ContentUse,
    framing: Framing,
    closes: bool,
) -> Option<Drain<ContentSource>>
    ensures { (e : ExchangeData) → e.request.framing ≡ framing
        → IsDrainFor content_use e closes result }
{
    match content_use {
        ContentUse::Served | ContentUse::Refused => None,
        ContentUse::Unasked => {
            if closes {
                return None;
            }
            Some(Drain::new(ContentSource::new(framing)))
        }
    }
}

/// The listeners of an exchange, with the lines that they tell. Takes memory for the lines.
pub fn work_of(alloc: Global, program: &Program, exchange: Exchange) -> Closing
    requires dated { exchange.moment < first_undated }
    ensures work { (tree : List Statement) → program.now ≡ program_of tree
        → IsWorkOf tree exchange result }
    ensures completed { result.completed ≡ completion exchange }
{
    Closing::new(alloc, program, exchange)
}

/// The listeners are to run, and then the connection ends so.
pub fn ended_after(closing: Closing, end: End) -> Stage
    ensures stage { stage_of result ≡ model.closing closing None (Some end) }
{
    Stage::Closing(Completing {
        closing,
        owed: None,
        end: Some(end),
    })
}
