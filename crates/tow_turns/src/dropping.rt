//! What follows an answer of which all was put.

ghost use Rattle.std.specs.Prelude.{◌≡◌, ℕ, List, [], None, Option, Some, if◌then◌else◌};
ghost use Rattle.tow_model.specs.declared.statement.Statement.{Statement};
ghost use Rattle.tow_semantics.specs.Files.{Files};
ghost use Rattle.tow_source.specs.Readings.{DrainsPipe, Onward};
ghost use Rattle.tow_content.specs.Sources.{ReadsContent};
ghost use Rattle.tow_states.specs.Known.{Setting};
ghost use Rattle.tow_stages.specs.Stages as model;
ghost use Rattle.tow_turns.specs.Contents.{DropsSome, IsNearer, ReadsSome};
ghost use Rattle.tow_turns.specs.Data.{base_of, stage_of};
ghost use Rattle.tow_turns.specs.Nexts.{StepFits};
ghost use Rattle.tow_turns.specs.Safe.{IsSafe};
ghost use Rattle.tow_turns.specs.Steps.{Leads};

use crate::base::Base;
use crate::deciding::ended_after;
use crate::role::is_loop;
use crate::stage::{Answering, Completing, Stage, Then};
use crate::turn::Turn;
use tow_closing::Closing;
use tow_content::ContentSource;
use tow_model::{End, Role};
use tow_peer::Link;
use tow_pipe::Pipe;
use tow_sending::Sending;
use tow_source::{Drain, Drained};

/// Once the link took the answer, a content that nobody asked for is dropped, and the exchange completes. That is an I/O loop's.
/// Takes no memory.
pub fn leave_on<L: Link>(base: &mut Base<L>, answering: Answering, role: Role) -> (Stage, Then)
    requires whole { answering.sending ≡ [] }
    requires reads { DropsSome answering.drain }
    ensures steps { (s : Setting) → Leads s (base_of L.shows base.old) (base_of L.shows base.new)
        (stage_of (Stage.Answering answering)) (stage_of result.0) }
    ensures fits { (tree : List Statement) (told : Option Files) (n n' : ℕ)
        → IsSafe tree told (base_of L.shows base.old) (stage_of (Stage.Answering answering))
        → StepFits role tree told n n' (base_of L.shows base.old) (base_of L.shows base.new)
        (stage_of (Stage.Answering answering)) (stage_of result.0) result.1 }
    ensures written { result.1 ≡ Then.Read → base.old.port.output.items ≡ [] }
{
    if !is_loop(role) {
        return (Stage::Answering(answering), Then::Stop(Turn::ToLoop));
    }
    if base.port.output.len() > 0 {
        return (Stage::Answering(answering), Then::Write);
    }
    let Answering {
        closing,
        sending,
        closes,
        drain,
    } = answering;
    match drain {
        Some(drain) => drop_on(base, closing, sending, closes, drain),
        None => (completes(closing, closes), Then::On),
    }
}

/// The listeners are to run, and the connection ends after them if its answer closes.
fn completes(closing: Closing, closes: bool) -> Stage
    ensures stage { stage_of result
        ≡ model.closing closing None (if closes then Some End.Done else None) }
{
    let owed = None;
    let end = if closes { Some(End::Done) } else { None };
    Stage::Closing(Completing { closing, owed, end })
}

/// Takes what came of a content that nobody asked for; more of it may have to be read. Takes no memory.
fn drop_on<L: Link>(
    base: &mut Base<L>,
    closing: Closing,
    sending: Sending,
    closes: bool,
    drain: Drain<ContentSource>,
) -> (Stage, Then)
    requires whole { sending ≡ [] }
    requires written { base.old.port.output.items ≡ [] }
    requires reads { ReadsSome drain.source }
    ensures steps { (s : Setting) → Leads s (base_of L.shows base.old) (base_of L.shows base.new)
        (model.answering closing sending closes (Some drain)) (stage_of result.0) }
    ensures fits { (role : Role) (tree : List Statement) (told : Option Files) (n n' : ℕ)
        → IsSafe tree told (base_of L.shows base.old)
        (model.answering closing sending closes (Some drain))
        → StepFits role tree told n n' (base_of L.shows base.old) (base_of L.shows base.new)
        (model.answering closing sending closes (Some drain)) (stage_of result.0) result.1 }
{
    let mut drain = drain;
    match drop_some(&mut base.port.input, &mut drain) {
        Drained::Whole => {
            let (owed, end) = (None, None);
            (Stage::Closing(Completing { closing, owed, end }), Then::On)
        }
        Drained::Bad | Drained::TooLong => (ended_after(closing, End::Done), Then::On),
        Drained::NotYet => {
            if base.port.ended {
                return (ended_after(closing, End::Done), Then::On);
            }
            let drain = Some(drain);
            (
                Stage::Answering(Answering {
                    closing,
                    sending,
                    closes,
                    drain,
                }),
                Then::Read,
            )
        }
    }
}

/// Takes what came of a content that nobody asked for. Takes no memory.
fn drop_some(pipe: &mut Pipe, drain: &mut Drain<ContentSource>) -> Drained
    requires reads { ReadsSome drain.old.source }
    ensures drains { Onward (ReadsContent drain.old.source) (ReadsContent drain.new.source)
        (DrainsPipe result pipe.old pipe.new) }
    ensures reads { ReadsSome drain.new.source }
    ensures capacity { pipe.new.capacity ≡ pipe.old.capacity }
    ensures all { result ≡ Drained.NotYet → pipe.new.items ≡ [] }
    ensures nearer { IsNearer pipe.old pipe.new }
{
    drain.run(pipe)
}
