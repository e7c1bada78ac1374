//! The listeners of an exchange run.

ghost use Rattle.std.specs.Prelude.{◌≡◌, ℕ, List, None, Option, Some};
ghost use Rattle.tow_model.specs.declared.statement.Statement.{Statement};
ghost use Rattle.tow_semantics.specs.Files.{Files};
ghost use Rattle.tow_closing.specs.Closings.{ClosingData, Does};
ghost use Rattle.tow_states.specs.Known.{Setting};
ghost use Rattle.tow_states.specs.Leaving.{left_in};
ghost use Rattle.tow_stages.specs.Stages as model;
ghost use Rattle.tow_turns.specs.Data.{base_of, stage_of};
ghost use Rattle.tow_turns.specs.Listeners.{IsTold, KeepsBase, Runs};
ghost use Rattle.tow_turns.specs.Logging.{KeepsFaults, LeadsTelling};
ghost use Rattle.tow_turns.specs.Nexts.{StepFits};
ghost use Rattle.tow_turns.specs.Roles.{IsLoop};
ghost use Rattle.tow_turns.specs.Safe.{IsSafe};

use crate::base::Base;
use crate::stage::{Completing, Stage, Then};
use crate::turn::Turn;
use tow_closing::{Closing, Work};
use tow_host::{LogSink, Put};
use tow_model::{Bytes, End, Role};
use tow_peer::Link;

/// Runs the listeners that are left, up to one that leaves a limit; if none is left, the next head is read, or the connection
/// ends. That is an I/O loop's. Takes no memory.
pub fn close_on<L: Link, G: LogSink>(
    base: &mut Base<L>,
    completing: Completing,
    log: &mut G,
) -> (Stage, Then)
    ensures steps { (s : Setting) → LeadsTelling (Some (G.shows log.old))
        (Some (G.shows log.new)) s (base_of L.shows base.old) (base_of L.shows base.new)
        (stage_of (Stage.Closing completing)) (stage_of result.0) }
    ensures fits { (role : Role) (tree : List Statement) (told : Option Files) (n n' : ℕ)
        → IsLoop role
        → IsSafe tree told (base_of L.shows base.old) (stage_of (Stage.Closing completing))
        → StepFits role tree told n n' (base_of L.shows base.old) (base_of L.shows base.new)
        (stage_of (Stage.Closing completing)) (stage_of result.0) result.1 }
    ensures faults { KeepsFaults base.old.number (Some (G.shows log.old))
        (Some (G.shows log.new)) }
{
    let mut completing = completing;
    'listeners: loop {
        let (stage, then) = close_by(base, completing, log);
        let Then::On = then else {
            return (stage, then);
        };
        match stage {
            Stage::Closing(next) => completing = next,
            other => return (other, then),
        }
    }
}

/// Runs the next listener, once no limit is to be left first.
fn close_by<L: Link, G: LogSink>(
    base: &mut Base<L>,
    completing: Completing,
    log: &mut G,
) -> (Stage, Then)
    ensures steps { (s : Setting) → LeadsTelling (Some (G.shows log.old))
        (Some (G.shows log.new)) s (base_of L.shows base.old) (base_of L.shows base.new)
        (stage_of (Stage.Closing completing)) (stage_of result.0) }
    ensures runs { Runs (left_in completing.owed completing.closing) completing.end result.0 result.1 }
    ensures base { KeepsBase (base_of L.shows base.old) (base_of L.shows base.new) }
    ensures faults { KeepsFaults base.old.number (Some (G.shows log.old))
        (Some (G.shows log.new)) }
{
    let Completing { closing, owed, end } = completing;
    match owed {
        Some(limit) => {
            let completing = Completing { closing, owed, end };
            (Stage::Closing(completing), Then::Stop(Turn::Release(limit)))
        }
        None => run_next(base, closing, end, log),
    }
}

/// Runs the next listener; if none is left, goes on to what follows.
fn run_next<L: Link, G: LogSink>(
    base: &mut Base<L>,
    closing: Closing,
    end: Option<End>,
    log: &mut G,
) -> (Stage, Then)
    ensures steps { (s : Setting) → LeadsTelling (Some (G.shows log.old))
        (Some (G.shows log.new)) s (base_of L.shows base.old) (base_of L.shows base.new)
        (model.closing closing None end) (stage_of result.0) }
    ensures runs { Runs closing.completed.left end result.0 result.1 }
    ensures base { KeepsBase (base_of L.shows base.old) (base_of L.shows base.new) }
    ensures faults { KeepsFaults base.old.number (Some (G.shows log.old))
        (Some (G.shows log.new)) }
{
    let mut closing = closing;
    match closing.next() {
        Some(Work::Leave(limit)) => {
            let owed = Some(limit);
            (
                Stage::Closing(Completing { closing, owed, end }),
                Then::Stop(Turn::Release(limit)),
            )
        }
        Some(Work::Tell { number, line }) => {
            (tell(base, closing, end, number, line, log), Then::On)
        }
        None => match end {
            None => (Stage::Reading, Then::On),
            Some(end) => (Stage::Ended(end), Then::On),
        },
    }
}

/// Puts the line into the log, if no line of the connection was lost before. If there was no memory for it, the connection ends
/// of that.
fn tell<L: Link, G: LogSink>(
    base: &mut Base<L>,
    closing: Closing,
    end: Option<End>,
    number: u32,
    line: Option<Bytes>,
    log: &mut G,
) -> Stage
    ensures steps { (s : Setting) (d : ClosingData) → Does (Work.Tell number line) d closing
        → closing.lost ≡ d.lost → LeadsTelling (Some (G.shows log.old)) (Some (G.shows log.new)) s
        (base_of L.shows base.old) (base_of L.shows base.new) (model.closing d None end)
        (stage_of result) }
    ensures told { IsTold closing end result }
    ensures base { KeepsBase (base_of L.shows base.old) (base_of L.shows base.new) }
    ensures faults { KeepsFaults base.old.number (Some (G.shows log.old))
        (Some (G.shows log.new)) }
{
    let owed = None;
    let Some(line) = line else {
        base.silent = true;
        let end = Some(End::NoMemory);
        return Stage::Closing(Completing { closing, owed, end });
    };
    if base.silent {
        return Stage::Closing(Completing { closing, owed, end });
    }
    match log.put(base.number, base.begun, number, line.as_slice()) {
        Put::Stored => Stage::Closing(Completing { closing, owed, end }),
        Put::Failed => {
            base.silent = true;
            Stage::Closing(Completing { closing, owed, end })
        }
    }
}
