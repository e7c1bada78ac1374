//! A verdict of a limit comes, or the leaving of a limit is noted.

ghost use Rattle.std.specs.Prelude.{ℕ, List, Option};
ghost use Rattle.tow_model.specs.declared.statement.Statement.{Statement};
ghost use Rattle.tow_semantics.specs.Files.{Files};
ghost use Rattle.tow_states.specs.Known.{Setting};
ghost use Rattle.tow_turns.specs.Data.{base_of, stage_of};
ghost use Rattle.tow_turns.specs.Nexts.{AsksLimit, OwesLimit};
ghost use Rattle.tow_turns.specs.Safe.{IsSafe};
ghost use Rattle.tow_turns.specs.Steps.{Leads};
ghost use Rattle.tow_by_turns.specs.Limits.{AsksSome, Calls, HasPlace, Notes, OwesSome};
ghost use Rattle.tow_by_turns.specs.Conns.{base_in, stage_in};

use crate::conn::Conn;
use std::mem;
use tow_exchange::{Exchange, Phase};
use tow_model::{Call, Verdict, What};
use tow_peer::Link;
use tow_turns::{Base, Completing, Stage};

impl<L: Link> Conn<L> {
    /// The limit that it waits for has decided so. Takes no memory.
    pub fn verdict(&mut self, verdict: Verdict)
        requires waits { AsksSome (stage_in self.old) }
        requires place { HasPlace self.old.base }
        ensures steps { (s : Setting) → Leads s (base_in L.shows self.old) (base_in L.shows self.new)
            (stage_in self.old) (stage_in self.new) }
        ensures safe { (tree : List Statement) (told : Option Files)
            → IsSafe tree told (base_in L.shows self.old) (stage_in self.old)
            → IsSafe tree told (base_in L.shows self.new) (stage_in self.new) }
        ensures calls { (limit : ℕ) → AsksLimit limit (stage_in self.old)
            → Calls limit (What.Enter verdict) self.old self.new }
    {
        let stage = mem::replace(&mut self.stage, Stage::Reading);
        let Stage::Walking(exchange) = stage else {
            unreachable!();
        };
        self.stage = hear(&mut self.base, exchange, verdict);
    }

    /// The limit that it had to leave was left. Takes no memory.
    pub fn released(&mut self)
        requires owes { OwesSome (stage_in self.old) }
        requires place { HasPlace self.old.base }
        ensures steps { (s : Setting) → Leads s (base_in L.shows self.old) (base_in L.shows self.new)
            (stage_in self.old) (stage_in self.new) }
        ensures safe { (tree : List Statement) (told : Option Files)
            → IsSafe tree told (base_in L.shows self.old) (stage_in self.old)
            → IsSafe tree told (base_in L.shows self.new) (stage_in self.new) }
        ensures calls { (limit : ℕ) → OwesLimit limit (stage_in self.old)
            → Calls limit What.Leave self.old self.new }
    {
        let stage = mem::replace(&mut self.stage, Stage::Reading);
        let Stage::Closing(completing) = stage else {
            unreachable!();
        };
        self.stage = leave(&mut self.base, completing);
    }
}

/// The exchange goes on by the verdict, which is noted.
fn hear<L: Link>(base: &mut Base<L>, exchange: Exchange, verdict: Verdict) -> Stage
    requires waits { AsksSome (stage_of (Stage.Walking exchange)) }
    requires place { HasPlace base.old }
    ensures steps { (s : Setting) → Leads s (base_of L.shows base.old) (base_of L.shows base.new)
        (stage_of (Stage.Walking exchange)) (stage_of result) }
    ensures safe { (tree : List Statement) (told : Option Files)
        → IsSafe tree told (base_of L.shows base.old) (stage_of (Stage.Walking exchange))
        → IsSafe tree told (base_of L.shows base.new) (stage_of result) }
    ensures notes { (limit : ℕ) → AsksLimit limit (stage_of (Stage.Walking exchange))
        → Notes limit (What.Enter verdict) base.old base.new }
{
    let &Phase::AwaitsVerdict(limit) = exchange.phase() else {
        unreachable!();
    };
    note(base, limit, What::Enter(verdict));
    let mut exchange = exchange;
    exchange.give_verdict(verdict);
    Stage::Walking(exchange)
}

/// The next listener may run, and the leaving is noted.
fn leave<L: Link>(base: &mut Base<L>, completing: Completing) -> Stage
    requires owes { OwesSome (stage_of (Stage.Closing completing)) }
    requires place { HasPlace base.old }
    ensures steps { (s : Setting) → Leads s (base_of L.shows base.old) (base_of L.shows base.new)
        (stage_of (Stage.Closing completing)) (stage_of result) }
    ensures safe { (tree : List Statement) (told : Option Files)
        → IsSafe tree told (base_of L.shows base.old) (stage_of (Stage.Closing completing))
        → IsSafe tree told (base_of L.shows base.new) (stage_of result) }
    ensures notes { (limit : ℕ) → OwesLimit limit (stage_of (Stage.Closing completing))
        → Notes limit What.Leave base.old base.new }
{
    let Completing { closing, owed, end } = completing;
    let Some(limit) = owed else {
        unreachable!();
    };
    note(base, limit, What::Leave);
    let owed = None;
    Stage::Closing(Completing { closing, owed, end })
}

/// Notes a call of a limit for the open request, for which there is a place.
fn note<L: Link>(base: &mut Base<L>, limit: u32, what: What)
    requires place { HasPlace base.old }
    ensures { Notes limit what base.old base.new }
{
    let call = Call {
        limit,
        request: base.begun,
        what,
    };
    let Ok(()) = base.calls.push(call) else {
        unreachable!();
    };
}
