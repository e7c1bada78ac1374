//! A connection that is served by turns.

ghost use Rattle.std.specs.Prelude.{◌≡◌, ℕ, Bool, IfErr, IfOk, List, Option, true};
ghost use Rattle.tow_model.specs.declared.statement.Statement.{Statement};
ghost use Rattle.tow_semantics.specs.Files.{Files};
ghost use Rattle.tow_progress.specs.Accounts.{Tally, no_calls};
ghost use Rattle.tow_progress.specs.Ended.{EndedUnder, Seen};
ghost use Rattle.tow_progress.specs.Progress.{Origin, Progress, opening};
ghost use Rattle.tow_states.specs.Known.{Setting};
ghost use Rattle.tow_stages.specs.Holding.{Holds};
ghost use Rattle.tow_stages.specs.Stages as model;
ghost use Rattle.tow_turns.specs.Safe.{IsSafe};
ghost use Rattle.tow_by_turns.specs.Begins.{HasEnded, IsAccountOf, IsNew, IsSeenAfter, IsUnused};
ghost use Rattle.tow_by_turns.specs.Conns.{base_in, stage_in};

use std::alloc::Global;
use tow_model::{Account, End, List, Role};
use tow_peer::Link;
use tow_port::Port;
use tow_turns::{Base, Stage};

/// How many places for hops a new connection has: the first loop's and main's.
const FIRST_HOPS: usize = 2;

/// A connection that is served by turns: how far it has come, and who held it.
#[derive(Drop)]
pub struct Conn<L> {
    pub base: Base<L>,
    pub stage: Stage,
    /// Who held it, one after the other.
    pub hops: Vec<Role>,
}

impl<L: Link> Conn<L> {
    /// Connection `k`, from 0, over a link that was not used. Takes memory for both pipes, 65,536 bytes each, and for two hops; if it
    /// is short, the link is handed back untouched.
    pub fn new(alloc: Global, k: u32, link: L) -> Result<Conn<L>, L>
        ensures new { IfOk result (λ conn. IsNew k link conn) }
        ensures begins { IfOk result (λ conn. (failed : Bool) (s : Setting) (peer : ℕ) (input : List ℕ)
            → IsUnused (L.shows link) peer input
            → Holds failed s (record { number = k; peer = peer; input = input })
            (base_in L.shows conn) (stage_in conn) (opening k peer input) (no_calls true)) }
        ensures safe { IfOk result (λ conn. (tree : List Statement) (told : Option Files)
            → IsSafe tree told (base_in L.shows conn) (stage_in conn)) }
        ensures back { IfErr result (λ back. back ≡ link) }
    {
        let mut hops = Vec::new(alloc);
        let Ok(()) = hops.reserve(FIRST_HOPS) else {
            return Err(link);
        };
        let port = Port::new(alloc, link)?;
        let base = Base {
            number: k,
            begun: 0,
            port,
            calls: Vec::new(alloc),
            silent: false,
        };
        Ok(Conn {
            base,
            stage: Stage::Reading,
            hops,
        })
    }

    /// Its number, from 0.
    pub fn number(&self) -> u32
        ensures { result ≡ self.now.base.number }
    {
        self.base.number
    }

    /// How many of its requests were begun: the number of the open one, from 1, if there is one.
    pub fn request(&self) -> u32
        ensures { result ≡ self.now.base.begun }
    {
        self.base.begun
    }

    /// Its link, and what it tells of itself once it has ended. Takes no memory.
    pub fn finish(self) -> (L, Account)
        requires { HasEnded (stage_in self) }
        ensures link { result.0 ≡ self.base.port.link }
        ensures account { (end : End) → stage_in self ≡ model.ended end
            → IsAccountOf self end result.1 }
        ensures ended { (failed : Bool) (s : Setting) (o : Origin) (c : Progress) (t : Tally)
            → Holds failed s o (base_in L.shows self) (stage_in self) c t → (seen : Seen)
            → IsSeenAfter failed c t result.1 seen
            → EndedUnder s.tree s.files s.moments o.number o.peer o.input seen }
    {
        let Conn { base, stage, hops } = self;
        let Stage::Ended(end) = stage else {
            unreachable!();
        };
        let account = Account {
            end,
            exchanges: base.begun,
            calls: List::from_vec(base.calls),
            hops: List::from_vec(hops),
        };
        (base.port.link, account)
    }
}
