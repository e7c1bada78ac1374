//! Exchanges that go on under a site.

ghost use Rattle.std.specs.Prelude.{◌≡◌, ◌≢◌, ◌<◌, ◌≤◌, Bool, ℕ};
ghost use Rattle.tow_model.specs.Dates.{first_undated};
ghost use Rattle.tow_model.specs.Texts.{Text};
ghost use Rattle.tow_advance.specs.Moves.{AddsLogs, IsUnchosen, NamesNoFile, walk_left};
ghost use Rattle.tow_advance.specs.Needs.{IsUnderWay, StaysForWorker, need_in};
ghost use Rattle.tow_advance.specs.Under.{plan_in};
ghost use Rattle.tow_advance.specs.declared.next.Next as next;
ghost use Rattle.tow_exchange.specs.declared.phase.Phase as phase;
ghost use Rattle.tow_program.specs.Programs.{program_of};
ghost use Rattle.tow_site.specs.Compiled.{pattern_texts};

use crate::site::Site;
use std::alloc::Global;
use tow_advance::Next;
use tow_exchange::{Exchange, Phase};
use tow_model::Role;
use tow_pred::Scratch;

/// Goes on with an exchange under the site until it needs something, which the role decides with its plan. Its plan stays
/// the same, so that the steps of a walk may be split between roles in any way. A loop takes no step after a `blocking`.
/// The scratch was made of the site's tests. Takes memory for values, bindings and what actions write; if it is short,
/// the listeners are those that were added so far, and no answer is decided. Listeners are only added, and logs alone. No
/// file becomes its content, which a page alone can do.
pub fn advance(
    alloc: Global,
    site: &Site,
    scratch: &mut Scratch<'_>,
    exchange: &mut Exchange,
    role: Role,
) -> Next
    requires dated { exchange.old.moment < first_undated }
    requires scratch { scratch.old ≡ pattern_texts site.now.tree }
    ensures need { result ≢ Next.NoMemory
        → result ≡ need_in (program_of site.now.tree) role exchange.old }
    ensures plan { result ≢ Next.NoMemory → plan_in (program_of site.now.tree) exchange.new
        ≡ plan_in (program_of site.now.tree) exchange.old }
    ensures stop { result ≡ Next.Stop → exchange.new.phase ≡ Phase.Stopped }
    ensures limit { (limit : ℕ) → result ≡ Next.AskLimit limit
        → exchange.new.phase ≡ Phase.AwaitsVerdict limit }
    ensures content { result ≡ Next.NeedContent → exchange.new.phase ≡ Phase.AwaitsContent }
    ensures page { (location : Text) (listing : Bool) → result ≡ Next.NeedFolder location listing
        → exchange.new.phase ≡ Phase.AwaitsPage location listing }
    ensures stays { StaysForWorker role exchange.old.stand.mark exchange.old exchange.new }
    ensures no_memory { result ≡ Next.NoMemory
        → IsUnderWay (program_of site.now.tree) exchange.old exchange.new }
    ensures open { result ≡ Next.NoMemory → exchange.new.phase ≢ Phase.Stopped }
    ensures adds { AddsLogs exchange.old.stand.state.listeners exchange.new.stand.state.listeners }
    ensures unchosen { IsUnchosen exchange.old → IsUnchosen exchange.new }
    ensures unfiled { NamesNoFile exchange.old → NamesNoFile exchange.new }
    ensures nearer { walk_left (program_of site.now.tree) exchange.new
        ≤ walk_left (program_of site.now.tree) exchange.old }
    ensures connection { exchange.new.connection ≡ exchange.old.connection }
    ensures number { exchange.new.number ≡ exchange.old.number }
    ensures request { exchange.new.request ≡ exchange.old.request }
    ensures moment { exchange.new.moment ≡ exchange.old.moment }
    ensures scratch { scratch.new ≡ scratch.old }
{
    tow_advance::advance(alloc, scratch, site.program(), exchange, role)
}
