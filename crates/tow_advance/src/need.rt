//! What an exchange that does not run needs.

ghost use Rattle.std.specs.Prelude.{◌≡◌, ◌≢◌, List, if◌then◌else◌, true};
ghost use Rattle.tow_advance.specs.Needs.{first_need, for_role};
ghost use Rattle.tow_advance.specs.Under.{plan_in};
ghost use Rattle.tow_advance.specs.declared.next.Next as next;
ghost use Rattle.tow_program.specs.declared.instruction.Instruction.{Instruction};

use crate::next::Next;
use std::alloc::Global;
use tow_exchange::{Exchange, Phase};
use tow_model::{Bytes, Role};

/// Whether the role hands on what is a worker's. Takes no memory.
pub(crate) fn hands_on(role: Role, is_for_worker: bool) -> bool
    ensures { (need : next.Next) → for_role role is_for_worker need
        ≡ (if result then Next.NeedWorker else need) }
{
    match role {
        Role::Loop(_) => is_for_worker,
        Role::Main | Role::Worker(_) => false,
    }
}

/// What an exchange that does not run needs. Takes memory for the location of a page.
pub(crate) fn need(alloc: Global, exchange: &Exchange, role: Role) -> Next
    requires waits { exchange.now.phase ≢ Phase.Running }
    ensures need { result ≢ Next.NoMemory → (program : List Instruction) → result
        ≡ first_need role (plan_in program exchange.now) }
    ensures open { result ≡ Next.NoMemory → exchange.now.phase ≢ Phase.Stopped }
{
    match exchange.phase() {
        Phase::Running => unreachable!(),
        Phase::AwaitsPage { location, listing } => page(alloc, location, *listing, role),
        _ if hands_on(role, exchange.dispatch().is_for_worker()) => Next::NeedWorker,
        Phase::AwaitsVerdict(limit) => Next::AskLimit(*limit),
        Phase::AwaitsContent => Next::NeedContent,
        Phase::Stopped => Next::Stop,
    }
}

/// A page, for which a loop needs a worker. Takes memory for the location.
fn page(alloc: Global, location: &Bytes, listing: bool, role: Role) -> Next
    ensures { result ≢ Next.NoMemory → result
        ≡ for_role role true (Next.NeedFolder location.now listing) }
{
    if hands_on(role, true) {
        return Next::NeedWorker;
    }
    match Bytes::from_slice(alloc, location.as_slice()) {
        Ok(location) => Next::NeedFolder { location, listing },
        Err(_) => Next::NoMemory,
    }
}
