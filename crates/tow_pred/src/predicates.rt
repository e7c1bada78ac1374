//! Predicates.

ghost use Rattle.std.specs.Prelude.{◌≡◌, ◌<◌, IfOk, IsTrue};
ghost use Rattle.std.specs.Result.{is_ok};
ghost use Rattle.tow_model.specs.Dates.{first_undated};
ghost use Rattle.tow_semantics.specs.Predicates.{AreAmong, holds_of, patterns_in};
ghost use Rattle.tow_pred.specs.Memory.{is_plain};

use crate::conditions::passes;
use crate::scratch::Scratch;
use std::alloc::Global;
use tow_model::{NoMemory, Predicate, Record, Request};

/// Whether the predicate holds of a request and the record of its exchange, from the left to the right; the right side of
/// `and` and `or` is looked at only if the left one decides nothing. What a test that holds binds stands in the context
/// from then on, also if the whole does not hold. The moment is in seconds since 1970. Takes memory for the values of
/// templates and for bindings; if it is short, nothing but the context may have changed. A predicate of
/// `true`, `false`, `path`, `path-suffix` and `method` alone takes none.
pub fn holds(
    alloc: Global,
    scratch: &mut Scratch<'_>,
    predicate: &Predicate,
    request: &Request,
    state: &mut Record,
    moment: u64,
) -> Result<bool, NoMemory>
    requires dated { moment < first_undated }
    requires among { AreAmong (patterns_in predicate.now) scratch.old }
    ensures holds { IfOk result (λ b. holds_of predicate.now request.now state.old moment
        ≡ record { holds = b; state = state.new }) }
    ensures scratch { scratch.new ≡ scratch.old }
    ensures rest { state.new ≡ record state.old { context = state.new.context } }
    ensures listeners { state.new.listeners ≡ state.old.listeners }
    ensures plain { IsTrue (is_plain predicate.now) → IsTrue (is_ok result) }
{
    match predicate {
        Predicate::Is(test) => passes(alloc, scratch, test, request, state, moment),
        Predicate::Not(negated) => {
            let held = holds(alloc, scratch, negated.get(), request, state, moment)?;
            Ok(!held)
        }
        Predicate::And(left, right) => {
            if holds(alloc, scratch, left.get(), request, state, moment)? {
                holds(alloc, scratch, right.get(), request, state, moment)
            } else {
                Ok(false)
            }
        }
        Predicate::Or(left, right) => {
            if holds(alloc, scratch, left.get(), request, state, moment)? {
                Ok(true)
            } else {
                holds(alloc, scratch, right.get(), request, state, moment)
            }
        }
    }
}
