//! What a call stands for by the tables of predicates and handlers.

ghost use Rattle.std.specs.Prelude.{◌≡◌, ◌&&◌, Ok, IfOk, IfErr, nat_le};
ghost use Rattle.tow_model.specs.declared.limits.TheConstants.{MAX_LIMITS};
ghost use Rattle.tow_language.specs.Fit as fits;
ghost use Rattle.tow_fit.specs.Calls.{call_of, counts_of, parameters_of};
ghost use Rattle.tow_fit.specs.Faults.{Fails};
ghost use Rattle.tow_fit.specs.Making.{action_in, test_in};

mod acted;
mod bytes;
mod fields;
mod givens;
mod made;
mod numbers;
mod parameters;
mod paths;
mod rows;
mod segments;
mod templates;
mod texts;
mod unnamed;
mod values;

use crate::call::{Call, WrittenParameters};
use crate::counts::Counts;
use crate::fault::ParseFault;
use crate::fitting::acted::made_action;
use crate::fitting::givens::givens_of;
use crate::fitting::made::made_test;
use crate::fitting::rows::rows_in;
use std::alloc::Global;
use tow_language::{Handler, TestName};
use tow_model::limits::MAX_LIMITS;
use tow_model::{Action, Test};

/// The test that a call stands for by the table of predicates. Takes memory for its texts.
pub fn fitted_test(alloc: Global, call: Call, counts: &mut Counts) -> Result<Test, ParseFault>
    ensures ok { IfOk result (λ t. fits.fit_test (call_of call) (counts_of counts.old)
        ≡ Ok (t, counts_of counts.new)) }
    ensures err { IfErr result (λ e. Fails e (fits.fit_test (call_of call) (counts_of counts.old))) }
{
    let Call { name, parameters } = call;
    match TestName::named(name.bytes.as_slice()) {
        Some(test) => test_of(alloc, test, name.place, parameters, counts),
        None => Err(ParseFault::UnknownName(name.place)),
    }
}

fn test_of(
    alloc: Global,
    test: TestName,
    place: usize,
    parameters: WrittenParameters,
    counts: &mut Counts,
) -> Result<Test, ParseFault>
    ensures ok { IfOk result (λ t. test_in test place (parameters_of parameters)
        (counts_of counts.old)
        ≡ Ok (t, counts_of counts.new)) }
    ensures err { IfErr result (λ e. Fails e
        (test_in test place (parameters_of parameters) (counts_of counts.old))) }
{
    let rows = rows_in(test.signature().parameters);
    let givens = givens_of(alloc, rows, place, parameters)?;
    made_test(test, givens, counts)
}

/// The action that a call stands for by the table of handlers. Takes memory for its texts.
pub fn fitted_action(alloc: Global, call: Call, counts: &mut Counts) -> Result<Action, ParseFault>
    ensures ok { IfOk result (λ a. fits.fit_action (call_of call) (counts_of counts.old)
        ≡ Ok (a, counts_of counts.new)) }
    ensures err { IfErr result (λ e. Fails e
        (fits.fit_action (call_of call) (counts_of counts.old))) }
{
    let Call { name, parameters } = call;
    match Handler::named(name.bytes.as_slice()) {
        Some(handler) => action_of(alloc, handler, name.place, parameters, counts),
        None => Err(ParseFault::UnknownName(name.place)),
    }
}

fn action_of(
    alloc: Global,
    handler: Handler,
    place: usize,
    parameters: WrittenParameters,
    counts: &mut Counts,
) -> Result<Action, ParseFault>
    ensures ok { IfOk result (λ a. action_in handler place (parameters_of parameters)
        (counts_of counts.old)
        ≡ Ok (a, counts_of counts.new)) }
    ensures err { IfErr result (λ e. Fails e
        (action_in handler place (parameters_of parameters) (counts_of counts.old))) }
{
    let rows = rows_in(handler.signature().parameters);
    let givens = givens_of(alloc, rows, place, parameters)?;
    if is_full(handler, counts) {
        return Err(ParseFault::TooManyLimits(place));
    }
    made_action(handler, givens, counts)
}

/// Whether the handler is a limit, and there are as many as there may be.
fn is_full(handler: Handler, counts: &Counts) -> bool
    ensures { result ≡ (fits.is_limit handler && nat_le MAX_LIMITS counts.now.limits) }
{
    is_limit(handler) && counts.limits as usize >= MAX_LIMITS
}

fn is_limit(handler: Handler) -> bool
    ensures { result ≡ fits.is_limit handler }
{
    matches!(handler, Handler::RequestLimit)
}
