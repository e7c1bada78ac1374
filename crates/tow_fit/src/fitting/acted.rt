//! The action of a handler's call, from what its parameters stand for.

ghost use Rattle.std.specs.Prelude.{◌≡◌, ◌∷◌, [], length, IfErr, IfOk};
ghost use Rattle.tow_language.specs.declared.table.Given.TheVariants as givens;
ghost use Rattle.tow_language.specs.declared.table.Handler.TheVariants as handlers;
ghost use Rattle.tow_language.specs.Fit as fits;
ghost use Rattle.tow_language.specs.Table as table;
ghost use Rattle.tow_fit.specs.Calls.{counts_of};
ghost use Rattle.tow_fit.specs.Making.{givens_list};

use crate::counts::Counts;
use crate::fault::ParseFault;
use crate::fitting::givens::Givens;
use tow_language::{Given, Handler};
use tow_model::{Action, Template};

/// The action of this name; by the table the parameters fit it. Takes no memory.
pub(crate) fn made_action(
    handler: Handler,
    givens: Givens,
    counts: &mut Counts,
) -> Result<Action, ParseFault>
    requires { length (givens_list givens) ≡ length (table.handler_parameters handler) }
    ensures ok { IfOk result (λ a. fits.made_action handler (givens_list givens)
        (counts_of counts.old)
        ≡ (a, counts_of counts.new)) }
    ensures err { IfErr result (λ e. e ≡ ParseFault.NoMemory) }
{
    match givens {
        Givens::None => Ok(action_of_none(handler)),
        Givens::One(given) => action_of_one(handler, given, counts),
        Givens::Two(first, second) => Ok(action_of_two(handler, first, second)),
        Givens::Three(first, second, third) => Ok(action_of_three(handler, first, second, third)),
    }
}

fn action_of_none(handler: Handler) -> Action
    ensures { (n : fits.Counts) → fits.made_action handler [] n ≡ (result, n) }
{
    match handler {
        Handler::Blocking => Action::Blocking,
        Handler::Echo => Action::Echo,
        _ => Action::Done,
    }
}

fn action_of_one(handler: Handler, given: Given, counts: &mut Counts) -> Result<Action, ParseFault>
    requires { length (table.handler_parameters handler) ≡ 1 }
    ensures ok { IfOk result (λ a. fits.made_action handler (given ∷ []) (counts_of counts.old)
        ≡ (a, counts_of counts.new)) }
    ensures err { IfErr result (λ e. e ≡ ParseFault.NoMemory) }
{
    match handler {
        Handler::Clear => Ok(clear(given)),
        Handler::Rewrite => Ok(rewrite(given)),
        Handler::Redirect => Ok(redirect(given)),
        Handler::ResponseCode => response_code(given, counts),
        Handler::AllowedMethods => Ok(allowed_methods(given)),
        Handler::RequestLimit => request_limit(given, counts),
        Handler::AccessLog => access_log(given, counts),
        _ => Ok(Action::Done),
    }
}

fn action_of_two(handler: Handler, first: Given, second: Given) -> Action
    requires { length (table.handler_parameters handler) ≡ 2 }
    ensures { (n : fits.Counts) → fits.made_action handler (first ∷ second ∷ []) n ≡ (result, n) }
{
    match handler {
        Handler::Set => set(first, second),
        Handler::Resource => resource(first, second),
        _ => Action::Done,
    }
}

fn action_of_three(handler: Handler, first: Given, second: Given, third: Given) -> Action
    requires { length (table.handler_parameters handler) ≡ 3 }
    ensures { (n : fits.Counts)
        → fits.made_action handler (first ∷ second ∷ third ∷ []) n ≡ (result, n) }
{
    match handler {
        Handler::Header => header(first, second, third),
        _ => Action::Done,
    }
}

fn clear(given: Given) -> Action
    ensures { (n : fits.Counts) → fits.made_action handlers.Clear (given ∷ []) n ≡ (result, n) }
{
    match given {
        Given::Target(target) => Action::Clear { target },
        _ => Action::Done,
    }
}

fn rewrite(given: Given) -> Action
    ensures { (n : fits.Counts) → fits.made_action handlers.Rewrite (given ∷ []) n ≡ (result, n) }
{
    match given {
        Given::Template(value) => Action::Rewrite(value),
        _ => Action::Done,
    }
}

fn redirect(given: Given) -> Action
    ensures { (n : fits.Counts) → fits.made_action handlers.Redirect (given ∷ []) n ≡ (result, n) }
{
    match given {
        Given::Template(value) => Action::Redirect(value),
        _ => Action::Done,
    }
}

fn response_code(given: Given, counts: &Counts) -> Result<Action, ParseFault>
    ensures ok { IfOk result (λ a. fits.made_action handlers.ResponseCode (given ∷ [])
        (counts_of counts.now)
        ≡ (a, counts_of counts.now)) }
    ensures err { IfErr result (λ e. e ≡ ParseFault.NoMemory) }
{
    match given {
        Given::Number(number) => match u16::try_from(number) {
            Ok(status) => Ok(Action::ResponseCode(status)),
            Err(_) => Err(ParseFault::NoMemory),
        },
        _ => Ok(Action::Done),
    }
}

fn allowed_methods(given: Given) -> Action
    ensures { (n : fits.Counts)
        → fits.made_action handlers.AllowedMethods (given ∷ []) n ≡ (result, n) }
{
    match given {
        Given::Texts(methods) => Action::AllowedMethods(methods),
        _ => Action::Done,
    }
}

/// The limit is numbered from 0 on, in the order of the text.
fn request_limit(given: Given, counts: &mut Counts) -> Result<Action, ParseFault>
    ensures ok { IfOk result (λ a. fits.made_action handlers.RequestLimit (given ∷ [])
        (counts_of counts.old)
        ≡ (a, counts_of counts.new)) }
    ensures err { IfErr result (λ e. e ≡ ParseFault.NoMemory) }
{
    match given {
        Given::Number(most) => numbered_limit(most, counts),
        _ => Ok(Action::Done),
    }
}

fn numbered_limit(most: u32, counts: &mut Counts) -> Result<Action, ParseFault>
    ensures ok { IfOk result (λ a. fits.made_action handlers.RequestLimit (givens.Number most ∷ [])
        (counts_of counts.old)
        ≡ (a, counts_of counts.new)) }
    ensures err { IfErr result (λ e. e ≡ ParseFault.NoMemory) }
{
    let number = counts.limits;
    let Some(limits) = number.checked_add(1) else {
        return Err(ParseFault::NoMemory);
    };
    counts.limits = limits;
    Ok(Action::RequestLimit { number, most })
}

/// The log is numbered from 0 on, in the order of the text.
fn access_log(given: Given, counts: &mut Counts) -> Result<Action, ParseFault>
    ensures ok { IfOk result (λ a. fits.made_action handlers.AccessLog (given ∷ [])
        (counts_of counts.old)
        ≡ (a, counts_of counts.new)) }
    ensures err { IfErr result (λ e. e ≡ ParseFault.NoMemory) }
{
    match given {
        Given::Template(format) => numbered_log(format, counts),
        _ => Ok(Action::Done),
    }
}

fn numbered_log(format: Template, counts: &mut Counts) -> Result<Action, ParseFault>
    ensures ok { IfOk result (λ a. fits.made_action handlers.AccessLog (givens.Template format ∷ [])
        (counts_of counts.old)
        ≡ (a, counts_of counts.new)) }
    ensures err { IfErr result (λ e. e ≡ ParseFault.NoMemory) }
{
    let number = counts.logs;
    let Some(logs) = number.checked_add(1) else {
        return Err(ParseFault::NoMemory);
    };
    counts.logs = logs;
    Ok(Action::AccessLog { number, format })
}

fn set(target: Given, value: Given) -> Action
    ensures { (n : fits.Counts)
        → fits.made_action handlers.Set (target ∷ value ∷ []) n ≡ (result, n) }
{
    match target {
        Given::Target(target) => match value {
            Given::Template(value) => Action::Set { target, value },
            _ => Action::Done,
        },
        _ => Action::Done,
    }
}

fn resource(location: Given, listing: Given) -> Action
    ensures { (n : fits.Counts)
        → fits.made_action handlers.Resource (location ∷ listing ∷ []) n ≡ (result, n) }
{
    match location {
        Given::Text(location) => match listing {
            Given::Truth(listing) => Action::Resource { location, listing },
            _ => Action::Done,
        },
        _ => Action::Done,
    }
}

fn header(name: Given, value: Given, replace: Given) -> Action
    ensures { (n : fits.Counts)
        → fits.made_action handlers.Header (name ∷ value ∷ replace ∷ []) n ≡ (result, n) }
{
    match name {
        Given::Text(name) => match value {
            Given::Template(value) => match replace {
                Given::Truth(replace) => Action::Header {
                    name,
                    value,
                    replace,
                },
                _ => Action::Done,
            },
            _ => Action::Done,
        },
        _ => Action::Done,
    }
}
