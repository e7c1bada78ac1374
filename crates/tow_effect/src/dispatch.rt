//! What actions do: each handler by its file, and `restart` and `done`.

ghost use Rattle.std.specs.Prelude.{◌≡◌, ◌≢◌, ◌<◌, false, IfSome, if◌then◌else◌};
ghost use Rattle.std.specs.Result.{is_ok};
ghost use Rattle.tow_model.specs.Dates.{first_undated};
ghost use Rattle.tow_semantics.specs.Effects.{effect_of};
ghost use Rattle.tow_effect.specs.Memory.{makes_path, takes_memory};
ghost use Rattle.tow_effect.specs.Shown.{of_write, shown};

use crate::handlers::access_log::access_log;
use crate::handlers::allowed_methods::refuse_method;
use crate::handlers::blocking::blocking;
use crate::handlers::clear::clear;
use crate::handlers::echo::echo;
use crate::handlers::header::header;
use crate::handlers::redirect::redirect;
use crate::handlers::request_limit::request_limit;
use crate::handlers::resource::resource;
use crate::handlers::response_code::response_code;
use crate::handlers::rewrite::rewrite;
use crate::handlers::set::set;
use crate::outcome::{Assign, Effect};
use std::alloc::Global;
use tow_model::{Action, NoMemory, Record, Request};
use tow_text::is_among;

/// What an action does to the record of an exchange, or what it waits for. A value that breaks a rule of `set`, `rewrite` or
/// `header` changes nothing, and the text goes on. The moment is in seconds since 1970. Takes memory for values, fields,
/// bindings, listeners and a page's location; if it is short, the record is as it was.
pub fn effect(
    alloc: Global,
    action: &Action,
    request: &Request,
    exchange: &mut Record,
    moment: u64,
) -> Effect
    requires dated { moment < first_undated }
    ensures value { IfSome (shown result exchange.new) (λ e. e
        ≡ effect_of action.now request.now exchange.old moment) }
    ensures unchanged { result ≢ Effect.Go → result ≢ Effect.Stop → exchange.new ≡ exchange.old }
    ensures plain { takes_memory action.now ≡ false → makes_path action.now exchange.old ≡ false
        → result ≢ Effect.NoMemory }
{
    match action {
        Action::Set { target, value } => {
            after_write(set(alloc, target, value, request, exchange, moment))
        }
        Action::Clear { target } => go_on(clear(alloc, target, exchange)),
        Action::Rewrite(value) => after_write(rewrite(alloc, value, request, exchange, moment)),
        Action::Redirect(value) => stop(redirect(alloc, value, request, exchange, moment)),
        Action::ResponseCode(status) => response_code(*status, exchange),
        Action::Header {
            name,
            value,
            replace,
        } => after_write(header(alloc, name, value, *replace, request, exchange, moment)),
        Action::AllowedMethods(methods) => {
            if is_among(request.method.as_slice(), methods.as_slice()) {
                return Effect::Go;
            }
            stop(refuse_method(alloc, methods.as_slice(), exchange))
        }
        Action::RequestLimit { number, most: _ } => request_limit(*number),
        Action::Resource { location, listing } => resource(alloc, location.as_slice(), *listing),
        Action::Blocking => blocking(),
        Action::AccessLog { number, format: _ } => go_on(access_log(*number, exchange)),
        Action::Echo => echo(),
        Action::Restart => Effect::Restart,
        Action::Done => Effect::ToDefault,
    }
}

/// The text goes on, unless memory was short.
fn go_on(done: Result<(), NoMemory>) -> Effect
    ensures { result ≡ (if is_ok done then Effect.Go else Effect.NoMemory) }
{
    match done {
        Ok(()) => Effect::Go,
        Err(NoMemory) => Effect::NoMemory,
    }
}

/// The exchange has its answer, unless memory was short.
fn stop(done: Result<(), NoMemory>) -> Effect
    ensures { result ≡ (if is_ok done then Effect.Stop else Effect.NoMemory) }
{
    match done {
        Ok(()) => Effect::Stop,
        Err(NoMemory) => Effect::NoMemory,
    }
}

/// The text goes on, also if the value broke a rule, unless memory was short.
fn after_write(done: Assign) -> Effect
    ensures { result ≡ of_write done }
{
    match done {
        Assign::Assigned | Assign::BadValue => Effect::Go,
        Assign::NoMemory => Effect::NoMemory,
    }
}
