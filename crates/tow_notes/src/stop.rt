//! How a target leaves the text.

ghost use Rattle.std.specs.Prelude.{◌≡◌};
ghost use Rattle.tow_notes.specs.Stops as model;

use crate::value::is;
use tow_language::Handler;

/// Whether what follows a target or a statement is reached.
#[derive(Clone, Copy, Debug, PartialEq, Eq)]
pub enum Stop {
    /// It may be.
    GoesOn,
    /// It never is: there is an answer, or the text begins again.
    Answers,
    /// It never is: the text ends.
    Ends,
}

impl Stop {
    /// How a statement leaves the text of which one of these two parts is done.
    pub fn either(self, other: Stop) -> Stop
        ensures { result ≡ model.either self other }
    {
        match (self, other) {
            (Stop::GoesOn, _) | (_, Stop::GoesOn) => Stop::GoesOn,
            (Stop::Ends, Stop::Ends) => Stop::Ends,
            (Stop::Answers, _) | (_, Stop::Answers) => Stop::Answers,
        }
    }
}

/// How the target of this word leaves the text, if it names one.
pub fn stop_of(word: &[u8]) -> Option<Stop>
    ensures { result ≡ model.stop_of word.now }
{
    if is(word, b"done") {
        return Some(Stop::Ends);
    }
    if is(word, b"restart") {
        return Some(Stop::Answers);
    }
    match Handler::named(word) {
        Some(handler) => Some(handler_stop(handler)),
        None => None,
    }
}

/// How a handler leaves the text.
fn handler_stop(handler: Handler) -> Stop
    ensures { result ≡ model.handler_stop handler }
{
    match handler {
        Handler::Redirect | Handler::ResponseCode | Handler::Echo => Stop::Answers,
        Handler::Set
        | Handler::Clear
        | Handler::Rewrite
        | Handler::Header
        | Handler::AllowedMethods
        | Handler::RequestLimit
        | Handler::Resource
        | Handler::Blocking
        | Handler::AccessLog => Stop::GoesOn,
    }
}
