//! A list of statements that is walked.

ghost use Rattle.std.specs.Prelude.{◌≡◌, ◌||◌, false, Some};
ghost use Rattle.tow_notes.specs.Levels as model;

use crate::stop::Stop;

/// A list of statements, and what is known of the one that is read.
#[derive(Clone, Copy, Debug)]
pub struct Level {
    /// How the first statement that always stops leaves the text.
    pub stopped: Stop,
    /// How the targets of the statement leave the text, if it has one so far.
    pub targets: Option<Stop>,
    /// Whether its last part has a condition.
    pub is_conditional: bool,
    /// Whether what follows begins another statement, but for an `else`.
    pub is_over: bool,
    /// Whether the path is one of some plain texts where its last part is done.
    pub is_plain: bool,
    /// Whether it is where the list is done.
    pub is_plain_around: bool,
    /// How many locations were left to the whole folder before the list.
    pub locations: usize,
}

impl Level {
    /// A list of which nothing is read.
    pub fn new(is_plain_around: bool, locations: usize) -> Level
        ensures { result ≡ model.unread is_plain_around locations }
    {
        Level {
            stopped: Stop::GoesOn,
            targets: None,
            is_conditional: false,
            is_over: true,
            is_plain: false,
            is_plain_around,
            locations,
        }
    }

    /// Takes a target that leaves the text so.
    pub fn take_target(&mut self, stop: Stop)
        ensures { self.new
            ≡ record self.old { targets = Some (model.joined self.old.targets stop) } }
    {
        self.targets = match self.targets {
            Some(before) => Some(before.either(stop)),
            None => Some(stop),
        };
    }

    /// Takes the `else` of the statement.
    pub fn take_else(&mut self)
        ensures { self.new
            ≡ record self.old { is_over = false; is_conditional = false; is_plain = false } }
    {
        self.is_over = false;
        self.is_conditional = false;
        self.is_plain = false;
    }

    /// How the statement leaves the text.
    pub fn statement_stop(&self) -> Stop
        ensures { result ≡ model.statement_stop self.now.targets self.now.is_conditional }
    {
        match self.targets {
            Some(_stop) if self.is_conditional => Stop::GoesOn,
            Some(stop) => stop,
            None => Stop::GoesOn,
        }
    }

    /// Ends the statement.
    pub fn end_statement(&mut self)
        ensures { self.new ≡ model.ended self.old }
    {
        if self.stopped == Stop::GoesOn {
            self.stopped = self.statement_stop();
        }
        self.targets = None;
        self.is_conditional = false;
        self.is_over = true;
        self.is_plain = false;
    }

    /// Whether the path is one of some plain texts here.
    pub fn is_under_plain(&self) -> bool
        ensures { result ≡ (self.now.is_plain || self.now.is_plain_around) }
    {
        self.is_plain || self.is_plain_around
    }
}
