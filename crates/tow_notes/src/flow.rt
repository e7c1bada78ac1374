//! A walk over the statements of a text, which marks those that are never reached.

use crate::call::{has_plain_texts, is_call, value_of};
use crate::level::Level;
use crate::mark::Mark;
use crate::stop::{Stop, stop_of};
use std::alloc::{AllocError, Global};
use tow_explain::{Script, closes, opens, spelled};
use tow_language::TokenKind;

/// What is known where a token is read.
#[derive(Drop)]
struct Flow<'a> {
    script: Script<'a>,
    marks: Vec<Mark>,
    /// The lists around the one that is walked, the outermost first.
    outer: Vec<Level>,
    here: Level,
    /// How many brackets of calls and predicates are open.
    brackets: usize,
    /// The locations after which the text may end, as far as it is read.
    locations: Vec<usize>,
}

/// A mark for each token of a text. Takes memory for them.
pub fn marks_of(alloc: Global, script: &Script<'_>) -> Result<Vec<Mark>, AllocError> {
    let mut flow = Flow {
        script: *script,
        marks: vec![in alloc; Mark::Plain; script.tokens.len()]?,
        outer: Vec::new(alloc),
        here: Level::new(false, 0),
        brackets: 0,
        locations: Vec::new(alloc),
    };
    for index in 0..script.tokens.len() {
        flow.take(index)?;
    }
    flow.end_statement();
    flow.leave_locations(0);
    let Flow { marks, .. } = flow;
    Ok(marks)
}

impl<'a> Flow<'a> {
    /// Takes a token.
    fn take(&mut self, index: usize) -> Result<(), AllocError> {
        match self.script.kind(index) {
            Some(kind) if self.brackets > 0 => self.take_in_brackets(index, kind),
            Some(kind) => self.take_in_list(index, kind)?,
            None => {}
        }
        Ok(())
    }

    /// Takes a token of a call's values, or of a predicate in parentheses.
    fn take_in_brackets(&mut self, index: usize, kind: TokenKind) {
        if opens(kind) {
            self.brackets = self.brackets.saturating_add(1);
        } else if closes(kind) {
            self.brackets = self.brackets.saturating_sub(1);
        } else {
            self.take_test(index);
        }
    }

    /// Takes a token of a list of statements.
    fn take_in_list(&mut self, index: usize, kind: TokenKind) -> Result<(), AllocError> {
        match kind {
            TokenKind::Newline | TokenKind::Semi => self.here.is_over = true,
            TokenKind::Arrow => self.take_arrow(index),
            TokenKind::OpenRound | TokenKind::OpenSquare => {
                self.begin(index);
                self.brackets = 1;
            }
            TokenKind::OpenBrace => self.open_block(index)?,
            TokenKind::CloseBrace => self.close_block(),
            TokenKind::Word => self.take_word(index)?,
            TokenKind::Comma
            | TokenKind::Equals
            | TokenKind::CloseRound
            | TokenKind::CloseSquare
            | TokenKind::Quoted => {}
        }
        Ok(())
    }

    /// Takes an arrow. What follows has a condition, unless an `else` stands before it.
    fn take_arrow(&mut self, index: usize) {
        match self.script.before(index, true) {
            Some(before) if self.script.is_word(before, b"else") => {}
            _ => self.here.is_conditional = true,
        }
    }

    fn open_block(&mut self, index: usize) -> Result<(), AllocError> {
        self.begin(index);
        let inner = Level::new(self.here.is_under_plain(), self.locations.len());
        self.outer.push(self.here)?;
        self.here = inner;
        Ok(())
    }

    fn close_block(&mut self) {
        self.end_statement();
        let stop = self.here.stopped;
        if let Some(outer) = self.outer.pop() {
            self.here = outer;
            self.here.take_target(stop);
            self.here.is_over = true;
        }
    }

    fn take_word(&mut self, index: usize) -> Result<(), AllocError> {
        if self.script.is_word(index, b"else") {
            self.here.take_else();
            return Ok(());
        }
        self.begin(index);
        self.take_test(index);
        match stop_of(self.script.bytes(index)) {
            Some(stop) => self.take_target(index, stop),
            None => Ok(()),
        }
    }

    /// Takes the name of a target that leaves the text so.
    fn take_target(&mut self, index: usize, stop: Stop) -> Result<(), AllocError> {
        self.here.take_target(stop);
        if !self.here.is_under_plain() {
            self.mark(index, Mark::AnyPath);
        }
        if self.script.is_word(index, b"resource") && self.here.stopped == Stop::GoesOn {
            self.take_resource(index)?;
        }
        Ok(())
    }

    /// Takes the name of a `resource`, after which the text may end.
    fn take_resource(&mut self, index: usize) -> Result<(), AllocError> {
        match value_of(&self.script, index, b"location", true) {
            Some(location) if !is_whole(spelled(&self.script, location)) => {
                self.locations.push(location)?;
            }
            _ => {}
        }
        Ok(())
    }

    /// Takes what may be the name of a test of the path.
    fn take_test(&mut self, index: usize) {
        if is_call(&self.script, index)
            && self.script.is_word(index, b"path")
            && !self.is_denied(index)
            && has_plain_texts(&self.script, index)
        {
            self.here.is_plain = true;
        }
    }

    fn is_denied(&self, index: usize) -> bool {
        match self.script.before(index, true) {
            Some(before) => self.script.is_word(before, b"not"),
            None => false,
        }
    }

    /// Begins a statement at the token, if what was read before is whole.
    fn begin(&mut self, index: usize) {
        if !self.here.is_over {
            return;
        }
        let was = self.here.stopped;
        self.end_statement();
        self.here.is_over = false;
        if was == Stop::GoesOn && self.here.stopped != Stop::GoesOn {
            self.mark(index, Mark::Unreached);
        }
    }

    /// Ends the statement. One that always answers takes what is left to the folder before it.
    fn end_statement(&mut self) {
        let was = self.here.stopped;
        self.here.end_statement();
        if was != Stop::GoesOn {
            return;
        }
        match self.here.stopped {
            Stop::GoesOn => {}
            Stop::Answers => self.locations.truncate(self.here.locations),
            Stop::Ends => self.leave_locations(self.here.locations),
        }
    }

    /// Marks the locations from this one on, as the text ends after them.
    fn leave_locations(&mut self, from: usize) {
        for at in from..self.locations.len() {
            if let Some(location) = self.locations.get(at).copied() {
                self.mark(location, Mark::WholeFolder);
            }
        }
        self.locations.truncate(from);
    }

    /// Marks a token of which nothing is said yet.
    fn mark(&mut self, index: usize, mark: Mark) {
        if index < self.marks.len() && self.marks[index] == Mark::Plain {
            self.marks[index] = mark;
        }
    }
}

/// Whether the location is the whole folder.
fn is_whole(location: &[u8]) -> bool {
    location.iter().all(|byte| *byte == b'/')
}
