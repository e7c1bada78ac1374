//! The listeners of an exchange that are still to run.

ghost use Rattle.std.specs.Prelude.{◌≡◌, ◌<◌, [], ◌∷◌, ◌++◌, true, false, IfOk, IfNone, IfSome, OnOk, filter_map, reverse};
ghost use Rattle.tow_model.specs.Dates.{first_undated};
ghost use Rattle.tow_program.specs.Actions.{formats_in};
ghost use Rattle.tow_semantics.specs.Listeners.{at_number};
ghost use Rattle.tow_semantics.specs.Values.{line_of};
ghost use Rattle.tow_exchange.specs.Completions.{completion, without_listeners, without_record};
ghost use Rattle.tow_closing.specs.Closings.{Does, line_told};

use crate::work::Work;
use std::alloc::Global;
use std::marker::Model;
use tow_exchange::{Completed, Exchange};
use tow_log::line;
use tow_model::{Bytes, List, Listener, NoMemory, Record, Request};
use tow_program::Program;

/// An exchange that completes: the listeners that are still to run, with the lines of its logs. The lines are made at once,
/// so that the record may go on into the answer.
#[derive(Drop)]
pub struct Closing {
    completed: Completed,
    // the lines that are still to be told, the next one last
    lines: Vec<Bytes>,
    lost: bool,
}

impl Model for Closing {
    ghost use Rattle.std.specs.Prelude.{◌≡◌, false, length, reverse};
    ghost use Rattle.tow_closing.specs.Closings.{ClosingData, left_to_tell};

    ghost Value = { ClosingData };

    ghost view = { λ c. record { completed = c.completed; lines = reverse c.lines.items; lost = c.lost } };

    ghost invariant = { λ c. c.lost ≡ false → length c.lines.items ≡ left_to_tell c.completed.left };
}

impl Closing {
    /// All listeners of the exchange are to run, with their lines by the formats of the program. Takes memory for the lines; if
    /// it is short, they are lost.
    pub fn new(alloc: Global, program: &Program, exchange: Exchange) -> Closing
        requires { exchange.moment < first_undated }
        ensures completed { result.completed ≡ completion exchange }
        ensures lines { result.lost ≡ false → result.lines ≡ filter_map
            (line_told (formats_in program.now) exchange.request exchange.stand.state
            exchange.moment) (reverse exchange.stand.state.listeners) }
        ensures none { result.lost ≡ true → result.lines ≡ [] }
    {
        let completed = exchange.complete();
        let made = lines_of(alloc, program, &completed);
        match made {
            Ok(lines) => Closing {
                completed,
                lines,
                lost: false,
            },
            Err(NoMemory) => Closing {
                completed,
                lines: Vec::new(alloc),
                lost: true,
            },
        }
    }

    /// What the next listener does, and none if all have run: each runs once, the one added last first. Takes no memory.
    pub fn next(&mut self) -> Option<Work>
        ensures some { IfSome result (λ work. Does work self.old self.new) }
        ensures none { IfNone result (self.old.completed.left ≡ []) }
        ensures done { IfNone result (self.new ≡ self.old) }
        ensures lost { self.new.lost ≡ self.old.lost }
    {
        match self.completed.next()? {
            Listener::Leave(limit) => Some(Work::Leave(limit)),
            Listener::Log(number) => {
                let line = self.lines.pop();
                Some(Work::Tell { number, line })
            }
        }
    }

    /// Takes the record out, so that it goes on into the answer without a copy. The listeners that are left still run, with
    /// their lines. Takes no memory.
    pub fn take_record(&mut self, alloc: Global) -> Record
        ensures taken { result ≡ without_listeners self.old.completed.state }
        ensures rest { self.new
            ≡ record self.old { completed = without_record self.old.completed } }
    {
        self.completed.take_record(alloc)
    }

    /// Whether there was no memory for the lines.
    pub fn is_lost(&self) -> bool
        ensures { result ≡ self.now.lost }
    {
        self.lost
    }

    /// The exchange that completes.
    pub fn completed(&self) -> &Completed
        ensures { result.now ≡ self.now.completed }
    {
        &self.completed
    }
}

/// The lines of the exchange's logs, the one that is told first last. Takes memory for them.
fn lines_of(alloc: Global, program: &Program, completed: &Completed) -> Result<Vec<Bytes>, NoMemory>
    requires { completed.now.moment < first_undated }
    ensures { IfOk result (λ lines. lines.items ≡ filter_map (line_told (formats_in program.now)
        completed.now.request completed.now.state completed.now.moment)
        completed.now.state.listeners) }
{
    let mut lines = Vec::new(alloc);
    for listener in completed.state().listeners.as_slice() {
        add_line(alloc, program, completed, *listener, &mut lines)?;
    }
    Ok(lines)
}

/// Adds the line that a listener of the exchange tells, if it tells one. Takes memory for it.
fn add_line(
    alloc: Global,
    program: &Program,
    completed: &Completed,
    listener: Listener,
    lines: &mut Vec<Bytes>,
) -> Result<(), NoMemory>
    requires { completed.now.moment < first_undated }
    ensures { OnOk result (lines.new.items ≡ lines.old.items
        ++ filter_map (line_told (formats_in program.now) completed.now.request
        completed.now.state completed.now.moment) (listener ∷ [])) }
{
    let Listener::Log(number) = listener else {
        return Ok(());
    };
    let line = line_in(
        alloc,
        program,
        number,
        completed.request(),
        completed.state(),
        completed.moment(),
    )?;
    match lines.push(line) {
        Ok(()) => Ok(()),
        Err(_line) => Err(NoMemory),
    }
}

/// The line of the access log of this number, by its format in the program. Takes memory for it.
fn line_in(
    alloc: Global,
    program: &Program,
    number: u32,
    request: &Request,
    state: &Record,
    moment: u64,
) -> Result<Bytes, NoMemory>
    requires { moment < first_undated }
    ensures { IfOk result (λ text. text
        ≡ line_of (at_number number (formats_in program.now)) request.now state.now moment) }
{
    match program.format(number as usize) {
        Some(format) => line(alloc, format, request, state, moment),
        None => line(alloc, &List::new(alloc), request, state, moment),
    }
}
