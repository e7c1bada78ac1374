ghost use Rattle.std.specs.Prelude.{◌≡◌, ◌+◌, ◌<◌, ◌≤◌, ◌^◌, length, OnOk, IfOk, IfErr, [], ◌∷◌};
ghost use Rattle.tow_language.specs.Symbols.{symbol_of};
ghost use Rattle.tow_fit.specs.declared.fault.ParseFault.TheVariants.{NoMemory};
ghost use Rattle.tow_parse.specs.Looks.{Shows, opened};
ghost use Rattle.tow_parse.specs.Moves.{Takes, Stops, Waits, ends_at};
ghost use Rattle.tow_parse.specs.Readers.{Agrees, Steps, Halts, Finishes, EndsEarly};
ghost use Rattle.tow_parse.specs.Shape.{Shaped};

use crate::goal::Goal;
use crate::look::{Look, look_at};
use crate::part::Part;
use crate::state::State;
use std::alloc::Global;
use tow_fit::ParseFault;
use tow_language::Token;
use tow_model::List;

/// A reader with the count of the round and square brackets that are open; in these a Newline is white space.
#[derive(Drop)]
pub struct Reader {
    pub state: State,
    /// How many brackets are open.
    pub depth: usize,
}

impl Reader {
    /// A reader at the front of a text. Takes memory.
    pub fn new(alloc: Global) -> Result<Reader, ParseFault>
        ensures ok { IfOk result (λ reader. Agrees [] reader) }
        ensures depth { IfOk result (λ reader. reader.depth ≡ 0) }
        ensures err { IfErr result (λ e. e ≡ NoMemory) }
    {
        let state = State::new(alloc)?;
        Ok(Reader { state, depth: 0 })
    }

    /// Takes the next token of the text.
    pub fn step(&mut self, text: &[u8], token: Token) -> Result<(), ParseFault>
        requires order { token.from ≤ token.to }
        requires within { token.to ≤ length text.now }
        requires room { self.old.depth + 1 < 2 ^ 64 }
        requires shaped { Shaped self.old.state.goals }
        ensures ok { OnOk result (Steps self.old (symbol_of text.now token) self.new) }
        ensures depth { OnOk result (self.new.depth ≤ self.old.depth + 1) }
        ensures err { IfErr result (λ e. Halts self.old (symbol_of text.now token) e) }
    {
        let look = look_at(text, token);
        if look.is_blank(self.depth) {
            return Ok(());
        }
        self.depth = look.open_after(self.depth);
        match self.state.next_goal(look)? {
            Some(goal) => self.state.take(goal, look, text, token),
            None => Err(ParseFault::Unexpected(token.from)),
        }
    }

    /// The parts of the text, which ends here.
    pub fn finish(mut self, end: usize) -> Result<List<Part>, ParseFault>
        requires shaped { Shaped self.state.goals }
        ensures ok { IfOk result (λ parts. Finishes self parts) }
        ensures err { IfErr result (λ e. EndsEarly self end e) }
    {
        let next = self.state.next_goal(Look::End)?;
        if !may_end(next) {
            return Err(ParseFault::Unexpected(end));
        }
        let Reader { state, .. } = self;
        let State { parts, .. } = state;
        Ok(parts)
    }
}

/// Whether a text may end where this is the next goal.
fn may_end(next: Option<Goal>) -> bool
    ensures { result ≡ ends_at next }
{
    match next {
        Some(Goal::Statements { nested, .. }) => !nested,
        Some(_) => false,
        None => true,
    }
}

impl State {
    /// Takes a token where its goal is not over.
    fn take(&mut self, goal: Goal, look: Look, text: &[u8], token: Token) -> Result<(), ParseFault>
        requires order { token.from ≤ token.to }
        requires within { token.to ≤ length text.now }
        requires shows { Shows look (symbol_of text.now token).sign }
        requires waits { Waits goal look }
        requires shaped { Shaped (goal ∷ self.old.goals) }
        ensures ok { OnOk result (Takes (goal ∷ self.old.goals) self.old (symbol_of text.now token)
            self.new) }
        ensures err { IfErr result (λ e. Stops (goal ∷ self.old.goals) self.old
            (symbol_of text.now token) e) }
    {
        match goal {
            Goal::Statements { levels, nested } => self.take_statements(
                levels, nested, look, text, token,
            ),
            Goal::Statement { levels, arrow } => self.take_statement(
                levels, arrow, look, text, token,
            ),
            Goal::Factor { levels } => self.take_factor(levels, look, text, token),
            Goal::Joined {
                levels,
                pending,
                grouped,
            } => self.take_joined(levels, pending, grouped, look, text, token),
            Goal::Target { levels } => self.take_target(levels, look, text, token),
            Goal::Else { levels } => self.take_else(levels, look, text, token),
            Goal::Named { role, name } => self.take_named(role, name, look, text, token),
            Goal::Parameters { heading, phase } => self.take_parameters(
                heading, phase, look, text, token,
            ),
            // No token is read for these two: the reader passes them before it looks at the next one.
            Goal::Told(_) | Goal::Called { .. } => unreachable!(),
        }
    }
}
