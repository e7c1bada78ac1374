ghost use Rattle.std.specs.Prelude.{◌≡◌, ◌≤◌, true, ◌∷◌, length, OnOk, IfErr};
ghost use Rattle.tow_language.specs.Symbols.{symbol_of};
ghost use Rattle.tow_parse.specs.declared.goal.Goal.TheVariants.{Statements, Statement, Target, Else};
ghost use Rattle.tow_parse.specs.Looks.{Shows, waits_else};
ghost use Rattle.tow_parse.specs.Moves.{Takes, Stops};
ghost use Rattle.tow_parse.specs.Shape.{Shaped};

use crate::goal::{Goal, Joint, Role};
use crate::look::Look;
use crate::part::Part;
use crate::state::State;
use crate::written::written_name;
use tow_fit::ParseFault;
use tow_language::Token;

impl State {
    /// Takes a token between two statements, or before the first or behind the last.
    pub fn take_statements(
        &mut self,
        levels: usize,
        nested: bool,
        look: Look,
        text: &[u8],
        token: Token,
    ) -> Result<(), ParseFault>
        requires order { token.from ≤ token.to }
        requires within { token.to ≤ length text.now }
        requires shows { Shows look (symbol_of text.now token).sign }
        requires shaped { Shaped (Statements levels nested ∷ self.old.goals) }
        ensures ok { OnOk result (Takes (Statements levels nested ∷ self.old.goals) self.old
            (symbol_of text.now token) self.new) }
        ensures err { IfErr result (λ e. Stops (Statements levels nested ∷ self.old.goals) self.old
            (symbol_of text.now token) e) }
    {
        match look {
            Look::Newline | Look::Semi => {
                self.want(Goal::Statements { levels, nested })?;
                self.free = true;
                Ok(())
            }
            Look::CloseBrace => {
                if !nested {
                    return Err(ParseFault::Unexpected(token.from));
                }
                self.tell(Part::Close)?;
                self.free = true;
                Ok(())
            }
            _ => {
                if !self.free {
                    return Err(ParseFault::Unexpected(token.from));
                }
                self.want(Goal::Statements { levels, nested })?;
                self.want(Goal::Told(Joint::End))?;
                self.take_statement(levels, false, look, text, token)
            }
        }
    }

    /// Takes the first token of a statement, or the Arrow before it.
    pub fn take_statement(
        &mut self,
        levels: usize,
        arrow: bool,
        look: Look,
        text: &[u8],
        token: Token,
    ) -> Result<(), ParseFault>
        requires order { token.from ≤ token.to }
        requires within { token.to ≤ length text.now }
        requires shows { Shows look (symbol_of text.now token).sign }
        requires shaped { Shaped (Statement levels arrow ∷ self.old.goals) }
        ensures ok { OnOk result (Takes (Statement levels arrow ∷ self.old.goals) self.old
            (symbol_of text.now token) self.new) }
        ensures err { IfErr result (λ e. Stops (Statement levels arrow ∷ self.old.goals) self.old
            (symbol_of text.now token) e) }
    {
        match look {
            Look::Arrow => {
                if !arrow {
                    return Err(ParseFault::Unexpected(token.from));
                }
                self.want(Goal::Statement {
                    levels,
                    arrow: false,
                })?;
                Ok(())
            }
            Look::Name => {
                let name = written_name(self.alloc, text, token)?;
                self.want(Goal::Named {
                    role: Role::Front(levels),
                    name,
                })?;
                Ok(())
            }
            Look::Not | Look::OpenRound => {
                self.want(Goal::Else { levels })?;
                self.want(Goal::Target { levels })?;
                self.want(Goal::Joined {
                    levels,
                    pending: false,
                    grouped: false,
                })?;
                self.take_factor(levels, look, text, token)
            }
            Look::Restart | Look::Done | Look::OpenBrace => {
                self.take_target(levels, look, text, token)
            }
            _ => Err(ParseFault::Unexpected(token.from)),
        }
    }

    /// Takes the first token of a target.
    pub fn take_target(
        &mut self,
        levels: usize,
        look: Look,
        text: &[u8],
        token: Token,
    ) -> Result<(), ParseFault>
        requires order { token.from ≤ token.to }
        requires within { token.to ≤ length text.now }
        requires shows { Shows look (symbol_of text.now token).sign }
        requires shaped { Shaped (Target levels ∷ self.old.goals) }
        ensures ok { OnOk result (Takes (Target levels ∷ self.old.goals) self.old
            (symbol_of text.now token) self.new) }
        ensures err { IfErr result (λ e. Stops (Target levels ∷ self.old.goals) self.old
            (symbol_of text.now token) e) }
    {
        match look {
            Look::Name => {
                let name = written_name(self.alloc, text, token)?;
                self.want(Goal::Named {
                    role: Role::Handler,
                    name,
                })?;
                Ok(())
            }
            Look::Restart => {
                self.tell(Part::Restart)?;
                self.free = false;
                Ok(())
            }
            Look::Done => {
                self.tell(Part::Done)?;
                self.free = false;
                Ok(())
            }
            Look::OpenBrace => {
                if levels == 0 {
                    return Err(ParseFault::TooDeep(token.from));
                }
                self.tell(Part::Open)?;
                self.want(Goal::Statements {
                    levels: levels - 1,
                    nested: true,
                })?;
                self.free = true;
                Ok(())
            }
            _ => Err(ParseFault::Unexpected(token.from)),
        }
    }

    /// Takes an `else`, or a separator before one or behind the statement.
    pub fn take_else(
        &mut self,
        levels: usize,
        look: Look,
        text: &[u8],
        token: Token,
    ) -> Result<(), ParseFault>
        requires waits { waits_else look ≡ true }
        requires shows { Shows look (symbol_of text.now token).sign }
        requires shaped { Shaped (Else levels ∷ self.old.goals) }
        ensures ok { OnOk result (Takes (Else levels ∷ self.old.goals) self.old
            (symbol_of text.now token) self.new) }
        ensures err { IfErr result (λ e. Stops (Else levels ∷ self.old.goals) self.old
            (symbol_of text.now token) e) }
    {
        match look {
            Look::Else => {
                if levels == 0 {
                    return Err(ParseFault::TooDeep(token.from));
                }
                self.want(Goal::Told(Joint::WhenElse))?;
                self.want(Goal::Statement {
                    levels: levels - 1,
                    arrow: true,
                })?;
                Ok(())
            }
            _ => {
                self.want(Goal::Else { levels })?;
                self.free = true;
                Ok(())
            }
        }
    }
}
