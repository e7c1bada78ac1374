ghost use Rattle.std.specs.Prelude.{◌≡◌, ◌≤◌, ◌∷◌, ◌++◌, length, OnOk, IfErr};
ghost use Rattle.tow_language.specs.Symbols.{symbol_of};
ghost use Rattle.tow_parse.specs.declared.goal.Goal.TheVariants.{Factor, Joined};
ghost use Rattle.tow_parse.specs.Looks.{Shows};
ghost use Rattle.tow_fit.specs.declared.fault.ParseFault.TheVariants.{NoMemory};
ghost use Rattle.tow_parse.specs.Follows.{pending_parts};
ghost use Rattle.tow_parse.specs.Moves.{Takes, Stops, told};
ghost use Rattle.tow_parse.specs.Shape.{Shaped};

use crate::goal::{Goal, Joint, Role};
use crate::look::Look;
use crate::part::Part;
use crate::state::State;
use crate::written::written_name;
use tow_fit::ParseFault;
use tow_language::Token;

impl State {
    /// Takes the first token of a factor.
    pub fn take_factor(
        &mut self,
        levels: usize,
        look: Look,
        text: &[u8],
        token: Token,
    ) -> Result<(), ParseFault>
        requires order { token.from ≤ token.to }
        requires within { token.to ≤ length text.now }
        requires shows { Shows look (symbol_of text.now token).sign }
        requires shaped { Shaped (Factor levels ∷ self.old.goals) }
        ensures ok { OnOk result (Takes (Factor levels ∷ self.old.goals) self.old
            (symbol_of text.now token) self.new) }
        ensures err { IfErr result (λ e. Stops (Factor levels ∷ self.old.goals) self.old
            (symbol_of text.now token) e) }
    {
        match look {
            Look::Not if levels == 0 => Err(ParseFault::TooDeep(token.from)),
            Look::Not => {
                self.want(Goal::Told(Joint::Not))?;
                self.want(Goal::Factor { levels: levels - 1 })?;
                Ok(())
            }
            Look::OpenRound if levels == 0 => Err(ParseFault::TooDeep(token.from)),
            Look::OpenRound => {
                self.want(Goal::Joined {
                    levels: levels - 1,
                    pending: false,
                    grouped: true,
                })?;
                self.want(Goal::Factor { levels: levels - 1 })?;
                Ok(())
            }
            Look::Name => {
                let name = written_name(self.alloc, text, token)?;
                self.want(Goal::Named {
                    role: Role::Test,
                    name,
                })?;
                Ok(())
            }
            _ => Err(ParseFault::Unexpected(token.from)),
        }
    }

    /// Takes the token behind a factor.
    pub fn take_joined(
        &mut self,
        levels: usize,
        pending: bool,
        grouped: bool,
        look: Look,
        text: &[u8],
        token: Token,
    ) -> Result<(), ParseFault>
        requires shows { Shows look (symbol_of text.now token).sign }
        requires shaped { Shaped (Joined levels pending grouped ∷ self.old.goals) }
        ensures ok { OnOk result (Takes (Joined levels pending grouped ∷ self.old.goals) self.old
            (symbol_of text.now token) self.new) }
        ensures err { IfErr result (λ e. Stops (Joined levels pending grouped ∷ self.old.goals)
            self.old (symbol_of text.now token) e) }
    {
        if look.ends(grouped) {
            self.tell_pending(pending)?;
            self.free = false;
            return Ok(());
        }
        match look {
            Look::And => {
                self.want(Goal::Joined {
                    levels,
                    pending,
                    grouped,
                })?;
                self.want(Goal::Told(Joint::And))?;
                self.want(Goal::Factor { levels })?;
                Ok(())
            }
            Look::Or => {
                self.tell_pending(pending)?;
                self.want(Goal::Joined {
                    levels,
                    pending: true,
                    grouped,
                })?;
                self.want(Goal::Factor { levels })?;
                Ok(())
            }
            _ => Err(ParseFault::Unexpected(token.from)),
        }
    }

    /// Tells the `Or` that is still to be told.
    fn tell_pending(&mut self, pending: bool) -> Result<(), ParseFault>
        ensures goals { OnOk result (self.new.goals ≡ self.old.goals) }
        ensures free { OnOk result (self.new.free ≡ self.old.free) }
        ensures told { OnOk result (told self.new ≡ told self.old ++ pending_parts pending) }
        ensures err { IfErr result (λ e. e ≡ NoMemory) }
    {
        if pending {
            self.tell(Part::Or)?;
        }
        Ok(())
    }
}
