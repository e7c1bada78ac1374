ghost use Rattle.std.specs.Prelude.{◌≡◌, ◌≤◌, ◌∷◌, ◌++◌, true, false, length, OnOk, IfErr};
ghost use Rattle.tow_language.specs.Symbols.{symbol_of};
ghost use Rattle.tow_parse.specs.declared.goal.Goal.TheVariants.{Named, Parameters};
ghost use Rattle.tow_parse.specs.Looks.{Shows, opens};
ghost use Rattle.tow_fit.specs.declared.fault.ParseFault.TheVariants.{NoMemory};
ghost use Rattle.tow_parse.specs.Moves.{Takes, Stops, told};
ghost use Rattle.tow_parse.specs.Phased.{role_goals, role_told, call_with};
ghost use Rattle.tow_parse.specs.Shape.{Shaped};

use crate::goal::{Goal, Heading, Phase, Role};
use crate::look::Look;
use crate::part::Part;
use crate::phase::{Place, next_place};
use crate::state::State;
use tow_fit::{Call, ParseFault, WrittenParameters, WrittenText};
use tow_language::Token;

impl State {
    /// Takes the opening bracket of a call.
    pub fn take_named(
        &mut self,
        role: Role,
        name: WrittenText,
        look: Look,
        text: &[u8],
        token: Token,
    ) -> Result<(), ParseFault>
        requires order { token.from ≤ token.to }
        requires within { token.to ≤ length text.now }
        requires shows { Shows look (symbol_of text.now token).sign }
        requires waits { opens look ≡ true }
        requires shaped { Shaped (Named role name ∷ self.old.goals) }
        ensures ok { OnOk result (Takes (Named role name ∷ self.old.goals) self.old
            (symbol_of text.now token) self.new) }
        ensures err { IfErr result (λ e. Stops (Named role name ∷ self.old.goals) self.old
            (symbol_of text.now token) e) }
    {
        let square = look.is_square();
        let heading = Heading { role, name, square };
        self.want(Goal::Parameters {
            heading,
            phase: Phase::First,
        })?;
        Ok(())
    }

    /// Takes a token between the brackets of a call.
    pub fn take_parameters(
        &mut self,
        heading: Heading,
        phase: Phase,
        look: Look,
        text: &[u8],
        token: Token,
    ) -> Result<(), ParseFault>
        requires order { token.from ≤ token.to }
        requires within { token.to ≤ length text.now }
        requires shows { Shows look (symbol_of text.now token).sign }
        requires shaped { Shaped (Parameters heading phase ∷ self.old.goals) }
        ensures ok { OnOk result (Takes (Parameters heading phase ∷ self.old.goals) self.old
            (symbol_of text.now token) self.new) }
        ensures err { IfErr result (λ e. Stops (Parameters heading phase ∷ self.old.goals) self.old
            (symbol_of text.now token) e) }
    {
        match next_place(self.alloc, heading.square, phase, look, text, token)? {
            Place::At(phase) => {
                self.want(Goal::Parameters { heading, phase })?;
                Ok(())
            }
            Place::Over(parameters) => {
                self.end_call(heading, parameters)?;
                Ok(())
            }
        }
    }

    /// Tells a call, or wants what may follow it.
    fn end_call(
        &mut self,
        heading: Heading,
        parameters: WrittenParameters,
    ) -> Result<(), ParseFault>
        ensures goals { OnOk result (self.new.goals
            ≡ role_goals heading.role (call_with heading parameters) self.old.goals) }
        ensures free { OnOk result (self.new.free ≡ false) }
        ensures told { OnOk result (told self.new
            ≡ told self.old ++ role_told heading.role (call_with heading parameters)) }
        ensures err { IfErr result (λ e. e ≡ NoMemory) }
    {
        let Heading { role, name, .. } = heading;
        let call = Call { name, parameters };
        self.free = false;
        match role {
            Role::Test => {
                self.tell(Part::Test(call))?;
                Ok(())
            }
            Role::Handler => {
                self.tell(Part::Handler(call))?;
                Ok(())
            }
            Role::Front(levels) => {
                self.want(Goal::Called { levels, call })?;
                Ok(())
            }
        }
    }
}
