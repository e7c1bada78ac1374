ghost use Rattle.std.specs.Prelude.{◌≡◌, ◌∷◌, [], false, IfOk, IfErr, IfSome, IfNone};
ghost use Rattle.tow_fit.specs.declared.fault.ParseFault.TheVariants.{NoMemory};
ghost use Rattle.tow_parse.specs.declared.goal.Goal.TheVariants.{Called, Named};
ghost use Rattle.tow_parse.specs.Follows.{told_part};
ghost use Rattle.tow_parse.specs.Looks.{opens};
ghost use Rattle.tow_parse.specs.Parts.{raw_part};
ghost use Rattle.tow_parse.specs.Moves.{Passes, Waits};
ghost use Rattle.tow_parse.specs.Shape.{Shaped};

use crate::goal::{Goal, Joint, Role};
use crate::look::Look;
use crate::part::Part;
use crate::state::State;
use tow_fit::{Call, ParseFault, WrittenParameters, WrittenText};
use tow_model::List;

impl State {
    /// Takes the goals that are over before such a token, and the first that is not.
    pub fn next_goal(&mut self, look: Look) -> Result<Option<Goal>, ParseFault>
        requires shaped { Shaped self.old.goals }
        ensures some { IfOk result (λ goal. IfSome goal
            (λ g. Passes self.old.goals self.old look (g ∷ self.new.goals) self.new)) }
        ensures waits { IfOk result (λ goal. IfSome goal (λ g. Waits g look)) }
        ensures none { IfOk result (λ goal. IfNone goal
            (Passes self.old.goals self.old look [] self.new)) }
        ensures err { IfErr result (λ e. e ≡ NoMemory) }
    {
        'passing: loop {
            match self.goals.pop() {
                Some(goal) => match self.pass(goal, look)? {
                    Some(next) => return Ok(Some(next)),
                    None => {}
                },
                None => return Ok(None),
            }
        }
    }

    /// Passes over a goal that is over before such a token, or gives back what is not.
    fn pass(&mut self, goal: Goal, look: Look) -> Result<Option<Goal>, ParseFault>
        requires shaped { Shaped (goal ∷ self.old.goals) }
        ensures some { IfOk result (λ next. IfSome next
            (λ g. Passes (goal ∷ self.old.goals) self.old look (g ∷ self.new.goals) self.new)) }
        ensures waits { IfOk result (λ next. IfSome next (λ g. Waits g look)) }
        ensures none { IfOk result (λ next. IfNone next
            (Passes (goal ∷ self.old.goals) self.old look self.new.goals self.new)) }
        ensures shorter { IfOk result (λ next. IfNone next (self.new.goals ≡ self.old.goals)) }
        ensures err { IfErr result (λ e. e ≡ NoMemory) }
    {
        match goal {
            Goal::Told(joint) => {
                self.tell(part_of(joint))?;
                Ok(None)
            }
            Goal::Named { role, name } => {
                if look.opens() {
                    return Ok(Some(Goal::Named { role, name }));
                }
                self.pass_name(role, name, look)
            }
            Goal::Called { levels, call } => self.pass_called(levels, call, look),
            Goal::Else { levels } => {
                if look.waits_else() {
                    return Ok(Some(Goal::Else { levels }));
                }
                self.tell(Part::When)?;
                Ok(None)
            }
            goal => Ok(Some(goal)),
        }
    }

    /// Passes over what may follow the name of a call.
    fn pass_name(
        &mut self,
        role: Role,
        name: WrittenText,
        look: Look,
    ) -> Result<Option<Goal>, ParseFault>
        requires over { opens look ≡ false }
        requires shaped { Shaped (Named role name ∷ self.old.goals) }
        ensures some { IfOk result (λ next. IfSome next
            (λ g. Passes (Named role name ∷ self.old.goals) self.old look (g ∷ self.new.goals)
            self.new)) }
        ensures waits { IfOk result (λ next. IfSome next (λ g. Waits g look)) }
        ensures none { IfOk result (λ next. IfNone next
            (Passes (Named role name ∷ self.old.goals) self.old look self.new.goals self.new)) }
        ensures shorter { IfOk result (λ next. IfNone next (self.new.goals ≡ self.old.goals)) }
        ensures err { IfErr result (λ e. e ≡ NoMemory) }
    {
        let call = Call {
            name,
            parameters: WrittenParameters::Unnamed(List::new(self.alloc)),
        };
        match role {
            Role::Test => {
                self.tell(Part::Test(call))?;
                self.free = false;
                Ok(None)
            }
            Role::Handler => {
                self.tell(Part::Handler(call))?;
                self.free = false;
                Ok(None)
            }
            Role::Front(levels) => {
                let next = self.pass_called(levels, call, look)?;
                Ok(next)
            }
        }
    }

    /// Passes over what may follow a call at the front of a statement.
    fn pass_called(
        &mut self,
        levels: usize,
        call: Call,
        look: Look,
    ) -> Result<Option<Goal>, ParseFault>
        requires shaped { Shaped (Called levels call ∷ self.old.goals) }
        ensures some { IfOk result (λ next. IfSome next
            (λ g. Passes (Called levels call ∷ self.old.goals) self.old look (g ∷ self.new.goals)
            self.new)) }
        ensures waits { IfOk result (λ next. IfSome next (λ g. Waits g look)) }
        ensures none { IfOk result (λ next. IfNone next
            (Passes (Called levels call ∷ self.old.goals) self.old look self.new.goals self.new)) }
        ensures shorter { IfOk result (λ next. IfNone next (self.new.goals ≡ self.old.goals)) }
        ensures err { IfErr result (λ e. e ≡ NoMemory) }
    {
        self.free = false;
        if !look.joins() {
            self.tell(Part::Handler(call))?;
            return Ok(None);
        }
        self.tell(Part::Test(call))?;
        self.want(Goal::Else { levels })?;
        self.want(Goal::Target { levels })?;
        Ok(Some(Goal::Joined {
            levels,
            pending: false,
            grouped: false,
        }))
    }
}

fn part_of(joint: Joint) -> Part
    ensures { raw_part result ≡ told_part joint }
{
    match joint {
        Joint::Not => Part::Not,
        Joint::And => Part::And,
        Joint::WhenElse => Part::WhenElse,
        Joint::End => Part::End,
    }
}
