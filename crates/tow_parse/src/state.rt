ghost use Rattle.std.specs.Prelude.{◌≡◌, [], ◌∷◌, ◌++◌, true, false, OnOk, IfOk, IfErr};
ghost use Rattle.tow_fit.specs.declared.fault.ParseFault.TheVariants.{NoMemory};
ghost use Rattle.tow_parse.specs.declared.goal.Goal.TheVariants.{Statements};

use crate::goal::Goal;
use crate::goals::Goals;
use crate::part::Part;
use std::alloc::Global;
use tow_fit::ParseFault;
use tow_model::List;

/// How many levels a text may open at once.
const MOST_LEVELS: usize = 32;

/// A reader of tokens: what is to follow, and the parts that were told.
#[derive(Drop)]
pub struct State {
    pub goals: Goals,
    /// Whether a separator or a block's closing brace is the last token, or there is none.
    pub free: bool,
    pub parts: List<Part>,
    pub alloc: Global,
}

impl State {
    /// A reader at the front of a text. Takes memory.
    pub fn new(alloc: Global) -> Result<State, ParseFault>
        ensures goals { IfOk result (λ s. s.goals ≡ Statements 32 false ∷ []) }
        ensures free { IfOk result (λ s. s.free ≡ true) }
        ensures parts { IfOk result (λ s. s.parts ≡ []) }
        ensures err { IfErr result (λ e. e ≡ NoMemory) }
    {
        let mut goals = Goals::new(alloc);
        goals.push(Goal::Statements {
            levels: MOST_LEVELS,
            nested: false,
        })?;
        Ok(State {
            goals,
            free: true,
            parts: List::new(alloc),
            alloc,
        })
    }

    /// Puts a goal before the others.
    pub fn want(&mut self, goal: Goal) -> Result<(), ParseFault>
        ensures goals { OnOk result (self.new.goals ≡ goal ∷ self.old.goals) }
        ensures free { OnOk result (self.new.free ≡ self.old.free) }
        ensures parts { OnOk result (self.new.parts ≡ self.old.parts) }
        ensures err { IfErr result (λ e. e ≡ NoMemory) }
    {
        self.goals.push(goal)?;
        Ok(())
    }

    /// Tells a part.
    pub fn tell(&mut self, part: Part) -> Result<(), ParseFault>
        ensures goals { OnOk result (self.new.goals ≡ self.old.goals) }
        ensures free { OnOk result (self.new.free ≡ self.old.free) }
        ensures parts { OnOk result (self.new.parts ≡ self.old.parts ++ part ∷ []) }
        ensures err { IfErr result (λ e. e ≡ NoMemory) }
    {
        self.parts.push(part)?;
        Ok(())
    }
}
