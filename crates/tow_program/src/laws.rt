//! What a program does, each law as the contract of a function without a body.

ghost use Rattle.tow_program.specs.Actions.{ActionsAreTree, BoundsAreTree, FormatsAreTree};
ghost use Rattle.tow_program.specs.Laws.{PredicateHolds, ProgramIsPlan, SkippedAreAsked, StatementIsPlan};

/// The instructions of a predicate go on where it leads to, with the bindings of its tests.
pub fn predicate_holds()
    ensures { PredicateHolds }
{}

/// The instructions of a statement do what its plan says, whatever stands behind them.
pub fn statement_is_plan()
    ensures { StatementIsPlan }
{}

/// The program of a text does what the plan of the text says, its restarts with it.
pub fn program_is_plan()
    ensures { ProgramIsPlan }
{}

/// Where tests of literal paths that fail are passed over, the program goes on as it does by asking them.
pub fn skipped_are_asked()
    ensures { SkippedAreAsked }
{}

/// The program of a text has the actions of the text, in its order.
pub fn actions_are_tree()
    ensures { ActionsAreTree }
{}

/// The program of a text has the formats of the text's access logs, by their numbers.
pub fn formats_are_tree()
    ensures { FormatsAreTree }
{}

/// The program of a text has the bounds of the text's limits, by their numbers.
pub fn bounds_are_tree()
    ensures { BoundsAreTree }
{}
