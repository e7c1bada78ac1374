//! How the plan of an exchange begins, waits and ends, each law as the contract of a function without a body.

ghost use Rattle.tow_advance.specs.Knowing.{ProgramAsksTree};
ghost use Rattle.tow_advance.specs.Under.{ContentPlan, OpenedOutcome, OpenedPlan, PagePlan, StoppedPlan, VerdictPlan};

/// A new exchange has the plan of its text.
pub fn opened_plan()
    ensures { OpenedPlan }
{}

/// A new exchange, given each thing that it waits for, comes to the outcome of its text.
pub fn opened_outcome()
    ensures { OpenedOutcome }
{}

/// The plan of an exchange that has stopped is over.
pub fn stopped_plan()
    ensures { StoppedPlan }
{}

/// The plan of an exchange that waits for a verdict goes on as the exchange does by each verdict.
pub fn verdict_plan()
    ensures { VerdictPlan }
{}

/// The plan of an exchange that waits for its content goes on as the exchange does by each content.
pub fn content_plan()
    ensures { ContentPlan }
{}

/// The plan of an exchange that waits for a page goes on as the exchange does by each page.
pub fn page_plan()
    ensures { PagePlan }
{}

/// The program of a text asks the regex tests of the text, in its order.
pub fn program_asks_tree()
    ensures { ProgramAsksTree }
{}
