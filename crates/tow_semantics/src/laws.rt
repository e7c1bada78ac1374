//! Laws of the definitions, each the contract of a function without a body.

ghost use Rattle.tow_semantics.specs.Laws.{ListingsAreNames, LogDatesAre, ServesItsFiles};
ghost use Rattle.tow_semantics.specs.Outcome.{OutcomeIsPlayed};

/// The walk with everything known beforehand comes to the outcome of the plan that is given each thing as it waits for it.
pub fn outcome_is_played()
    ensures { OutcomeIsPlayed }
{}

/// The names of a directory's listing are those of its children, each once, in byte order.
pub fn listings_are_names()
    ensures { ListingsAreNames }
{}

/// A file that a look finds is one of the folder's map, below the location and the path that were looked up.
pub fn serves_its_files()
    ensures { ServesItsFiles }
{}

/// The date in a line of a log is that of the calendar.
pub fn log_dates_are()
    ensures { LogDatesAre }
{}
