//! Laws of the definitions, each the contract of a function that does nothing.

ghost use Rattle.tow_progress.specs.Runs.{TextsGrow};
ghost use Rattle.tow_progress.specs.OnWire.{FrontFollows, KeptFrontFollows, OpeningIs};
ghost use Rattle.tow_progress.specs.Steps.{AnswersSettle, WireIsKept};
ghost use Rattle.tow_progress.specs.Whole.{KeptWholeIsWritten, WholeIsWritten};
ghost use Rattle.tow_progress.specs.Exchanges.{WireIsTexts};
ghost use Rattle.tow_progress.specs.Accounts.{AccountIsKept, AccountOpens, DoneFollows};
ghost use Rattle.tow_progress.specs.Cuts.{CutFollows};
ghost use Rattle.tow_progress.specs.Inside.{InsideIsKept};

/// Further verdicts, and the content, change only an exchange that waits for them: so it is for
/// every text.
pub fn texts_grow()
    ensures { TextsGrow }
{}

/// A connection of which nothing was read or written is on its wire.
pub fn opening_is()
    ensures { OpeningIs }
{}

/// What an open connection has written is a front of its wire under the verdicts so far.
pub fn front_follows()
    ensures { FrontFollows }
{}

/// The same where a type keeps the fact without its reasons.
pub fn kept_front_follows()
    ensures { KeptFrontFollows }
{}

/// Each step of a connection keeps it on its wire, and leaves its number, its client and its input.
pub fn wire_is_kept()
    ensures { WireIsKept }
{}

/// An answer that was decided before the content came is owed whatever content comes.
pub fn answers_settle()
    ensures { AnswersSettle }
{}

/// A connection on its wire that has put all and has nothing left to write has written all of it.
pub fn whole_is_written()
    ensures { WholeIsWritten }
{}

/// The same where a type keeps the fact without its reasons.
pub fn kept_whole_is_written()
    ensures { KeptWholeIsWritten }
{}

/// The wire is the texts of its exchanges, and then at most the answer to a head that is refused.
pub fn wire_is_texts()
    ensures { WireIsTexts }
{}

/// A connection of which nothing was read keeps its account of calls and lines.
pub fn account_opens()
    ensures { AccountOpens }
{}

/// Each step of a connection keeps its account of calls and lines.
pub fn account_is_kept()
    ensures { AccountIsKept }
{}

/// A connection on its wire that has put, written, asked and told all is done as it has to be.
pub fn done_follows()
    ensures { DoneFollows }
{}

/// A connection on its wire that was cut has ended as it has to, if its listeners ran.
pub fn cut_follows()
    ensures { CutFollows }
{}

/// Each step keeps what the calls of a connection say of the limits that its exchanges are inside.
pub fn inside_is_kept()
    ensures { InsideIsKept }
{}
