//! What a walk is for the course of its exchange and for its answer, each law as the contract of a function that does
//! nothing.

ghost use Rattle.tow_walks.specs.Sendable.{ContentsStaySendable, OpenedIsSendable, VerdictsStaySendable, WalksStaySendable};
ghost use Rattle.tow_walks.specs.Staying.{CutShortIsBroken, WalksStayOnCourse};

/// A walk stays on the course of its exchange.
pub fn walks_stay_on_course()
    ensures { WalksStayOnCourse }
{}

/// An exchange whose walk is cut short has done a front of what its outcome does.
pub fn cut_short_is_broken()
    ensures { CutShortIsBroken }
{}

/// The answer of a new exchange can be sent.
pub fn opened_is_sendable()
    ensures { OpenedIsSendable }
{}

/// If the answer of an exchange can be sent, it can after a walk.
pub fn walks_stay_sendable()
    ensures { WalksStaySendable }
{}

/// If the answer of an exchange can be sent, it can after a verdict.
pub fn verdicts_stay_sendable()
    ensures { VerdictsStaySendable }
{}

/// If the answer of an exchange can be sent, it can once it has its content.
pub fn contents_stay_sendable()
    ensures { ContentsStaySendable }
{}
