//! Laws of the definitions, each the contract of a function that does nothing.

ghost use Rattle.tow_course.specs.Breaks.{CourseBreaks};
ghost use Rattle.tow_course.specs.Course.{
  CourseAdvances,
  CourseHears,
  CourseLooks,
  CourseOpens,
  CourseReads,
  CourseStops,
  CourseWaitsForContent,
  CourseWaitsForVerdict,
};
ghost use Rattle.tow_course.specs.Growing.{ListenersGrow};

/// An exchange that has just begun has all of its outcome left to play.
pub fn course_opens()
    ensures { CourseOpens }
{}

/// A call of `advance` leaves what is to be played.
pub fn course_advances()
    ensures { CourseAdvances }
{}

/// A verdict that an exchange waits for is the next one of its outcome.
pub fn course_hears()
    ensures { CourseHears }
{}

/// The content that an exchange waits for is that of its outcome.
pub fn course_reads()
    ensures { CourseReads }
{}

/// The page that an exchange waits for is the one that its outcome finds.
pub fn course_looks()
    ensures { CourseLooks }
{}

/// The record of an exchange that has stopped is that of its outcome, whatever still comes.
pub fn course_stops()
    ensures { CourseStops }
{}

/// The outcome of an exchange that waits for its content waits there, as long as that does not come.
pub fn course_waits_for_content()
    ensures { CourseWaitsForContent }
{}

/// The outcome of an exchange that waits for a verdict waits there, as long as none comes.
pub fn course_waits_for_verdict()
    ensures { CourseWaitsForVerdict }
{}

/// What an exchange that is cut short has done is a front of what its outcome does.
pub fn course_breaks()
    ensures { CourseBreaks }
{}

/// The listeners of an exchange are a front of those at its next stop, and so on from stop to stop, and of those with which
/// it ends, whatever it is given.
pub fn listeners_grow()
    ensures { ListenersGrow }
{}
