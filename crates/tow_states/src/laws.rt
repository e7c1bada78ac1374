//! Laws of the definitions, each the contract of a function that does nothing.

ghost use Rattle.tow_states.specs.Breaking.{StatesBreak};
ghost use Rattle.tow_states.specs.Calling.{CallsHavePlaces};
ghost use Rattle.tow_states.specs.Closing.{ClosingIsKept};
ghost use Rattle.tow_states.specs.Completing.{ContentIsShort, ExchangeCompletes};
ghost use Rattle.tow_states.specs.Ending.{ClosingComesToEnd, CutHasEnded, LastIsDone, ReadingEnds};
ghost use Rattle.tow_states.specs.Gathering.{ContentIsTaken, WalkComesToContent};
ghost use Rattle.tow_states.specs.Known.{CourseIsMet};
ghost use Rattle.tow_states.specs.Leaving.{RequestStaysInside};
ghost use Rattle.tow_states.specs.Moving.{StatesMove};
ghost use Rattle.tow_states.specs.Opening.{ExchangeOpens};
ghost use Rattle.tow_states.specs.Reading.{ReadingBegins, RefusalIsPut, RefusingBegins};
ghost use Rattle.tow_states.specs.Sending.{AnswerIsDecided, AnswerIsSent};
ghost use Rattle.tow_states.specs.Serving.{FilesAreOfPages, FoundFilesHaveBytes};
ghost use Rattle.tow_states.specs.States.{StatesAreSound};
ghost use Rattle.tow_states.specs.Walking.{WalkIsKept};

/// A request is inside the limits that its listeners leave, whatever the outside tells.
pub fn request_stays_inside()
    ensures { RequestStaysInside }
{}

/// Whatever its content is, the exchange of the wire ends as the course of the open exchange does.
pub fn course_is_met()
    ensures { CourseIsMet }
{}

/// A connection of which nothing was read reads its first head.
pub fn reading_begins()
    ensures { ReadingBegins }
{}

/// A head that is refused has all of its answer to put.
pub fn refusing_begins()
    ensures { RefusingBegins }
{}

/// The answer to a head that is refused is put piece by piece.
pub fn refusal_is_put()
    ensures { RefusalIsPut }
{}

/// An exchange whose head was read walks from the beginning of its text.
pub fn exchange_opens()
    ensures { ExchangeOpens }
{}

/// A call of `advance`, a verdict and a page each leave an exchange on its walk.
pub fn walk_is_kept()
    ensures { WalkIsKept }
{}

/// An exchange on its walk may come to wait for its content, with or without `100 Continue`.
pub fn walk_comes_to_content()
    ensures { WalkComesToContent }
{}

/// Content that is taken from the pipe leaves an exchange that waits for it where it is.
pub fn content_is_taken()
    ensures { ContentIsTaken }
{}

/// The answer of an exchange that has stopped is decided, and is what is left to put.
pub fn answer_is_decided()
    ensures { AnswerIsDecided }
{}

/// An answer is put piece by piece, and content that was not asked for is dropped.
pub fn answer_is_sent()
    ensures { AnswerIsSent }
{}

/// An exchange of whose answer all was put completes, and it is known what follows.
pub fn exchange_completes()
    ensures { ExchangeCompletes }
{}

/// An exchange completes undecided if the input ends before the content that it waits for.
pub fn content_is_short()
    ensures { ContentIsShort }
{}

/// Each listener that runs leaves the others to run, and the calls and the lines as they have to be.
pub fn closing_is_kept()
    ensures { ClosingIsKept }
{}

/// When all listeners have run, the next request is read, or the connection is at its end.
pub fn closing_comes_to_end()
    ensures { ClosingComesToEnd }
{}

/// If nothing more is asked, or a head is refused, the connection is at its end.
pub fn reading_ends()
    ensures { ReadingEnds }
{}

/// A connection at its end whose last bytes were written is done as it has to be.
pub fn last_is_done()
    ensures { LastIsDone }
{}

/// A connection that was cut has ended as it has to.
pub fn cut_has_ended()
    ensures { CutHasEnded }
{}

/// An answer names a file only if a page gave it.
pub fn files_are_of_pages()
    ensures { FilesAreOfPages }
{}

/// Of a file that a page gives the folder has all the bytes that are told.
pub fn found_files_have_bytes()
    ensures { FoundFilesHaveBytes }
{}

/// A list with 34 places for each limit of the text has places for all calls of a request.
pub fn calls_have_places()
    ensures { CallsHavePlaces }
{}

/// In every state what was written is a front of the wire, and a request is inside the limits that it has to leave.
pub fn states_are_sound()
    ensures { StatesAreSound }
{}

/// What holds in a state goes on to hold while the link is read and written.
pub fn states_move()
    ensures { StatesMove }
{}

/// In each state a fault, or want of memory, leaves what a connection that is cut has to keep.
pub fn states_break()
    ensures { StatesBreak }
{}
