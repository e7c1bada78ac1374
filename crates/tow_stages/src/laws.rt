//! Laws of the definitions, each the contract of a function that does nothing.

ghost use Rattle.tow_stages.specs.Answering.{AnsweringsLeadOn};
ghost use Rattle.tow_stages.specs.Closing.{ClosingsLeadOn};
ghost use Rattle.tow_stages.specs.Ending.{
  ConnectionBegins,
  EndsAreEnds,
  FailuresLeadOn,
  StagesWriteFronts,
};
ghost use Rattle.tow_stages.specs.Gathering.{GatheringsLeadOn};
ghost use Rattle.tow_stages.specs.Moving.{ReadsLeadOn, WritesLeadOn};
ghost use Rattle.tow_stages.specs.Opening.{ReadingsLeadOn, RefusalsLeadOn};
ghost use Rattle.tow_stages.specs.Walking.{WalkingsLeadOn};

/// A connection begins by reading its first head.
pub fn connection_begins()
    ensures { ConnectionBegins }
{}

/// The link is written: the stage stays.
pub fn writes_lead_on()
    ensures { WritesLeadOn }
{}

/// The link is read: the stage stays.
pub fn reads_lead_on()
    ensures { ReadsLeadOn }
{}

/// A head is taken, or refused, or nothing more is asked.
pub fn readings_lead_on()
    ensures { ReadingsLeadOn }
{}

/// The answer to a head that is refused is put, and then the connection ends.
pub fn refusals_lead_on()
    ensures { RefusalsLeadOn }
{}

/// An exchange walks, hears a verdict, comes to wait for its content, has stopped, or is cut.
pub fn walkings_lead_on()
    ensures { WalkingsLeadOn }
{}

/// A client is told to send its content, and the content is gathered.
pub fn gatherings_lead_on()
    ensures { GatheringsLeadOn }
{}

/// An answer is put piece by piece, and a content that nobody asked for is dropped behind it.
pub fn answerings_lead_on()
    ensures { AnsweringsLeadOn }
{}

/// The listeners of an exchange run, and then the next request is read, or the connection ends.
pub fn closings_lead_on()
    ensures { ClosingsLeadOn }
{}

/// In each stage, what was written is a front of the wire.
pub fn stages_write_fronts()
    ensures { StagesWriteFronts }
{}

/// A connection that has ended has ended as it has to.
pub fn ends_are_ends()
    ensures { EndsAreEnds }
{}

/// What holds in a stage goes on to hold once the log has failed.
pub fn failures_lead_on()
    ensures { FailuresLeadOn }
{}
