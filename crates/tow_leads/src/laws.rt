//! Laws of the definitions, each the contract of a function that does nothing.

ghost use Rattle.tow_leads.specs.Ports.{PortsLeadOn};
ghost use Rattle.tow_leads.specs.Replied.{RepliesLeadOn};
ghost use Rattle.tow_leads.specs.Sent.{SendsLeadOn};
ghost use Rattle.tow_leads.specs.Taken.{DrainsLeadOn, GatheringsLeadOn};
ghost use Rattle.tow_leads.specs.Walked.{WalksLeadOn};

/// Each call of a port moves bytes as a connection does.
pub fn ports_lead_on()
    ensures { PortsLeadOn }
{}

/// A walk leaves an exchange where its connection knows it, or, if the memory is short, to be cut.
pub fn walks_lead_on()
    ensures { WalksLeadOn }
{}

/// The pieces of a reply are what is to be put for its exchange.
pub fn replies_lead_on()
    ensures { RepliesLeadOn }
{}

/// A call of a gathering takes content of an exchange that waits for it.
pub fn gatherings_lead_on()
    ensures { GatheringsLeadOn }
{}

/// A call of a drain takes content that was not asked for.
pub fn drains_lead_on()
    ensures { DrainsLeadOn }
{}

/// A call of an answer under way puts the next piece of it, or nothing.
pub fn sends_lead_on()
    ensures { SendsLeadOn }
{}
